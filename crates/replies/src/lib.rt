// Replies to slow-control frames: when one is good, and what a good reply to a ping and one with rates carry.
#![tactic(auto)]

ghost use Rattle.std.specs.Prelude.{◌≡◌, ◌<◌, ◌-◌, get_or};
ghost use Rattle.replies.specs.Replies.{same_from, dna_in, count_in, rate_data, data_right, good_reply, carried_in, rates_in};

use crc::FRAME_START;
use numbers::{ID_LIMIT, words};
use std::array::from_fn;
use table_crc::crc8;

// A trigger count is below it.
const COUNT_LIMIT: u32 = 1 << 30;

// What a ping reply carries.
#[derive(Clone, Copy)]
pub struct PingReply {
    pub dna: u64,
    pub crc_errors: u8,
}

// The byte at a place, and 0 past the end.
fn byte_at(bytes: &[u8], place: usize) -> u8
    ensures { result ≡ get_or bytes.now place 0 }
{
    bytes.get(place).copied().unwrap_or(0)
}

// Whether the reply's data from a place on, to byte 25, are those of another frame. Each byte is looked at, so that several are compared at once,
// and no call is made: a call of the library's comparison of slices keeps the compiler from taking a reply's board apart, which is then copied.
fn same_from(from: usize, other: [u8; 28], reply: &[u8; 28]) -> bool
    ensures { result ≡ same_from (26 - from) from other reply.now }
{
    let mut same = true;
    for i in from..26 {
        if reply[i] != other[i] {
            same = false;
        }
    }
    same
}

// The DNA in a ping reply; a byte that is not there counts as 0.
fn dna_in(reply: &[u8]) -> u64
    ensures { result ≡ dna_in reply.now }
{
    u64::from_be_bytes(from_fn(|i| byte_at(reply, 5 + i)))
}

// The count of a patch, or the total after those of the four patches; a byte that is not there counts as 0.
fn count_in(reply: &[u8], patch: usize) -> u32
    requires { patch < 5 }
    ensures { result ≡ count_in reply.now patch }
{
    u32::from_be_bytes(from_fn(|i| byte_at(reply, 5 + 4 * patch + i)))
}

// Whether each of the five counts is below 2^30.
fn counts_below(reply: &[u8; 28]) -> bool
    ensures { result ≡ rate_data reply.now }
{
    for patch in 0..5 {
        if COUNT_LIMIT <= count_in(reply, patch) {
            return false;
        }
    }
    true
}

// Whether the reply's data are right for the frame sent.
fn data_right(sent: [u8; 28], reply: &[u8; 28]) -> bool
    ensures { result ≡ data_right sent reply.now }
{
    match sent[4] {
        4 => dna_in(reply) < ID_LIMIT && same_from(13, [0; 28], reply),
        5 => counts_below(reply),
        _ => same_from(5, sent, reply),
    }
}

// Whether a reply is good for the frame sent.
pub fn is_good(sent: [u8; 28], reply: &[u8]) -> bool
    ensures { result ≡ good_reply sent reply.now }
{
    let Ok(reply) = <&[u8; 28]>::try_from(reply) else {
        return false;
    };
    if reply[0] != 0x40 {
        return false;
    }
    if reply[1] != sent[2] {
        return false;
    }
    if reply[2] != sent[1] {
        return false;
    }
    if reply[4] != sent[4] {
        return false;
    }
    // The register after a right CRC is 0.
    if crc8(FRAME_START, reply) != 0 {
        return false;
    }
    data_right(sent, reply)
}

// What a ping reply carries; a byte that is not there counts as 0.
pub fn carried(reply: &[u8]) -> PingReply
    ensures { result ≡ carried_in reply.now }
{
    PingReply {
        dna: dna_in(reply),
        crc_errors: byte_at(reply, 26),
    }
}

// The twelve words that a board's rates have in a dynamic block; a byte that is not there counts as 0.
pub fn rates_in(reply: &[u8]) -> [u16; 12]
    ensures { result ≡ rates_in reply.now }
{
    let a = words::<2>(count_in(reply, 0) as u64);
    let b = words::<2>(count_in(reply, 1) as u64);
    let c = words::<2>(count_in(reply, 2) as u64);
    let d = words::<2>(count_in(reply, 3) as u64);
    let total = words::<2>(count_in(reply, 4) as u64);
    [
        a[0],
        a[1],
        b[0],
        b[1],
        c[0],
        c[1],
        d[0],
        d[1],
        total[0],
        total[1],
        byte_at(reply, 25) as u16,
        byte_at(reply, 26) as u16,
    ]
}
