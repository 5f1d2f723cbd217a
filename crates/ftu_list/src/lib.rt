// The FTU list: what a ping found of each board, as a block sent out.
#![tactic(auto)]

ghost use Rattle.std.specs.Prelude.{◌≡◌, [], ◌++◌, ◌-◌, ◌<◌, ◌≤◌, length, take, drop};
ghost use Rattle.blocks.specs.Blocks.{WroteBlock};
ghost use Rattle.ftu_list.specs.List.{entry_words, entry_words_from, answered, list_head, list_body};

use blocks::{Header, put_header};
use configuration::address_of;
use numbers::words;
use refusals::Refusal;
use words::copy_words;

// What a ping found of a board. One that did not answer has no calls.
#[derive(Clone, Copy)]
pub struct Entry {
    pub dna: u64,
    // How many calls it needed.
    pub calls: u8,
    pub crc_errors: u8,
}

#[derive(Clone, Copy)]
pub struct FtuList {
    // The four active words as stored when the ping began.
    pub active: [u16; 4],
    // Board b of crate c at 10c + b.
    pub entries: [Entry; 40],
}

// The six words of board k.
fn entry_words(k: usize, e: Entry) -> [u16; 6]
    requires { k < 40 }
    ensures { result ≡ entry_words k e }
{
    if e.calls == 0 {
        return [0, 0, 0, 0, 0, 0];
    }
    let address = address_of((k / 10) as u8, (k % 10) as u8);
    let dna = words::<4>(e.dna);
    [
        (address as u16) + 256 * (e.calls as u16),
        dna[0],
        dna[1],
        dna[2],
        dna[3],
        e.crc_errors as u16,
    ]
}

// How many of the boards from one place up to another answered.
fn answered_in(entries: [Entry; 40], from: usize, to: usize) -> u16
    requires { (from ≤ to) × (to ≤ 40) }
    ensures { result ≡ answered (take (to - from) (drop from entries)) }
{
    let mut n: u16 = 0;
    for k in from..to {
        let e = entries[k];
        if e.calls != 0 {
            n += 1;
        }
    }
    n
}

// The nine words before the boards': how many answered, in all and in each crate, and the active words.
fn list_head(list: FtuList) -> [u16; 9]
    ensures { result ≡ list_head list }
{
    let active = list.active;
    let entries = list.entries;
    [
        answered_in(entries, 0, 40),
        answered_in(entries, 0, 10),
        answered_in(entries, 10, 20),
        answered_in(entries, 20, 30),
        answered_in(entries, 30, 40),
        active[0],
        active[1],
        active[2],
        active[3],
    ]
}

// Puts the boards' words, six each, to the front of lent words.
fn put_entries(entries: [Entry; 40], body: &mut [u16])
    requires { 240 ≤ length body.old }
    ensures { body.new ≡ entry_words_from 0 entries ++ drop 240 body.old }
{
    for k in 0..40 {
        let e = entries[k];
        let six = entry_words(k, e);
        let at = 6 * k;
        copy_words(&six, &mut body[at..]);
    }
}

// Puts the body of an FTU list to the front of the words after the header.
fn put_list(list: FtuList, body: &mut [u16])
    requires { 249 ≤ length body.old }
    ensures { body.new ≡ list_body list ++ drop 249 body.old }
{
    let head = list_head(list);
    let entries = list.entries;
    copy_words(&head, body);
    put_entries(entries, &mut body[9..]);
}

// Writes an FTU list to the front of the lent words.
pub fn write_list(h: Header, list: FtuList, out: &mut [u16]) -> Result<usize, Refusal>
    ensures { WroteBlock [] 249 h (list_body list) out.old result out.new }
{
    put_header(h, 249, out)?;
    put_list(list, &mut out[11..]);
    Ok(260)
}
