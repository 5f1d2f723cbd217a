// Functions for programs in C or Rust (crate `exports_c` hands them out), over numbers and slices: each makes a fresh board of its own where it needs one.
// A function that can refuse returns the number of the refusal, the lowest where several apply, and then leaves all lent memory as it was;
// else it returns 0, and what is due stands in front of the lent output. A number that it counts is the first of the lent numbers.
#![tactic(auto)]

ghost use Rattle.std.specs.Prelude.{◌≡◌, ◌*◌, ◌≤◌, length};
ghost use Rattle.refusals.specs.Tables.{answer_of, answer_number};
ghost use Rattle.crc.specs.Crc.{crc};
ghost use Rattle.exports.specs.Exports.{command_given, CountsAccepted, CountsPass, CountsTimeUps, CountsRatePass, MakesSteps};
ghost use Rattle.exports.specs.Exports.{GivesTriggers, good_packets, CountsPackets, StaticRound};
ghost use Rattle.exports.specs.CodeShape.{GivesPackets};

use block_reader::{Kind, read_block};
use blocks::{Header, write_static};
use board::Board;
use call_refusals::{lower_of, no_room, packets_refusal, pass_refusal, triggers_refusal};
use command_reader::read_command;
use command_series::obey_series;
use crc::crc8;
use packet_reader::read_packet;
use packets::Fields;
use refusals::{Refusal, count_given, number_given};
use reply_series::{count_on_board, good_replies};
use steps::Event;
use stream::run_out;
use words::copy_words;

// The CRC of bytes from a start.
pub fn ftm_crc(start: u8, bytes: &[u8]) -> u8
    ensures { result ≡ crc start bytes.now }
{
    crc8(start, bytes)
}

// Reads the first command of words: a refusal's number, 0 where it is read.
pub fn ftm_read_command(words: &[u16]) -> u8
    ensures { result ≡ command_given words.now }
{
    number_given(&read_command(words))
}

// On a fresh board: how many of `count` commands of the words, one after another, are accepted.
pub fn ftm_commands(words: &[u16], count: u64, accepted: &mut [u64]) -> u8
    ensures { CountsAccepted count words.now accepted.old result accepted.new }
{
    let refusal = no_room(1, accepted.len());
    if refusal != 0 {
        return refusal;
    }
    let done = obey_series(words, count);
    accepted[0] = done.accepted;
    0
}

// On a fresh board: obeys the first command of the words, then hands in the items, 29 bytes each, a crate's number and a reply of 28
// bytes; each lends `frame` for the next frame. How many replies were good. (On the crates alone.)
pub fn ftm_pass(words: &[u16], items: &[u8], frame: &mut [u8], good: &mut [u64]) -> u8
    ensures { CountsPass words.now items.now frame.old good.old result frame.new good.new }
{
    let done = obey_series(words, 1);
    let refusal = pass_refusal(done.refusal, items.len(), good.len());
    if refusal != 0 {
        return refusal;
    }
    let board = done.board;
    // In a local: with the block lent out of the board, all of it may be copied (DECISIONS, "What a call on the whole board costs").
    let block = board.block;
    good[0] = good_replies(board.crates, &block, board.kind, items, frame);
    0
}

// The same as `ftm_pass`, each item by a call on the whole board.
pub fn ftm_replies(words: &[u16], items: &[u8], frame: &mut [u8], good: &mut [u64]) -> u8
    ensures { CountsPass words.now items.now frame.old good.old result frame.new good.new }
{
    let done = obey_series(words, 1);
    let refusal = pass_refusal(done.refusal, items.len(), good.len());
    if refusal != 0 {
        return refusal;
    }
    good[0] = count_on_board(done.board, Event::Reply, items, frame);
    0
}

// On a fresh board: obeys the first command of the words, then a time-up on each of the crates in turn, with `frame` lent to each for the
// next frame. How many were served.
pub fn ftm_time_ups(words: &[u16], crates: &[u8], frame: &mut [u8], served: &mut [u64]) -> u8
    ensures { CountsTimeUps words.now crates.now frame.old served.old result frame.new served.new }
{
    let done = obey_series(words, 1);
    let refusal = lower_of(done.refusal, no_room(1, served.len()));
    if refusal != 0 {
        return refusal;
    }
    served[0] = count_on_board(done.board, Event::TimeUp, crates, frame);
    0
}

// On a fresh board: obeys the first command of the words, lets its pass run out on silent boards, begins a rate pass, then hands in the
// items as `ftm_replies` does. How many replies were good.
pub fn ftm_rate_pass(words: &[u16], items: &[u8], frame: &mut [u8], good: &mut [u64]) -> u8
    ensures { CountsRatePass words.now items.now frame.old good.old result frame.new good.new }
{
    let done = obey_series(words, 1);
    let refusal = pass_refusal(done.refusal, items.len(), good.len());
    if refusal != 0 {
        return refusal;
    }
    let begun = run_out(done.board).begin_rate_pass();
    good[0] = count_on_board(begun.board, Event::Reply, items, frame);
    0
}

// On a fresh board: obeys two commands of the words, then makes the clock steps, of so many ticks each. The timestamp after each, and
// then the on-time.
pub fn ftm_clock_steps(words: &[u16], ticks: &[u32], out: &mut [u64]) -> u8
    ensures { MakesSteps words.now ticks.now out.old result out.new }
{
    let done = obey_series(words, 2);
    let refusal = lower_of(done.refusal, no_room(ticks.len() + 1, out.len()));
    if refusal != 0 {
        return refusal;
    }
    let mut board = done.board;
    for (i, step) in ticks.iter().enumerate() {
        board = board.clock(*step);
        out[i] = board.run.timestamp;
    }
    out[ticks.len()] = board.run.on_time;
    0
}

// `count` triggers of n = 4, or as many as are not refused, whose packets go into the lent bytes one after another. How many were given.
fn given_triggers(first: Board, count: usize, out: &mut [u8]) -> u64
    requires { 7 * count ≤ length out.old }
    ensures { GivesPackets first.run count out.old result out.new }
{
    let fields = Fields {
        n: 4,
        external1: false,
        external2: false,
        tim_source: false,
        pulser_setting: 0,
        pedestal: false,
        lp2: false,
        lp1: false,
    };
    let mut board = first;
    for i in 0..count {
        let t = board.trigger(fields, &mut out[7 * i..]);
        match t.answer {
            Ok(_) => board = t.board,
            Err(_) => return i as u64,
        }
    }
    count as u64
}

// On a fresh board: obeys two commands of the words, then gives `count` triggers of n = 4, or as many as are not refused, whose packets go
// into the lent bytes one after another. How many were given.
pub fn ftm_triggers(words: &[u16], count: usize, packets: &mut [u8], number: &mut [u64]) -> u8
    ensures { GivesTriggers words.now count packets.old number.old result packets.new number.new }
{
    let done = obey_series(words, 2);
    let refusal = triggers_refusal(done.refusal, count, packets.len(), number.len());
    if refusal != 0 {
        return refusal;
    }
    number[0] = given_triggers(done.board, count, packets);
    0
}

// How many of the packets, seven bytes each, are good.
fn good_packets(bytes: &[u8]) -> u64
    ensures { result ≡ good_packets bytes.now }
{
    let n = bytes.len() / 7;
    let mut good = 0;
    for i in 0..n {
        good += count_given(&read_packet(&bytes[7 * i..7 * i + 7]));
    }
    good
}

// How many of the packets, seven bytes each, are good.
pub fn ftm_packets(bytes: &[u8], good: &mut [u64]) -> u8
    ensures { CountsPackets bytes.now good.old result good.new }
{
    let refusal = packets_refusal(bytes.len(), good.len());
    if refusal != 0 {
        return refusal;
    }
    good[0] = good_packets(bytes);
    0
}

// Writes the static block of a board of ID 0 with these words, and reads it back.
fn static_round(block: &[u16], out: &mut [u16]) -> Result<Header, Refusal>
    ensures { StaticRound block.now out.old (answer_number (answer_of result)) out.new }
{
    if block.len() != 436 {
        return Err(Refusal::WrongLength);
    }
    let mut stored = [0u16; 436];
    copy_words(block, &mut stored);
    let header = Header {
        board_id: 0,
        firmware_id: 0,
        trigger_counter: 0,
        timestamp: 0,
    };
    let n = write_static(header, stored, out)?;
    read_block(Kind::Static, &out[..n])
}

// The same: a refusal's number, 0 where it is written.
pub fn ftm_static(block: &[u16], out: &mut [u16]) -> u8
    ensures { StaticRound block.now out.old result out.new }
{
    number_given(&static_round(block, out))
}
