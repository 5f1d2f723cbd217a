// 01's examples of passes, streams that get every answer a stream can get, replies, time-ups and fetches with 0, 27, 28 and 40 bytes lent (02, d), and
// rate passes (02, i), worked by the code: each line names the example, and gives what the board answered.
#![tactic(auto)]

ghost use Rattle.std.specs.Prelude.{◌<◌, ◌≤◌, length};

use board::{Board, ReplyResult, power_up};
use crate_pass::Outcome;
use crc::{FRAME_START, crc8};
use four_crates::in_pass;
use refusals::number_given;
use std::io;
use steps::Event;
use stream::{list_answers, run_out};
use words::bytes_from_words;

// A write of zeros with one word at a place.
fn write_with(place: usize, word: u16) -> [u16; 441]
    requires { place < 436 }
{
    let mut words = [0; 441];
    words[..3].copy_from_slice(&[0x0040, 0x02, 1]);
    words[5 + place] = word;
    words
}

// A frame with the addresses exchanged and its CRC: what a board answers.
fn exchanged(mut frame: [u8; 28]) -> [u8; 28] {
    frame.swap(1, 2);
    frame[27] = crc8(FRAME_START, &frame[..27]);
    frame
}

// A board, and the frame that was last handed out on its crate 0.
#[derive(Clone, Copy)]
struct Line {
    board: Board,
    frame: [u8; 28],
}

// A fresh board that was sent words, and its first frame, where there is one.
fn sent(words: &[u16]) -> Line {
    let board = power_up(1, 1).board.obey(words).board;
    let mut frame = [0; 28];
    let _ = board.first_frame(0, &mut frame);
    Line { board, frame }
}

// The same after a write with crate 0's active flags.
fn written(flags: u16) -> Line {
    sent(&write_with(0x1B0, flags))
}

impl Line {
    // A good reply to the frame that was handed out, or a time-up.
    fn after(mut self, event: Event) -> Line {
        let reply = exchanged(self.frame);
        self.board = self.board.hand_in(0, event, &reply, &mut self.frame).board;
        self
    }

    fn time_up(self) -> Line {
        self.after(Event::TimeUp)
    }

    fn third_try(self) -> Line {
        self.time_up().time_up().after(Event::Reply)
    }
}

// A word where it holds.
fn word_if(holds: bool, word: &'static str) -> &'static str {
    if holds { word } else { "" }
}

// How many frames were sent on crate 0, and whether the board is idle, running, or in a pass.
#[tactic(auto, unfolding(refusals::specs::Tables::answer_of, four_crates::specs::FourCrates::sent_on))]
fn tell_board(rt: &impl Print, board: Board) -> io::Result<()> {
    let count = board.frames_sent(0).unwrap();
    let idle = word_if(board.is_idle(), ", idle");
    let running = word_if(board.run.is_running(), ", running");
    let pass = word_if(in_pass(board.crates), ", in a pass");
    println!(rt; "{count} frames{idle}{running}{pass}")
}

fn tell(rt: &impl Print, name: &str, line: Line) -> io::Result<()> {
    print!(rt; "{name}: ")?;
    tell_board(rt, line.board)
}

// ---- 02, d: lent bytes

// Bytes in hexadecimal, a line.
fn hexadecimal(rt: &impl Print, name: &str, bytes: &[u8]) -> io::Result<()> {
    print!(rt; "{name}")?;
    for byte in bytes {
        print!(rt; "{byte:02x}")?;
    }
    println!(rt)
}

// The begin of a line, and the bytes before the call.
fn tell_lent(rt: &impl Print, name: &str, bytes: &[u8]) -> io::Result<()> {
    println!(rt; "{name}, {} bytes lent", bytes.len())?;
    hexadecimal(rt, "  before ", bytes)?;
    print!(rt; "  ")
}

// An outcome's word, and whether the crate is then done.
fn outcome_word(outcome: Outcome) -> (&'static str, bool) {
    match outcome {
        Outcome::Good(done) => ("good", done),
        Outcome::Again(done) => ("again", done),
        Outcome::BoardFailed(done) => ("failed", done),
    }
}

// What a reply or a time-up got, and the board after it.
fn tell_reply(rt: &impl Print, answered: ReplyResult) -> io::Result<()> {
    match answered.answer {
        Ok(outcome) => {
            let (word, done) = outcome_word(outcome);
            print!(rt; "{word}{}, ", word_if(done, " done"))?;
        }
        Err(refusal) => print!(rt; "{}, ", refusal.number())?,
    }
    tell_board(rt, answered.board)
}

// A good reply or a time-up on crate 0, with so many bytes lent.
fn lend(rt: &impl Print, name: &str, line: Line, event: Event, count: usize) -> io::Result<()>
    requires { count ≤ 40 }
{
    let mut room = [0xA5; 40];
    let bytes = &mut room[..count];
    tell_lent(rt, name, bytes)?;
    let answered = line.board.hand_in(0, event, &exchanged(line.frame), bytes);
    tell_reply(rt, answered)?;
    hexadecimal(rt, "  after  ", bytes)
}

// The first frame of crate 0, with so many bytes lent.
fn fetch(rt: &impl Print, name: &str, line: Line, count: usize) -> io::Result<()>
    requires { count ≤ 40 }
{
    let mut room = [0xA5; 40];
    let bytes = &mut room[..count];
    tell_lent(rt, name, bytes)?;
    match line.board.first_frame(0, bytes) {
        Ok(n) => print!(rt; "{n}, ")?,
        Err(refusal) => print!(rt; "{}, ", refusal.number())?,
    }
    tell_board(rt, line.board)?;
    hexadecimal(rt, "  after  ", bytes)
}

// A frame is due.
fn lend_due(rt: &impl Print) -> io::Result<()> {
    for count in [0, 27, 28, 40] {
        lend(
            rt,
            "A good reply, a frame due",
            written(1),
            Event::Reply,
            count,
        )?;
    }
    Ok(())
}

// The crate is then done.
fn lend_done(rt: &impl Print) -> io::Result<()> {
    let line = written(1).time_up().time_up();
    for count in [0, 27, 28, 40] {
        lend(
            rt,
            "A time-up, the crate then done",
            line,
            Event::TimeUp,
            count,
        )?;
    }
    Ok(())
}

// Nothing is outstanding.
fn lend_none(rt: &impl Print) -> io::Result<()> {
    for count in [27, 28] {
        lend(
            rt,
            "A time-up, nothing outstanding",
            written(0),
            Event::TimeUp,
            count,
        )?;
    }
    Ok(())
}

fn fetch_first(rt: &impl Print) -> io::Result<()> {
    for count in [0, 27, 28, 40] {
        fetch(rt, "The first frame", written(1), count)?;
    }
    Ok(())
}

// It is refused after a counted time-up.
fn fetch_late(rt: &impl Print) -> io::Result<()> {
    for count in [27, 28] {
        fetch(rt, "After a counted time-up", written(1).time_up(), count)?;
    }
    Ok(())
}

// ---- 02, i: rate passes

// A board with crate 0's active flags that runs: the pass of its write has run out.
fn running(flags: u16) -> Board {
    run_out(written(flags).board)
        .obey(&[0x0040, 0x04, 1, 0, 0])
        .board
}

// A rate pass begins, or not: 0 where it does.
fn begin(rt: &impl Print, name: &str, board: Board) -> io::Result<Board> {
    let begun = board.begin_rate_pass();
    print!(rt; "{name}: {}, ", number_given(&begun.answer))?;
    tell_board(rt, begun.board)?;
    Ok(begun.board)
}

// A reply with rates to a frame of crate 0: counts of 0x01020304, 0x3FFFFFFF, 0, 65536 and 10, overflow 0xAB, CRC errors 0xCD.
fn rates(mut frame: [u8; 28]) -> [u8; 28] {
    frame[5..27].copy_from_slice(&[
        1, 2, 3, 4, 63, 255, 255, 255, 0, 0, 0, 0, 0, 1, 0, 0, 0, 0, 0, 10, 0xAB, 0xCD,
    ]);
    exchanged(frame)
}

// The first frame of crate 0, and a good reply to it.
fn serve(rt: &impl Print, board: Board) -> io::Result<Board> {
    let mut frame = [0; 28];
    let _ = board.first_frame(0, &mut frame);
    hexadecimal(rt, "The first frame: ", &frame)?;
    let reply = rates(frame);
    hexadecimal(rt, "Its reply: ", &reply)?;
    print!(rt; "The reply is ")?;
    let answered = board.hand_in(0, Event::Reply, &reply, &mut frame);
    tell_reply(rt, answered)?;
    Ok(answered.board)
}

// The dynamic block with temperatures 1 to 4: in hexadecimal its on-time, the temperatures and the first board's words; how many others of the body are
// not zero.
fn dynamic(rt: &impl Print, name: &str, board: Board) -> io::Result<()> {
    let mut block = [0; 498];
    let _ = board.dynamic_block(&[1, 2, 3, 4], &mut block);
    print!(rt; "{name}: ")?;
    for word in &block[11..30] {
        print!(rt; "{word:04x}")?;
    }
    let others = block[30..].iter().filter(|word| **word != 0).count();
    println!(rt; "\n  other words not zero: {others}")
}

// One begins while the board runs; another has no active board.
fn rate_passes(rt: &impl Print) -> io::Result<()> {
    let board = begin(rt, "A rate pass while running", running(1))?;
    let same = begin(rt, "Another during it", board)?;
    dynamic(rt, "The dynamic block during it", same)?;
    let done = serve(rt, same)?;
    dynamic(rt, "The dynamic block after it", done)?;
    begin(rt, "A rate pass after it", done)?;
    begin(rt, "A rate pass with no active board", running(0))?;
    Ok(())
}

// ---- streams

// The answers of the listing to words, three at most.
fn stream(rt: &impl Print, name: &str, words: &[u16]) -> io::Result<()>
    requires { length words.now ≤ 1024 }
{
    let mut bytes = [0; 2048];
    let _ = bytes_from_words(words, &mut bytes);
    let listing = list_answers(&bytes[..2 * words.len()]);
    print!(rt; "{name}:")?;
    for answer in listing.answers.iter().take(listing.count.min(3)) {
        print!(rt; " {answer}")?;
    }
    println!(rt)
}

// A write, a start, and three words more: fresh is what the start needs, and the pass that the write begins has run out before it.
fn write_and_start(rt: &impl Print) -> io::Result<()> {
    let mut words = [0; 449];
    words[..441].copy_from_slice(&write_with(0x1B2, 0x0005));
    words[441] = 0x0040;
    words[442] = 0x04;
    words[443] = 1;
    words[446] = 0x0040;
    stream(rt, "A write, a start, three words", &words)
}

// The examples of passes.
fn passes(rt: &impl Print) -> io::Result<()> {
    tell(
        rt,
        "One active board that never answers",
        written(1).time_up().time_up().time_up(),
    )?;
    tell(rt, "The same after two", written(1).time_up().time_up())?;
    tell(
        rt,
        "Each step good at the third try",
        written(1).third_try().third_try().third_try(),
    )?;
    tell(rt, "No active board", written(0))?;
    tell(rt, "A ping", sent(&[0x0040, 0x10, 0, 0, 0]))
}

// The streams.
fn streams(rt: &impl Print) -> io::Result<()> {
    stream(
        rt,
        "A read, a ping, a crate reset",
        &[
            0x0040, 0x01, 2, 0, 0, 0x0040, 0x10, 0, 0, 0, 0x0040, 0x20, 8, 0, 0,
        ],
    )?;
    write_and_start(rt)?;
    stream(rt, "Four words", &[0x0040, 0x01, 1, 0])?;
    stream(rt, "Five, first 0x0041", &[0x0041, 0x01, 1, 0, 0])?;
    stream(rt, "Command 3", &[0x0040, 0x03, 1, 0, 0])?;
    stream(rt, "Reset with 3", &[0x0040, 0x20, 3, 0, 0])?;
    stream(rt, "Word 4 not zero", &[0x0040, 0x01, 1, 0, 1])?;
    stream(rt, "X of one word", &[0x0040, 0x04, 2, 0, 0, 0x0001])?;
    stream(rt, "X = 0", &[0x0040, 0x04, 2, 0, 0, 0, 0])?;
    stream(rt, "0x002 at 1024", &write_with(0x002, 1024))?;
    stream(
        rt,
        "A stop, then a start",
        &[0x0040, 0x08, 0, 0, 0, 0x0040, 0x04, 1, 0, 0],
    )
}

fn main(rt: HostRuntime) -> io::Result<()> {
    passes(&rt)?;
    streams(&rt)?;
    lend_due(&rt)?;
    lend_done(&rt)?;
    lend_none(&rt)?;
    fetch_first(&rt)?;
    fetch_late(&rt)?;
    rate_passes(&rt)
}
