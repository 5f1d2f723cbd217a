// A step of a pass on the line: the frame that it sends, and the reply to it, judged.
#![tactic(auto)]

ghost use Rattle.std.specs.Prelude.{◌≡◌, []};
ghost use Rattle.refusals.specs.Writing.{Wrote};
ghost use Rattle.steps.specs.Steps.{code_numbered, step_frame, judged_reply, no_reply, judged_event};

use configuration::{board_words, settings_of};
use frames::{Code, frame, frame_before_crc};
use refusals::Refusal;
use replies::{carried, is_good, rates_in};

// What follows a frame: a reply, or none in time.
#[derive(Clone, Copy)]
pub enum Event {
    Reply,
    TimeUp,
}

// What a reply or a time-up says as the answer to a frame: whether it is good, and what a reply to a ping and one with rates carry. (No Option:
// `judged_reply` of the specs has what a bad reply carries too.)
#[derive(Clone, Copy)]
pub struct Judged {
    pub good: bool,
    pub dna: u64,
    pub crc_errors: u8,
    // The words of a board in a dynamic block.
    pub rates: [u16; 12],
}

// The code of a number; any other than 1 to 4 is that of rates, as `code_numbered` of the specs has it.
fn code_numbered(number: u8) -> Code
    ensures { result ≡ code_numbered number }
{
    if number == 1 {
        Code::Dacs
    } else if number == 2 {
        Code::Enables
    } else if number == 3 {
        Code::Prescaling
    } else if number == 4 {
        Code::Ping
    } else {
        Code::Rates
    }
}

// The frame that the step of a code's number sends to board b of crate c, with its settings in the block.
pub fn step_frame(block: &[u16], c: u8, b: u8, code: u8) -> [u8; 28]
    ensures { result ≡ step_frame block.now c b code }
{
    let settings = settings_of(board_words(block, c, b));
    frame(c, b, code_numbered(code), settings)
}

// Writes a frame to the front of lent bytes.
pub fn write_frame(f: [u8; 28], out: &mut [u8]) -> Result<usize, Refusal>
    ensures { Wrote [] f out.old result out.new }
{
    if out.len() < 28 {
        return Err(Refusal::OutputTooShort);
    }
    out[..28].copy_from_slice(&f);
    Ok(28)
}

// What a reply of any length says as the answer to the frame sent. (A part lent on, even the whole, is not copied on the way; a slice handed
// on is.)
fn judge(sent: [u8; 28], reply: &[u8]) -> Judged
    ensures { result ≡ judged_reply sent reply.now }
{
    let n = reply.len();
    let ping = carried(&reply[..n]);
    Judged {
        good: is_good(sent, reply),
        dna: ping.dna,
        crc_errors: ping.crc_errors,
        rates: rates_in(&reply[..n]),
    }
}

// What a reply of any length says as the answer to the frame of a step, whose CRC is not needed for it.
fn judge_reply(block: &[u16], c: u8, b: u8, code: u8, reply: &[u8]) -> Judged
    ensures { result ≡ judged_reply (step_frame block.now c b code) reply.now }
{
    let settings = settings_of(board_words(block, c, b));
    judge(frame_before_crc(c, b, code_numbered(code), settings), reply)
}

// What a time-up says.
fn no_reply() -> Judged
    ensures { result ≡ no_reply }
{
    Judged {
        good: false,
        dna: 0,
        crc_errors: 0,
        rates: [0; 12],
    }
}

// What an event says as the answer to the frame of a step: a reply by its bytes, a time-up whatever the bytes.
pub fn judge_event(block: &[u16], c: u8, b: u8, code: u8, event: Event, bytes: &[u8]) -> Judged
    ensures { result ≡ judged_event event (step_frame block.now c b code) bytes.now }
{
    match event {
        Event::Reply => judge_reply(block, c, b, code, bytes),
        Event::TimeUp => no_reply(),
    }
}
