// A stream of commands, obeyed on a fresh board whose FTUs are always silent: what the listing decides.
#![tactic(auto)]

ghost use Rattle.std.specs.Prelude.{◌≡◌, ◌≤◌, length, replicate};
ghost use Rattle.words.specs.Words.{words_in};
ghost use Rattle.stream.specs.Stream.{time_ups, ran_out, stops, listing_from, answers_on, listed, input_bytes};

use board::{Board, power_up};
use command_reader::rest_after;
use refusals::number_given;
use steps::Event;
use words::words_from_bytes;

// The answers to the commands of a stream, in their order.
#[derive(Clone, Copy)]
pub struct Listing {
    // The ordinal of the first.
    pub first: usize,
    pub count: usize,
    // As many as there are, then zeros: 65,536 bytes have at most 6,553 commands, and what is left of them gets one answer. (Memory is fixed, and
    // the numbers are those that the listing prints.)
    pub answers: [u8; 6554],
}

// Thirty time-ups on a crate, which need no bytes of a reply; their frames go to no board.
fn run_out_on(board: Board, c: u8) -> Board
    ensures { result ≡ time_ups 30 c board }
{
    let mut b = board;
    for _i in 0..30u8 {
        let mut frame = [0u8; 28];
        let r = b.hand_in(c, Event::TimeUp, &[0u8; 28], &mut frame);
        b = r.board;
    }
    b
}

// The board once a pass with silent FTUs has run out.
pub fn run_out(board: Board) -> Board
    ensures { result ≡ ran_out board }
{
    let a = run_out_on(board, 0);
    let b = run_out_on(a, 1);
    let c = run_out_on(b, 2);
    run_out_on(c, 3)
}

// Whether the listing stops after an answer.
fn is_last(number: u8) -> bool
    ensures { result ≡ stops number }
{
    if number == 0 {
        return false;
    }
    number < 9
}

// The answers to the commands in bytes, whose words are given.
fn answers_on(bytes: &[u8], words: &[u16]) -> Listing
    requires { (words.now ≡ words_in bytes.now) × (length bytes.now ≤ 65536) }
    ensures { result ≡ listing_from 1 (answers_on bytes.now) }
{
    let up = power_up(0, 0);
    let mut board = up.board;
    let mut answers = [0u8; 6554];
    let mut count = 0;
    let mut rest = words;
    // An odd byte at the end is no word, and where it alone is left there is still an answer.
    let odd = bytes.len() % 2;
    while 0 < rest.len() + odd {
        let done = board.obey(rest);
        let answer = done.answer;
        let number = number_given(&answer);
        answers[count] = number;
        count += 1;
        if is_last(number) {
            return Listing {
                first: 1,
                count,
                answers,
            };
        }
        let after = rest_after(rest, done.used);
        rest = after;
        board = run_out(done.board);
    }
    Listing {
        first: 1,
        count,
        answers,
    }
}

// The listing of bytes: longer input than 65,536 bytes has the one line of ordinal 0.
pub fn list_answers(bytes: &[u8]) -> Listing
    ensures { result ≡ listed bytes.now }
{
    if 65536 < bytes.len() {
        let mut answers = [0u8; 6554];
        answers[0] = 6;
        return Listing {
            first: 0,
            count: 1,
            answers,
        };
    }
    let mut words = [0u16; 32768];
    let _ = words_from_bytes(bytes, &mut words);
    let count = bytes.len() / 2;
    answers_on(bytes, &words[..count])
}

// The bytes that a program reads its input into before it lists it: one more than the listing takes, so that longer input shows.
pub fn input_buffer() -> [u8; 65537]
    ensures { result ≡ replicate input_bytes 0 }
{
    [0; 65537]
}
