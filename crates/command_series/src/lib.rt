// Commands obeyed one after another, on a fresh board.
#![tactic(auto)]

ghost use Rattle.std.specs.Prelude.{◌≡◌};
ghost use Rattle.command_series.specs.Series.{first_of, ObeysAll};

use board::{Board, power_up};
use command_reader::rest_after;
use refusals::{count_given, number_given};

// The first of two refusals' numbers, of which 0 is none, as the exported functions hand them to C.
fn first_of(a: u8, b: u8) -> u8
    ensures { result ≡ first_of a b }
{
    if a == 0 { b } else { a }
}

// A board after commands, how many of them were accepted, and the number of the first that was refused, 0 where none was.
#[derive(Clone, Copy)]
pub struct AfterCommands {
    pub board: Board,
    pub accepted: u64,
    pub refusal: u8,
}

// A fresh board obeys `count` commands of the words, one after another.
pub fn obey_series(words: &[u16], count: u64) -> AfterCommands
    ensures { ObeysAll count words.now result }
{
    let mut board = power_up(0, 0).board;
    let mut accepted = 0;
    let mut refusal = 0;
    let mut rest = words;
    for _i in 0..count {
        let done = board.obey(rest);
        rest = rest_after(rest, done.used);
        accepted += count_given(&done.answer);
        refusal = first_of(refusal, number_given(&done.answer));
        board = done.board;
    }
    AfterCommands {
        board,
        accepted,
        refusal,
    }
}
