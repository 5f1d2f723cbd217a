// The reader of commands: the first command of a stream's words, its block, and the words that remain.
#![tactic(auto)]

ghost use Rattle.std.specs.Prelude.{◌≡◌};
ghost use Rattle.refusals.specs.Tables.{given, answer_of};
ghost use Rattle.words.specs.Parts.{PartOf};
ghost use Rattle.command_reader.specs.Reading.{spare_set, count_in, command_answer, used_of, block_before, rest_after, ReadsCommand};
ghost use Rattle.command_reader.specs.CodeShape.{FirstWordsRead};

use bounds::{Bounded, check_bounds};
use commands::{Command, listed_as};
use numbers::number32;
use refusals::Refusal;
use words::{part, word_at};

// A command that is read, with the words that it takes.
#[derive(Clone, Copy)]
pub struct Taken {
    pub command: Command,
    pub used: usize,
}

// The X of a counted start.
fn count_in(words: &[u16]) -> u32
    ensures { result ≡ count_in words.now }
{
    number32(word_at(words, 5), word_at(words, 6))
}

// Whether the word 3 or 4 is not zero.
fn spare_set(words: &[u16]) -> bool
    ensures { result ≡ spare_set words.now }
{
    if word_at(words, 3) != 0 {
        return true;
    }
    word_at(words, 4) != 0
}

// Reads the rest of the command c, which the first three words name.
fn read_listed(words: &[u16], c: Command) -> Result<Taken, Refusal>
    requires { FirstWordsRead words.now (given c) }
    ensures { answer_of result ≡ command_answer words.now }
{
    if spare_set(words) {
        return Err(Refusal::SpareWordNotZero);
    }
    let used = 5 + c.block_length();
    if words.len() < used {
        return Err(Refusal::WrongLength);
    }
    if c.no_events() {
        return Err(Refusal::NoEvents);
    }
    if c.is_write() {
        check_bounds(Bounded::Configuration, &words[5..441])?;
    }
    Ok(Taken { command: c, used })
}

// Reads the command that the words begin with.
pub fn read_command(words: &[u16]) -> Result<Taken, Refusal>
    ensures { answer_of result ≡ command_answer words.now }
{
    if words.len() < 5 {
        return Err(Refusal::TooFewWords);
    }
    if words[0] != 0x0040 {
        return Err(Refusal::WrongFirstWord);
    }
    read_listed(words, listed_as(words[1], words[2], count_in(words))?)
}

// The words that a command used: none where it is refused.
pub fn words_used(answer: Result<Taken, Refusal>) -> usize
    ensures { result ≡ used_of (answer_of answer) }
{
    match answer {
        Ok(taken) => taken.used,
        Err(_) => 0,
    }
}

// The block of a command that used so many of the words, as a part of them.
pub fn block_before(words: &[u16], used: usize) -> &[u16]
    ensures { PartOf words.entry 5 (block_before used words.now) result }
{
    part(words, 5, used)
}

// The words that remain after a command that used so many of them, as a part of them.
pub fn rest_after(words: &[u16], used: usize) -> &[u16]
    ensures { PartOf words.entry used (rest_after used words.now) result }
{
    part(words, used, words.len())
}

// A command that is read: the answer, and its block and the words that remain as parts of the caller's words.
#[derive(Clone, Copy)]
pub struct ReadCommand<'a> {
    pub answer: Result<Taken, Refusal>,
    // No words where the command has no block or is refused.
    pub block: &'a [u16],
    // All words where it is refused.
    pub rest: &'a [u16],
}

// Reads the command that the words begin with, and hands back its block and the words that remain.
pub fn read<'a>(words: &'a [u16]) -> ReadCommand<'a>
    ensures { ReadsCommand words.entry result }
{
    let answer = read_command(words);
    let used = words_used(answer);
    let block = block_before(words, used);
    let rest = rest_after(words, used);
    ReadCommand {
        answer,
        block,
        rest,
    }
}
