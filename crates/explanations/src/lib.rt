// Why the first command of a stream's words is accepted or refused (02, c): what the operator is told.
#![tactic(auto)]

ghost use Rattle.std.specs.Prelude.{◌≡◌, ◌-◌, get_or, replicate};
ghost use Rattle.refusals.specs.Tables.{refusal_meaning};
ghost use Rattle.commands.specs.Commands.{block_length, parameters_of};
ghost use Rattle.command_reader.specs.Reading.{command_in};
ghost use Rattle.explanations.specs.Explaining.{activity_of, status_in, spare_at, word_at, explained_by, explained, Explains};
ghost use Rattle.explanations.specs.CodeShape.{Lists};

use acceptance::{Status, decide};
use bounds::bound_of;
use commands::listed_as;
use crate_pass::PassKind;
use refusals::Refusal;
use run::Freshness;
use words::{part, word_at};

// What a board does: nothing, a run, a pass, or both.
#[derive(Clone, Copy)]
pub enum Activity {
    Idle,
    Running,
    InPass(PassKind),
    RunningInPass(PassKind),
}

// What a board's state is to an explanation.
#[derive(Clone, Copy)]
pub struct Present {
    pub activity: Activity,
    pub freshness: Freshness,
}

// All that is allowed at a place.
#[derive(Clone, Copy)]
pub enum Allowed {
    // So many of the numbers listed beside the reason.
    Numbers(usize),
    // All numbers from the first to the second.
    Range(u16, u16),
}

// The lowest word at fault, what stands there, and what is allowed.
#[derive(Clone, Copy)]
pub struct WordAtFault {
    pub place: usize,
    pub stands: u16,
    pub allowed: Allowed,
}

// Why a command gets its answer: a case for each number from 0 to 10, in their order.
#[derive(Clone, Copy)]
pub enum Reason {
    Accepted,
    // How many words are missing up to five.
    TooFewWords(usize),
    WrongFirstWord(WordAtFault),
    UnknownCommand(WordAtFault),
    UnlistedParameter(WordAtFault),
    SpareWordNotZero(WordAtFault),
    // How many words of the block, or of X, are missing.
    WrongLength(usize),
    NoEvents(WordAtFault),
    // The place is counted in the block.
    AboveBound(WordAtFault),
    NotAcceptedNow(Activity),
    NotFresh(Freshness),
}

#[derive(Clone, Copy)]
pub struct Explanation {
    pub reason: Reason,
    // Where the reason lists numbers, these, and zeros after them: `Explains` says what all eight places hold.
    pub listed: [u16; 8],
}

// A list of numbers with zeros after them, and how many they are, as an explanation has them.
#[derive(Clone, Copy)]
struct NumberList {
    count: usize,
    listed: [u16; 8],
}

// What a board does that runs or not, with a pass under way or not, which is then of that kind.
pub fn activity_of(running: bool, pass: bool, kind: PassKind) -> Activity
    ensures { result ≡ activity_of running pass kind }
{
    if running {
        if pass {
            Activity::RunningInPass(kind)
        } else {
            Activity::Running
        }
    } else {
        if pass {
            Activity::InPass(kind)
        } else {
            Activity::Idle
        }
    }
}

// What a command is decided by.
fn status_in(p: Present) -> Status
    ensures { result ≡ status_in p }
{
    let activity = p.activity;
    let freshness = p.freshness;
    let fresh = freshness.is_fresh();
    match activity {
        Activity::Idle => Status {
            idle: true,
            running: false,
            fresh,
        },
        Activity::Running => Status {
            idle: false,
            running: true,
            fresh,
        },
        Activity::InPass(_) => Status {
            idle: false,
            running: false,
            fresh,
        },
        Activity::RunningInPass(_) => Status {
            idle: false,
            running: true,
            fresh,
        },
    }
}

// How many are missing of those that are due.
fn missing(due: usize, there: usize) -> usize
    ensures { result ≡ due - there }
{
    if there < due { due - there } else { 0 }
}

// The words that the block of the command takes.
fn block_due(words: &[u16]) -> usize
    ensures { result ≡ block_length (command_in words.now) }
{
    let found = listed_as(word_at(words, 1), word_at(words, 2), 0);
    match found {
        Ok(c) => c.block_length(),
        Err(_) => 0,
    }
}

// The parameters of an ID; none where it has none.
fn parameters_of(id: u16) -> NumberList
    ensures { Lists (parameters_of id) result }
{
    match id {
        0x01 => NumberList {
            count: 2,
            listed: [1, 2, 0, 0, 0, 0, 0, 0],
        },
        0x02 => NumberList {
            count: 1,
            listed: [1, 0, 0, 0, 0, 0, 0, 0],
        },
        0x04 => NumberList {
            count: 2,
            listed: [1, 2, 0, 0, 0, 0, 0, 0],
        },
        0x08 => NumberList {
            count: 1,
            listed: [0, 0, 0, 0, 0, 0, 0, 0],
        },
        0x10 => NumberList {
            count: 1,
            listed: [0, 0, 0, 0, 0, 0, 0, 0],
        },
        0x20 => NumberList {
            count: 4,
            listed: [1, 2, 4, 8, 0, 0, 0, 0],
        },
        _ => NumberList {
            count: 0,
            listed: [0, 0, 0, 0, 0, 0, 0, 0],
        },
    }
}

// The word at a place, and what is allowed there.
fn word_at_fault(words: &[u16], place: usize, allowed: Allowed) -> WordAtFault
    ensures { result ≡ record { place = place; stands = get_or words.now place 0; allowed = allowed } }
{
    WordAtFault {
        place,
        stands: word_at(words, place),
        allowed,
    }
}

// A reason that lists no numbers.
fn unlisted(reason: Reason) -> Explanation
    ensures { result ≡ record { reason = reason; listed = replicate 8 0 } }
{
    Explanation {
        reason,
        listed: [0; 8],
    }
}

fn wrong_first_word(words: &[u16]) -> Explanation
    ensures { Explains (word_at 2 words.now 0) result }
{
    Explanation {
        reason: Reason::WrongFirstWord(word_at_fault(words, 0, Allowed::Numbers(1))),
        listed: [0x0040, 0, 0, 0, 0, 0, 0, 0],
    }
}

fn unknown_command(words: &[u16]) -> Explanation
    ensures { Explains (word_at 3 words.now 1) result }
{
    Explanation {
        reason: Reason::UnknownCommand(word_at_fault(words, 1, Allowed::Numbers(6))),
        listed: [0x01, 0x02, 0x04, 0x08, 0x10, 0x20, 0, 0],
    }
}

fn unlisted_parameter(words: &[u16]) -> Explanation
    ensures { Explains (word_at 4 words.now 2) result }
{
    let parameters = parameters_of(word_at(words, 1));
    let listed = parameters.listed;
    Explanation {
        reason: Reason::UnlistedParameter(word_at_fault(
            words,
            2,
            Allowed::Numbers(parameters.count),
        )),
        listed,
    }
}

// The lowest of word 3 and word 4 that is not zero.
fn spare_at(words: &[u16]) -> usize
    ensures { result ≡ spare_at words.now }
{
    if word_at(words, 3) == 0 { 4 } else { 3 }
}

fn spare_word_not_zero(words: &[u16]) -> Explanation
    ensures { Explains (word_at 5 words.now (spare_at words.now)) result }
{
    Explanation {
        reason: Reason::SpareWordNotZero(word_at_fault(
            words,
            spare_at(words),
            Allowed::Numbers(1),
        )),
        listed: [0, 0, 0, 0, 0, 0, 0, 0],
    }
}

fn no_events(words: &[u16]) -> Explanation
    ensures { Explains (word_at 7 words.now 5) result }
{
    unlisted(Reason::NoEvents(word_at_fault(words, 5, Allowed::Range(0x0001, 0xFFFF))))
}

fn above_bound(words: &[u16], place: usize) -> Explanation
    ensures { Explains (word_at 8 words.now place) result }
{
    let block = part(words, 5, words.len());
    unlisted(Reason::AboveBound(word_at_fault(block, place, Allowed::Range(0, bound_of(place)))))
}

// Why the words or the state refuse a command. (No command gets a refusal after 10.)
fn refused_because(words: &[u16], p: Present, refusal: Refusal) -> Explanation
    ensures { Explains (explained_by words.now p (refusal_meaning refusal)) result }
{
    let activity = p.activity;
    let freshness = p.freshness;
    match refusal {
        Refusal::TooFewWords => unlisted(Reason::TooFewWords(missing(5, words.len()))),
        Refusal::WrongFirstWord => wrong_first_word(words),
        Refusal::UnknownCommand => unknown_command(words),
        Refusal::UnlistedParameter => unlisted_parameter(words),
        Refusal::SpareWordNotZero => spare_word_not_zero(words),
        Refusal::WrongLength => {
            let due = 5 + block_due(words);
            unlisted(Reason::WrongLength(missing(due, words.len())))
        }
        Refusal::NoEvents => no_events(words),
        Refusal::AboveBound(place) => above_bound(words, place),
        Refusal::NotAcceptedNow => unlisted(Reason::NotAcceptedNow(activity)),
        Refusal::NotFresh => unlisted(Reason::NotFresh(freshness)),
        _ => unlisted(Reason::Accepted),
    }
}

// Why the first command of the words is accepted or refused.
pub fn explain(words: &[u16], p: Present) -> Explanation
    ensures { Explains (explained words.now p) result }
{
    let decision = decide(words, status_in(p));
    let answer = decision.answer;
    match answer {
        Ok(_) => unlisted(Reason::Accepted),
        Err(refusal) => refused_because(words, p, refusal),
    }
}
