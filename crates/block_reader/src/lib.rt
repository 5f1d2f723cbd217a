// The reader of blocks, for the far end: it is told the kind, gives the header, and hands back the body.
#![tactic(auto)]

ghost use Rattle.std.specs.Prelude.{◌≡◌, [], ◌∷◌, length, drop};
ghost use Rattle.refusals.specs.Tables.{lowest, answer_of};
ghost use Rattle.words.specs.Parts.{PartOf};
ghost use Rattle.bounds.specs.Bounds.{checked_meaning};
ghost use Rattle.block_reader.specs.Reading.{body_length, body_above, header_in, block_answer, body_where, ReadsBlock};

use blocks::Header;
use bounds::{Bounded, WordAboveBound, check_bounds};
use numbers::{ID_LIMIT, number32, number48, number64};
use refusals::Refusal;
use words::{part, word_at};

#[derive(Clone, Copy)]
pub enum Kind {
    Static,
    Dynamic,
    FtuList,
    Failure,
}

impl Kind {
    // The words of a body.
    pub fn body_length(self) -> usize
        ensures { result ≡ body_length self }
    {
        match self {
            Kind::Static => 436,
            Kind::Dynamic => 487,
            Kind::FtuList => 249,
            Kind::Failure => 29,
        }
    }
}

// Checks a body against its bounds. The measurements of a dynamic one stand after three words of on-time.
fn check_body(kind: Kind, body: &[u16]) -> Result<(), WordAboveBound>
    requires { length body.now ≡ body_length kind }
    ensures { checked_meaning result ≡ lowest (body_above kind body.now ∷ []) tt }
{
    match kind {
        Kind::Static => check_bounds(Bounded::Configuration, body),
        Kind::Dynamic => match check_bounds(Bounded::Measurements, &body[3..]) {
            Ok(()) => Ok(()),
            Err(e) => Err(WordAboveBound { place: 3 + e.place }),
        },
        Kind::FtuList => Ok(()),
        Kind::Failure => Ok(()),
    }
}

// The header that words begin with.
fn header_in(words: &[u16]) -> Header
    ensures { result ≡ header_in words.now }
{
    Header {
        board_id: number64(
            word_at(words, 0),
            word_at(words, 1),
            word_at(words, 2),
            word_at(words, 3),
        ),
        firmware_id: word_at(words, 4),
        trigger_counter: number32(word_at(words, 5), word_at(words, 6)),
        timestamp: number48(word_at(words, 7), word_at(words, 8), word_at(words, 9)),
    }
}

// Reads a block of a kind.
pub fn read_block(kind: Kind, words: &[u16]) -> Result<Header, Refusal>
    ensures { answer_of result ≡ block_answer kind words.now }
{
    let length = kind.body_length();
    if words.len() != 11 + length {
        return Err(Refusal::WrongLength);
    }
    check_body(kind, &words[11..])?;
    let header = header_in(words);
    if ID_LIMIT <= header.board_id {
        return Err(Refusal::WrongHeader);
    }
    if words[10] != 0 {
        return Err(Refusal::WrongHeader);
    }
    Ok(header)
}

// The body of a block that got the answer, as the part of the words after the header; no words where it is refused.
pub fn body_after(answer: Result<Header, Refusal>, words: &[u16]) -> &[u16]
    ensures { PartOf words.entry 11 (body_where (answer_of answer) (drop 11 words.now)) result }
{
    match answer {
        Ok(_) => part(words, 11, words.len()),
        Err(_) => part(words, 11, 11),
    }
}

// A block that is read: the answer, and the body as a part of the caller's words.
#[derive(Clone, Copy)]
pub struct ReadBlock<'a> {
    pub answer: Result<Header, Refusal>,
    // No words where the block is refused.
    pub body: &'a [u16],
}

// Reads a block of a kind, and hands back its body.
pub fn read<'a>(kind: Kind, words: &'a [u16]) -> ReadBlock<'a>
    ensures { ReadsBlock kind words.entry result }
{
    let answer = read_block(kind, words);
    let body = body_after(answer, words);
    ReadBlock { answer, body }
}
