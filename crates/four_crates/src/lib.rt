// The four crates: a pass begun on all of them, whether one is under way, the first frames, the entries of the FTU list, the rates, and the failure
// records.
#![tactic(auto)]

ghost use Rattle.std.specs.Prelude.{◌≡◌, ◌<◌, get_or};
ghost use Rattle.crate_pass.specs.Crate.{entries_in, silent};
ghost use Rattle.four_crates.specs.FourCrates.{in_pass, begun_all, first_answer};
ghost use Rattle.four_crates.specs.FourCrates.{sent_on, entries_of, rates_of, failed_at, record_answer};
ghost use Rattle.four_crates.specs.CodeShape.{PutCrate};
ghost use Rattle.refusals.specs.Tables.{answer_of};

use crate_pass::{Crate, PassKind};
use ftu_list::Entry;
use refusals::Refusal;
use words::copy_words;

// A board k that failed, with the number of the code of the step that did.
#[derive(Clone, Copy)]
pub struct Failure {
    pub k: u8,
    pub code: u8,
}

// Whether a frame is outstanding on some crate. (Here and below the four stand at constant places: with a variable one the crates are copied;
// docs/DECISIONS.md, "What a call on the whole board costs".)
pub fn in_pass(crates: [Crate; 4]) -> bool
    ensures { result ≡ in_pass crates }
{
    let a = crates[0];
    if a.board < 10 {
        return true;
    }
    let b = crates[1];
    if b.board < 10 {
        return true;
    }
    let c = crates[2];
    if c.board < 10 {
        return true;
    }
    let d = crates[3];
    d.board < 10
}

// A pass begins on all four, each with its word of active flags.
pub fn begin_all(crates: [Crate; 4], kind: PassKind, words: [u16; 4]) -> [Crate; 4]
    ensures { result ≡ begun_all kind words crates }
{
    let a = crates[0];
    let b = crates[1];
    let c = crates[2];
    let d = crates[3];
    [
        a.begin(kind, words[0]),
        b.begin(kind, words[1]),
        c.begin(kind, words[2]),
        d.begin(kind, words[3]),
    ]
}

// The first frame of the pass on a crate, until a reply or a time-up on it is counted: the number of frames tells.
pub fn first_on(crates: [Crate; 4], index: u8) -> Result<(u8, u8), Refusal>
    ensures { answer_of result ≡ first_answer crates index }
{
    if 3 < index {
        return Err(Refusal::NoSuchCrate);
    }
    let own = crates[index as usize];
    if own.is_done() {
        return Err(Refusal::NothingOutstanding);
    }
    if 1 < own.sent {
        return Err(Refusal::NothingOutstanding);
    }
    Ok((own.board, own.code))
}

// The number of frames sent on a crate.
pub fn sent_on(crates: [Crate; 4], index: u8) -> Result<u16, Refusal>
    ensures { answer_of result ≡ sent_on crates index }
{
    if 3 < index {
        return Err(Refusal::NoSuchCrate);
    }
    let own = crates[index as usize];
    Ok(own.sent)
}

// A board's entry of the FTU list, from what its crate keeps.
fn entry_of(own: Crate, board: usize) -> Entry
    requires { board < 10 }
    ensures { result ≡ get_or (entries_in own) board silent }
{
    let dna = own.dna;
    let calls = own.calls;
    let crc_errors = own.crc_errors;
    Entry {
        dna: dna[board],
        calls: calls[board],
        crc_errors: crc_errors[board],
    }
}

// The entries of the FTU list, board b of crate c at 10c + b.
pub fn entries_of(crates: [Crate; 4]) -> [Entry; 40]
    ensures { result ≡ entries_of crates }
{
    let silent = Entry {
        dna: 0,
        calls: 0,
        crc_errors: 0,
    };
    let mut entries = [silent; 40];
    for k in 0..40 {
        let own = crates[k / 10];
        entries[k] = entry_of(own, k % 10);
    }
    entries
}

// The words of the boards with those of a crate put in their place.
fn put_crate(c: usize, all: [u16; 480], words: [u16; 120]) -> [u16; 480]
    requires { c < 4 }
    ensures { PutCrate c all words result }
{
    let mut next = all;
    let at = 120 * c;
    copy_words(&words, &mut next[at..]);
    next
}

// The rates of the boards, twelve words for each.
pub fn rates_of(crates: [Crate; 4]) -> [u16; 480]
    ensures { result ≡ rates_of crates }
{
    let a = crates[0];
    let b = crates[1];
    let c = crates[2];
    let d = crates[3];
    let of_a = a.rates;
    let of_b = b.rates;
    let of_c = c.rates;
    let of_d = d.rates;
    let one = put_crate(0, [0u16; 480], of_a);
    let two = put_crate(1, one, of_b);
    let three = put_crate(2, two, of_c);
    put_crate(3, three, of_d)
}

// The code that failed on board k, 0 where none did.
fn failed_at(crates: [Crate; 4], k: usize) -> u8
    ensures { result ≡ failed_at crates k }
{
    if k < 40 {
        let own = crates[k / 10];
        let codes = own.failed;
        codes[k % 10]
    } else {
        0
    }
}

// The failure record of an ordinal, in rising k.
pub fn record_at(crates: [Crate; 4], ordinal: usize) -> Result<Failure, Refusal>
    ensures { answer_of result ≡ record_answer crates ordinal }
{
    let mut left = ordinal;
    for k in 0..40u8 {
        let code = failed_at(crates, k as usize);
        if code != 0 {
            if left == 0 {
                return Ok(Failure { k, code });
            }
            left -= 1;
        }
    }
    Err(Refusal::NoSuchRecord)
}
