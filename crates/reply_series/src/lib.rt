// Replies and time-ups one after another, on the whole board or on the crates alone. An item is a crate's number, and for a reply its 28
// bytes. Every item lends the same bytes for the next frame, so after the last they hold what the last frame given left there.
#![tactic(auto)]

ghost use Rattle.std.specs.Prelude.{◌≡◌, ◌≤◌};
ghost use Rattle.refusals.specs.Tables.{answer_of};
ghost use Rattle.reply_series.specs.Series.{item_size, good_outcome, counts, Counts, CountsGood};

use board::Board;
use configuration::active_word;
use crate_pass::{Crate, Outcome, PassKind};
use refusals::{Refusal, count_given};
use steps::Event;

// The bytes of an item.
fn item_size(event: Event) -> usize
    ensures { (result ≡ item_size event) × (1 ≤ result) }
{
    match event {
        Event::Reply => 29,
        Event::TimeUp => 1,
    }
}

// Whether an answer is good: 1, else 0.
fn good_count(answer: Result<Outcome, Refusal>) -> u64
    ensures { (result ≡ good_outcome (answer_of answer)) × (result ≤ 1) }
{
    match answer {
        Ok(o) => match o {
            Outcome::Good(_) => 1,
            Outcome::Again(_) => 0,
            Outcome::BoardFailed(_) => 0,
        },
        Err(_) => 0,
    }
}

// Whether an item counts, a reply where it is good, a time-up where it is served: 1, else 0.
fn count_of(event: Event, answer: Result<Outcome, Refusal>) -> u64
    ensures { (result ≡ counts event (answer_of answer)) × (result ≤ 1) }
{
    match event {
        Event::Reply => good_count(answer),
        Event::TimeUp => count_given(&answer),
    }
}

// How many replies of the items are good, on the crates alone.
pub fn good_replies(
    first: [Crate; 4],
    block: &[u16],
    kind: PassKind,
    items: &[u8],
    frame: &mut [u8],
) -> u64
    ensures { CountsGood block.now kind first items.now frame.old result frame.new }
{
    let mut crates = first;
    let mut good = 0;
    let mut rest = items;
    // (Parts are taken off the front of what is left, as `after_items` of the specs takes them.)
    while 29 <= rest.len() {
        let index = rest[0];
        if index < 4 {
            let at = index as usize;
            let own = crates[at];
            let reply = &rest[1..29];
            let word = active_word(block, index);
            let served = own.serve(kind, word, block, index, Event::Reply, reply, frame);
            let state = served.state;
            let answer = served.answer;
            crates[at] = state;
            good += good_count(answer);
        }
        rest = &rest[29..];
    }
    good
}

// How many of the items count, each by a call on the whole board.
pub fn count_on_board(mut board: Board, event: Event, items: &[u8], frame: &mut [u8]) -> u64
    ensures { Counts event board items.now frame.old result frame.new }
{
    let size = item_size(event);
    let mut count = 0;
    let mut rest = items;
    // (The same.)
    while size <= rest.len() {
        let replied = board.hand_in(rest[0], event, &rest[1..size], frame);
        let answer = replied.answer;
        let next = replied.board;
        count += count_of(event, answer);
        board = next;
        rest = &rest[size..];
    }
    count
}
