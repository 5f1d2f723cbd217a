// One crate's part in a pass: the frame that is outstanding on it, its tries, its number of frames, what failed, its part of the FTU list, and its
// rates.
#![tactic(auto)]

ghost use Rattle.std.specs.Prelude.{◌≡◌, ◌<◌, Err};
ghost use Rattle.crate_pass.specs.Crate.{next_board, first_code, calls_at, clears_list, is_rate_pass, crate_at_power_up, is_done, sent_at, begun_crate};
ghost use Rattle.crate_pass.specs.Crate.{counted_frame, with_twelve, noted, moved, judged_on, Serves};
ghost use Rattle.crate_pass.specs.CodeShape.{next_place, place_after};

use configuration::flag_set;
use refusals::Refusal;
use steps::{Event, Judged, judge_event, step_frame, write_frame};
use words::copy_words;

#[derive(Clone, Copy)]
pub enum PassKind {
    Reprogramming,
    Ping,
    Rates,
}

// How a reply or a time-up was served, each with whether the crate is done.
#[derive(Clone, Copy)]
pub enum Outcome {
    Good(bool),
    Again(bool),
    BoardFailed(bool),
}

// The arrays stand first and what changes most stands last, so that a begin clears an array at once and little is copied.
#[derive(Clone, Copy)]
pub struct Crate {
    // The rates of this rate pass or the last, each board's twelve words at 12 times its number.
    pub rates: [u16; 120],
    // The boards' part of the FTU list, each board's at its number: its DNA, the calls that it needed, its CRC error byte. (Three arrays, which are
    // cleared and copied at once; one of entries goes field by field.)
    pub dna: [u64; 10],
    pub calls: [u8; 10],
    pub crc_errors: [u8; 10],
    // For each board the code of its step that failed, 0 where none did, as `failed_at` of the specs has it.
    pub failed: [u8; 10],
    // The frames sent in this pass.
    pub sent: u16,
    // The board whose frame is outstanding; 10 where none is, as `next_board` of the specs counts and the theorem of `any_order` goes on.
    pub board: u8,
    // The number of that frame's code: `steps::step_frame` answers each number, of a code or not.
    pub code: u8,
    // How often that step failed.
    pub tries: u8,
}

// Where a crate is: a board, a code, and how often that step failed.
#[derive(Clone, Copy)]
pub struct Place {
    pub board: u8,
    pub code: u8,
    pub tries: u8,
}

// How a reply or a time-up was served, with the crate after it.
#[derive(Clone, Copy)]
pub struct Moved {
    pub state: Crate,
    pub outcome: Outcome,
}

// An answer, with the crate after it.
#[derive(Clone, Copy)]
pub struct CrateResult {
    pub state: Crate,
    pub answer: Result<Outcome, Refusal>,
}

// The first active board from one on, or 10.
fn next_active(word: u16, from: u8) -> u8
    ensures { result ≡ next_board PassKind.Reprogramming word from }
{
    for b in from..10 {
        if flag_set(word, b) {
            return b;
        }
    }
    10
}

// The first board from one on that a pass serves, or 10.
fn next_board(kind: PassKind, word: u16, from: u8) -> u8
    ensures { result ≡ next_board kind word from }
{
    match kind {
        PassKind::Reprogramming => next_active(word, from),
        PassKind::Ping => if from < 10 { from } else { 10 },
        PassKind::Rates => next_active(word, from),
    }
}

// The code of a board's first step.
fn first_code(kind: PassKind) -> u8
    ensures { result ≡ first_code kind }
{
    match kind {
        PassKind::Reprogramming => 1,
        PassKind::Ping => 4,
        PassKind::Rates => 5,
    }
}

// The calls that a step needed that failed so often before.
fn calls_at(tries: u8) -> u8
    ensures { result ≡ calls_at tries }
{
    if tries < 2 { tries + 1 } else { 3 }
}

// The number of frames once the first, if any, is out.
fn sent_at(board: u8) -> u16
    ensures { result ≡ sent_at board }
{
    if board < 10 { 1 } else { 0 }
}

// The first step of the next board that the pass serves.
fn next_place(kind: PassKind, word: u16, board: u8) -> Place
    requires { board < 10 }
    ensures { result ≡ next_place kind word board }
{
    Place {
        board: next_board(kind, word, board + 1),
        code: first_code(kind),
        tries: 0,
    }
}

// The place after a good reply, or after a bad one or a time-up: the next step, the same again, or the next board.
fn place_after(kind: PassKind, word: u16, at: Place, good: bool) -> Place
    requires { at.board < 10 }
    ensures { result ≡ place_after kind word at good }
{
    if good {
        if at.code < 3 {
            return Place {
                board: at.board,
                code: at.code + 1,
                tries: 0,
            };
        }
        return next_place(kind, word, at.board);
    }
    if at.tries < 2 {
        return Place {
            board: at.board,
            code: at.code,
            tries: at.tries + 1,
        };
    }
    next_place(kind, word, at.board)
}

// One frame more where the place is a board.
fn count_frame(board: u8, sent: u16) -> u16
    ensures { result ≡ counted_frame board sent }
{
    if board < 10 {
        if sent < 65535 {
            return sent + 1;
        }
    }
    sent
}

// Whether a pass clears the FTU list as it begins.
fn clears_list(kind: PassKind) -> bool
    ensures { result ≡ clears_list kind }
{
    matches!(kind, PassKind::Ping)
}

// Whether it is a rate pass, which clears the rates as it begins.
pub fn is_rate_pass(kind: PassKind) -> bool
    ensures { result ≡ is_rate_pass kind }
{
    matches!(kind, PassKind::Rates)
}

// The words of the boards with those of one put in their place.
fn put_twelve(board: usize, words: [u16; 120], twelve: [u16; 12]) -> [u16; 120]
    requires { board < 10 }
    ensures { result ≡ with_twelve board words twelve }
{
    let mut all = words;
    let at = 12 * board;
    copy_words(&twelve, &mut all[at..]);
    all
}

// Nothing outstanding, no frame sent, no failure, an empty part of the list, and zeros for rates.
pub fn crate_at_power_up() -> Crate
    ensures { result ≡ crate_at_power_up }
{
    Crate {
        rates: [0; 120],
        dna: [0; 10],
        calls: [0; 10],
        crc_errors: [0; 10],
        failed: [0; 10],
        sent: 0,
        board: 10,
        code: 0,
        tries: 0,
    }
}

// A refusal, which leaves the crate as it is.
fn refused(state: Crate, refusal: Refusal) -> CrateResult
    ensures { (result.state ≡ state) × (result.answer ≡ Err refusal) }
{
    CrateResult {
        state,
        answer: Err(refusal),
    }
}

impl Crate {
    // Whether no frame is outstanding.
    pub fn is_done(self) -> bool
        ensures { result ≡ is_done self }
    {
        10 <= self.board
    }

    // The crate as a pass begins; a ping clears its part of the list, a rate pass its rates.
    pub fn begin(mut self, kind: PassKind, word: u16) -> Crate
        ensures { result ≡ begun_crate kind word self }
    {
        let board = next_board(kind, word, 0);
        self.failed = [0; 10];
        self.sent = sent_at(board);
        self.board = board;
        self.code = first_code(kind);
        self.tries = 0;
        if clears_list(kind) {
            self.dna = [0; 10];
            self.calls = [0; 10];
            self.crc_errors = [0; 10];
            return self;
        }
        if is_rate_pass(kind) {
            self.rates = [0; 120];
        }
        self
    }

    // What a good reply to a frame of this code, after so many sends that failed, says of a board.
    fn noted(mut self, board: u8, code: u8, tries: u8, judged: Judged) -> Crate
        requires { board < 10 }
        ensures { result ≡ noted board code tries judged self }
    {
        let at = board as usize;
        if code == 4 {
            self.dna[at] = judged.dna;
            self.calls[at] = calls_at(tries);
            self.crc_errors[at] = judged.crc_errors;
            return self;
        }
        if code == 5 {
            let words = self.rates;
            let twelve = judged.rates;
            self.rates = put_twelve(at, words, twelve);
        }
        self
    }

    // Where a reply or a time-up leads. The crate is changed in place, in one function, so that it is not copied from step to step.
    fn moved(mut self, kind: PassKind, word: u16, judged: Judged) -> Moved
        requires { self.board < 10 }
        ensures { result ≡ moved kind word self judged }
    {
        let board = self.board;
        let code = self.code;
        let tries = self.tries;
        let sent = self.sent;
        let at = board as usize;
        let to = place_after(kind, word, Place { board, code, tries }, judged.good);
        let done = 10 <= to.board;
        self.board = to.board;
        self.code = to.code;
        self.tries = to.tries;
        self.sent = count_frame(to.board, sent);
        if judged.good {
            return Moved {
                state: self.noted(board, code, tries, judged),
                outcome: Outcome::Good(done),
            };
        }
        if tries < 2 {
            return Moved {
                state: self,
                outcome: Outcome::Again(done),
            };
        }
        self.failed[at] = code;
        Moved {
            state: self,
            outcome: Outcome::BoardFailed(done),
        }
    }

    // A reply or a time-up on the crate of this number, judged by the frame outstanding there: what it does to the crate, what it gets, and into
    // the lent bytes the frame then outstanding.
    pub fn serve(
        self,
        kind: PassKind,
        word: u16,
        block: &[u16],
        index: u8,
        event: Event,
        bytes: &[u8],
        out: &mut [u8],
    ) -> CrateResult
        ensures { Serves kind word block.now index self (judged_on block.now index self event bytes.now)
            out.old result out.new }
    {
        if 3 < index {
            return refused(self, Refusal::NoSuchCrate);
        }
        if 10 <= self.board {
            return refused(self, Refusal::NothingOutstanding);
        }
        if out.len() < 28 {
            return refused(self, Refusal::OutputTooShort);
        }
        let judged = judge_event(block, index, self.board, self.code, event, bytes);
        let served = self.moved(kind, word, judged);
        let state = served.state;
        let outcome = served.outcome;
        if state.board < 10 {
            // There is room for it.
            let _ = write_frame(step_frame(block, index, state.board, state.code), out);
        }
        CrateResult {
            state,
            answer: Ok(outcome),
        }
    }
}
