// The board: its state, and every call on it in the order of 01.
#![tactic(auto)]

ghost use Rattle.std.specs.Prelude.{◌≡◌, true, cond, ◌≤◌, length};
ghost use Rattle.refusals.specs.Tables.{given, answer_of};
ghost use Rattle.configuration.specs.Configuration.{active_word};
ghost use Rattle.commands.specs.declared.Command.TheVariants.{Write};
ghost use Rattle.run.specs.Run.{refreshed};
ghost use Rattle.crate_pass.specs.declared.PassKind.TheVariants.{Reprogramming, Ping};
ghost use Rattle.explanations.specs.Explaining.{Explains};
ghost use Rattle.board.specs.State.{active_words, is_idle, status_of, finished_rates, with_run, fresh_board, PowersUp};
ghost use Rattle.board.specs.Commands.{written, pinged, after_command, Obeys, TriggersOn, after_clock_step};
ghost use Rattle.board.specs.Explaining.{present_of, explained_on};
ghost use Rattle.board.specs.SlowControl.{judged_at, Replies, Fetches, sent_answer};
ghost use Rattle.board.specs.RatePass.{rates_begun, Begins};
ghost use Rattle.board.specs.SentOut.{header_of, SendsStatic, SendsDynamic, SendsList, SendsFailure};

use acceptance::{Decision, Status, decide};
use blocks::{Header, write_dynamic, write_failure, write_static};
use command_reader::block_before;
use commands::Command;
use crate_pass::{Crate, Outcome, PassKind, crate_at_power_up, is_rate_pass};
use explanations::{Explanation, Present, activity_of, explain};
use four_crates::{begin_all, entries_of, first_on, in_pass, rates_of, record_at, sent_on};
use ftu_list::{FtuList, write_list};
use numbers::ID_LIMIT;
use packets::Fields;
use refusals::Refusal;
use run::{Run, Triggered, run_at_power_up};
use steps::{Event, step_frame, write_frame};
use words::copy_words;

// Never changes after power-up.
#[derive(Clone, Copy)]
pub struct Identity {
    // Below 2^57.
    pub board_id: u64,
    pub firmware_id: u16,
}

// The arrays stand first and what changes most stands last, so that a call copies as little as it can.
#[derive(Clone, Copy)]
pub struct Board {
    // Of the rate pass before the last one begun; changed by the begin of a rate pass.
    pub rates: [u16; 480],
    // Changed by an accepted write alone.
    pub block: [u16; 436],
    // Each changed by its own replies and time-ups, and by the begin of a pass.
    pub crates: [Crate; 4],
    // The active words as stored when the last ping began.
    pub active: [u16; 4],
    // Of the last pass begun.
    pub kind: PassKind,
    pub identity: Identity,
    // Changed by commands, clock steps and triggers.
    pub run: Run,
}

#[derive(Clone, Copy)]
pub struct PowerUpResult {
    // No board of the caller's where power-up is refused: one of ID 0.
    pub board: Board,
    pub answer: Result<(), Refusal>,
}

#[derive(Clone, Copy)]
pub struct BeginResult {
    pub board: Board,
    pub answer: Result<(), Refusal>,
}

#[derive(Clone, Copy)]
pub struct CommandResult {
    pub board: Board,
    pub answer: Result<Command, Refusal>,
    // The words that the command used.
    pub used: usize,
}

#[derive(Clone, Copy)]
pub struct TriggerResult {
    pub board: Board,
    pub answer: Result<usize, Refusal>,
}

#[derive(Clone, Copy)]
pub struct ReplyResult {
    pub board: Board,
    pub answer: Result<Outcome, Refusal>,
}

// A board as power-up gives it.
fn fresh_board(board_id: u64, firmware_id: u16) -> Board
    ensures { result ≡ fresh_board board_id firmware_id }
{
    Board {
        block: [0; 436],
        rates: [0; 480],
        crates: [crate_at_power_up(); 4],
        active: [0; 4],
        kind: PassKind::Reprogramming,
        identity: Identity {
            board_id,
            firmware_id,
        },
        run: run_at_power_up(),
    }
}

// Power-up with a board ID and a firmware ID.
pub fn power_up(board_id: u64, firmware_id: u16) -> PowerUpResult
    ensures { PowersUp board_id firmware_id result }
{
    if ID_LIMIT <= board_id {
        return PowerUpResult {
            board: fresh_board(0, 0),
            answer: Err(Refusal::WrongHeader),
        };
    }
    PowerUpResult {
        board: fresh_board(board_id, firmware_id),
        answer: Ok(()),
    }
}

// The block of a write, copied out of the caller's words. (They are taken as a part of a constant length, which is copied faster.)
fn stored(block: &[u16]) -> [u16; 436]
    requires { length block.now ≡ 436 }
    ensures { result ≡ block.now }
{
    let mut copy = [0u16; 436];
    copy_words(&block[0..436], &mut copy);
    copy
}

// The four words of active flags.
fn active_words(block: [u16; 436]) -> [u16; 4]
    ensures { result ≡ active_words block }
{
    [block[0x1B0], block[0x1B1], block[0x1B2], block[0x1B3]]
}

// The word of active flags of a crate up to 3.
fn flags_of(block: [u16; 436], index: u8) -> u16
    ensures { index ≤ 3 → result ≡ active_word block index }
{
    match index {
        0 => block[0x1B0],
        1 => block[0x1B1],
        2 => block[0x1B2],
        _ => block[0x1B3],
    }
}

// The kind of the pass that a write or a ping begins. (Both begin at one place, with a flag that says which: with two places the compiler carries
// each field of the four crates through every command, and a write takes longer; docs/DECISIONS.md, "What makes it fast".)
fn kind_of(is_write: bool) -> PassKind
    ensures { result ≡ cond is_write Reprogramming Ping }
{
    if is_write {
        PassKind::Reprogramming
    } else {
        PassKind::Ping
    }
}

// The run after a write, which sets fresh, or a ping.
fn run_after(run: Run, is_write: bool) -> Run
    ensures { result ≡ cond is_write (refreshed run) run }
{
    if is_write { run.refresh() } else { run }
}

// The block stored after a write, which stores the command's block, or a ping.
fn block_after(block: [u16; 436], is_write: bool, command_block: &[u16]) -> [u16; 436]
    requires { is_write ≡ true → length command_block.now ≡ 436 }
    ensures { result ≡ cond is_write command_block.now block }
{
    if is_write {
        stored(command_block)
    } else {
        block
    }
}

// The active words of the last ping, after a write or a ping that finds the words `flags`.
fn active_after(active: [u16; 4], is_write: bool, flags: [u16; 4]) -> [u16; 4]
    ensures { result ≡ cond is_write active flags }
{
    if is_write { active } else { flags }
}

impl Board {
    // Not running, and no pass under way.
    pub fn is_idle(self) -> bool
        ensures { result ≡ is_idle self }
    {
        !self.run.is_running() && !in_pass(self.crates)
    }

    // What the state is to a command.
    fn status(self) -> Status
        ensures { result ≡ status_of self }
    {
        Status {
            idle: self.is_idle(),
            running: self.run.is_running(),
            fresh: self.run.freshness.is_fresh(),
        }
    }

    // The board with another run. (Set in place: with `..self` the whole board is copied, and a clock step takes 100 ns for 1.)
    fn with_run(self, run: Run) -> Board
        ensures { result ≡ with_run self run }
    {
        let mut next = self;
        next.run = run;
        next
    }

    // A write or a ping begins a pass: a write stores the block and sets fresh, a ping keeps the active words as they stand.
    fn begin(self, is_write: bool, command_block: &[u16]) -> Board
        requires { is_write ≡ true → length command_block.now ≡ 436 }
        ensures { result ≡ cond is_write (written self command_block.now) (pinged self) }
    {
        let identity = self.identity;
        let run = self.run;
        let block = self.block;
        let active = self.active;
        let rates = self.rates;
        let crates = self.crates;
        let kind = kind_of(is_write);
        let next_run = run_after(run, is_write);
        let next_block = block_after(block, is_write, command_block);
        let flags = active_words(next_block);
        let next_active = active_after(active, is_write, flags);
        let begun = begin_all(crates, kind, flags);
        Board {
            block: next_block,
            rates,
            crates: begun,
            active: next_active,
            kind,
            identity,
            run: next_run,
        }
    }

    // Does what an obeyed command says, whose block is given. A read and a refusal change nothing.
    fn carry_out(mut self, answer: Result<Command, Refusal>, block: &[u16]) -> Board
        requires { answer_of answer ≡ given Write → length block.now ≡ 436 }
        ensures { result ≡ after_command self block.now (answer_of answer) }
    {
        match answer {
            Err(_) => {}
            Ok(c) => match c {
                Command::Read(_) => {}
                Command::Start(length) => self.run = self.run.start(length),
                Command::Stop => self.run = self.run.stop(),
                Command::CrateReset(_) => self.run = self.run.crate_reset(),
                Command::Write | Command::Ping => self = self.begin(c.is_write(), block),
            },
        }
        self
    }

    // The first command of the words.
    pub fn obey(self, words: &[u16]) -> CommandResult
        ensures { Obeys self words.now result }
    {
        let Decision { answer, used } = decide(words, self.status());
        let block = block_before(words, used);
        CommandResult {
            board: self.carry_out(answer, block),
            answer,
            used,
        }
    }

    // What the state is to an explanation.
    fn present(self) -> Present
        ensures { result ≡ present_of self }
    {
        Present {
            activity: activity_of(self.run.is_running(), in_pass(self.crates), self.kind),
            freshness: self.run.freshness,
        }
    }

    // Why the first command of the words would be accepted or refused; nothing is obeyed.
    pub fn explain(self, words: &[u16]) -> Explanation
        ensures { Explains (explained_on self words.now) result }
    {
        explain(words, self.present())
    }

    // A clock step.
    pub fn clock(self, ticks: u32) -> Board
        ensures { result ≡ after_clock_step self ticks }
    {
        self.with_run(self.run.clock(ticks))
    }

    // A trigger, whose packet goes into the lent bytes.
    pub fn trigger(self, fields: Fields, out: &mut [u8]) -> TriggerResult
        ensures { TriggersOn self fields out.old result out.new }
    {
        let Triggered { run, answer } = self.run.trigger(fields, out);
        TriggerResult {
            board: self.with_run(run),
            answer,
        }
    }

    // The rates of the last finished rate pass.
    fn finished_rates(self) -> [u16; 480]
        ensures { result ≡ finished_rates self }
    {
        if is_rate_pass(self.kind) {
            if in_pass(self.crates) {
                return self.rates;
            }
            return rates_of(self.crates);
        }
        rates_of(self.crates)
    }

    // The board as a rate pass begins.
    fn rates_begun(self) -> Board
        ensures { result ≡ rates_begun self }
    {
        let identity = self.identity;
        let run = self.run;
        let block = self.block;
        let active = self.active;
        let crates = self.crates;
        let kind = PassKind::Rates;
        let rates = self.finished_rates();
        let begun = begin_all(crates, kind, active_words(block));
        Board {
            block,
            rates,
            crates: begun,
            active,
            kind,
            identity,
            run,
        }
    }

    // A rate pass begins, while the board is idle or running.
    pub fn begin_rate_pass(self) -> BeginResult
        ensures { Begins self result }
    {
        if in_pass(self.crates) {
            return BeginResult {
                board: self,
                answer: Err(Refusal::NotAcceptedNow),
            };
        }
        BeginResult {
            board: self.rates_begun(),
            answer: Ok(()),
        }
    }

    // A reply, of any length, or a time-up on a crate, and the frame then outstanding into the lent bytes. One way out and constant places, so
    // that little of the board is copied. (A number above 3 goes to the fourth crate, which answers 11 and stays as it is.)
    pub fn hand_in(mut self, index: u8, event: Event, bytes: &[u8], out: &mut [u8]) -> ReplyResult
        ensures { Replies self index (judged_at self index event bytes.now) out.old result out.new }
    {
        let kind = self.kind;
        let block = self.block;
        let word = flags_of(block, index);
        let own = match index {
            0 => self.crates[0],
            1 => self.crates[1],
            2 => self.crates[2],
            _ => self.crates[3],
        };
        let served = own.serve(kind, word, &block, index, event, bytes, out);
        let after = served.state;
        let answer = served.answer;
        match index {
            0 => self.crates[0] = after,
            1 => self.crates[1] = after,
            2 => self.crates[2] = after,
            _ => self.crates[3] = after,
        }
        ReplyResult {
            board: self,
            answer,
        }
    }

    // The first frame of the pass on a crate, into lent bytes.
    pub fn first_frame(self, index: u8, out: &mut [u8]) -> Result<usize, Refusal>
        ensures { Fetches self index out.old result out.new }
    {
        let block = self.block;
        let (board, code) = first_on(self.crates, index)?;
        write_frame(step_frame(&block, index, board, code), out)
    }

    // The number of frames sent on a crate in this pass, or in the last.
    pub fn frames_sent(self, index: u8) -> Result<u16, Refusal>
        ensures { answer_of result ≡ sent_answer self index }
    {
        sent_on(self.crates, index)
    }

    // The header of every block sent out.
    fn header(self) -> Header
        ensures { result ≡ header_of self }
    {
        Header {
            board_id: self.identity.board_id,
            firmware_id: self.identity.firmware_id,
            trigger_counter: self.run.trigger_counter,
            timestamp: self.run.timestamp,
        }
    }

    // The static block, into lent words.
    pub fn static_block(self, out: &mut [u16]) -> Result<usize, Refusal>
        ensures { SendsStatic self out.old result out.new }
    {
        write_static(self.header(), self.block, out)
    }

    // The dynamic block, with lent temperatures, into lent words.
    pub fn dynamic_block(self, temperatures: &[u16], out: &mut [u16]) -> Result<usize, Refusal>
        ensures { SendsDynamic self temperatures.now out.old result out.new }
    {
        let rates = self.finished_rates();
        write_dynamic(self.header(), self.run.on_time, temperatures, rates, out)
    }

    // The FTU list, into lent words.
    pub fn ftu_list(self, out: &mut [u16]) -> Result<usize, Refusal>
        ensures { SendsList self out.old result out.new }
    {
        if in_pass(self.crates) {
            return Err(Refusal::NotAcceptedNow);
        }
        let active = self.active;
        let entries = entries_of(self.crates);
        write_list(self.header(), FtuList { active, entries }, out)
    }

    // The failure message of an ordinal, into lent words.
    pub fn failure_message(self, ordinal: usize, out: &mut [u16]) -> Result<usize, Refusal>
        ensures { SendsFailure self ordinal out.old result out.new }
    {
        if in_pass(self.crates) {
            return Err(Refusal::NotAcceptedNow);
        }
        let block = self.block;
        let f = record_at(self.crates, ordinal)?;
        let frame = step_frame(&block, f.k / 10, f.k % 10, f.code);
        write_failure(self.header(), 3, frame, out)
    }
}
