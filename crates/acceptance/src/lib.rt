// When a command is accepted: the first command of a stream's words, in a state that is idle, running or neither, fresh or not.
#![tactic(auto)]

ghost use Rattle.std.specs.Prelude.{◌≡◌};
ghost use Rattle.refusals.specs.Tables.{lowest, answer_of};
ghost use Rattle.acceptance.specs.Acceptance.{not_now, not_fresh, state_rules, Decides};

use command_reader::read_command;
use commands::Command;
use refusals::Refusal;

// What a board's state is to a command.
#[derive(Clone, Copy)]
pub struct Status {
    pub idle: bool,
    pub running: bool,
    pub fresh: bool,
}

// An answer, with the words that the command used.
#[derive(Clone, Copy)]
pub struct Decision {
    pub answer: Result<Command, Refusal>,
    pub used: usize,
}

// Whether a command is not accepted in this state: a row for each command, as 01 has them.
fn not_now(c: Command, s: Status) -> bool
    ensures { result ≡ not_now c s }
{
    match c {
        Command::Read(_) => false,
        Command::Write => !s.idle,
        Command::Start(_) => !s.idle,
        Command::Stop => !s.running,
        Command::Ping => !s.idle,
        Command::CrateReset(_) => !s.idle,
    }
}

// Whether the board is idle and the command a start without fresh.
fn not_fresh(c: Command, s: Status) -> bool
    ensures { result ≡ not_fresh c s }
{
    match c {
        Command::Read(_) => false,
        Command::Write => false,
        Command::Start(_) => s.idle && !s.fresh,
        Command::Stop => false,
        Command::Ping => false,
        Command::CrateReset(_) => false,
    }
}

// What a command gets whose words are right.
fn accept(c: Command, s: Status) -> Result<Command, Refusal>
    ensures { answer_of result ≡ lowest (state_rules c s) c }
{
    if not_now(c, s) {
        return Err(Refusal::NotAcceptedNow);
    }
    if not_fresh(c, s) {
        return Err(Refusal::NotFresh);
    }
    Ok(c)
}

// What the first command of the words gets. A command that its words refuse uses none of them, any other all of its own.
pub fn decide(words: &[u16], s: Status) -> Decision
    ensures { Decides words.now s result }
{
    match read_command(words) {
        Ok(taken) => Decision {
            answer: accept(taken.command, s),
            used: taken.used,
        },
        Err(r) => Decision {
            answer: Err(r),
            used: 0,
        },
    }
}
