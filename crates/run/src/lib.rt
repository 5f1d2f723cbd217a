// The run: whether and how long the board takes events, its three counters, and whether the configuration is fresh, and if not why.
#![tactic(auto)]

ghost use Rattle.std.specs.Prelude.{◌≡◌, ◌<◌};
ghost use Rattle.run.specs.Run.{is_running, is_last, is_fresh, used_by, at_power_up, started, stopped, with_freshness, refreshed, after_crate_reset};
ghost use Rattle.run.specs.Run.{clocked, clocked_run};
ghost use Rattle.run.specs.Run.{after_trigger, Gives, Triggers};

use commands::RunLength;
use packets::{Fields, Packet, in_range, write_packet};
use refusals::Refusal;

// Whether events are taken, and how many.
#[derive(Clone, Copy)]
pub enum Running {
    Stopped,
    Endless,
    Counted(u32),
}

// What became of the configuration: no write was ever accepted, or the last one is fresh, or a run or a crate reset used it up, whichever came
// first.
#[derive(Clone, Copy)]
pub enum Freshness {
    NeverWritten,
    Fresh,
    UsedByRun,
    UsedByReset,
}

#[derive(Clone, Copy)]
pub struct Run {
    pub running: Running,
    // Fresh from an accepted write on, until a start or a crate reset.
    pub freshness: Freshness,
    pub trigger_counter: u32,
    // Of 48 bits both, in ticks.
    pub timestamp: u64,
    pub on_time: u64,
}

// The run after a trigger, and what the trigger answered.
#[derive(Clone, Copy)]
pub struct Triggered {
    pub run: Run,
    pub answer: Result<usize, Refusal>,
}

// A counter of 48 bits, some ticks later.
fn later(counter: u64, ticks: u32) -> u64
    ensures { result ≡ clocked counter ticks }
{
    (counter % 281474976710656 + (ticks as u64)) % 281474976710656
}

impl Running {
    // Whether the trigger of this number is the last of a counted run.
    fn ends_with(self, number: u32) -> bool
        ensures { result ≡ is_last self number }
    {
        match self {
            Running::Stopped | Running::Endless => false,
            Running::Counted(x) => number == x,
        }
    }
}

impl Freshness {
    pub fn is_fresh(self) -> bool
        ensures { result ≡ is_fresh self }
    {
        matches!(self, Freshness::Fresh)
    }

    // After a start or a crate reset, which is `user`: only what uses up a fresh configuration is named.
    fn used_by(self, user: Freshness) -> Freshness
        ensures { result ≡ used_by user self }
    {
        if self.is_fresh() { user } else { self }
    }
}

// Nothing written, stopped, and all counters zero.
pub fn run_at_power_up() -> Run
    ensures { result ≡ at_power_up }
{
    Run {
        running: Running::Stopped,
        freshness: Freshness::NeverWritten,
        trigger_counter: 0,
        timestamp: 0,
        on_time: 0,
    }
}

impl Run {
    pub fn is_running(self) -> bool
        ensures { result ≡ is_running self }
    {
        !matches!(self.running, Running::Stopped)
    }

    // The same run, with another freshness.
    fn with_freshness(self, freshness: Freshness) -> Run
        ensures { result ≡ with_freshness self freshness }
    {
        Run { freshness, ..self }
    }

    // A write makes the configuration fresh.
    pub fn refresh(self) -> Run
        ensures { result ≡ refreshed self }
    {
        self.with_freshness(Freshness::Fresh)
    }

    // A crate that was reset has lost its settings, so the configuration is no longer fresh (02, b).
    pub fn crate_reset(self) -> Run
        ensures { result ≡ after_crate_reset self }
    {
        let before = self.freshness;
        self.with_freshness(before.used_by(Freshness::UsedByReset))
    }

    // A start clears fresh and sets the three counters to zero.
    pub fn start(self, length: RunLength) -> Run
        ensures { result ≡ started self length }
    {
        let before = self.freshness;
        let freshness = before.used_by(Freshness::UsedByRun);
        let running = match length {
            RunLength::Endless => Running::Endless,
            RunLength::Counted(x) => Running::Counted(x),
        };
        Run {
            running,
            freshness,
            trigger_counter: 0,
            timestamp: 0,
            on_time: 0,
        }
    }

    // The end of a run sets the same three to zero.
    pub fn stop(self) -> Run
        ensures { result ≡ stopped self }
    {
        Run {
            running: Running::Stopped,
            trigger_counter: 0,
            timestamp: 0,
            on_time: 0,
            ..self
        }
    }

    // A clock step: the timestamp goes on always, the on-time while running.
    pub fn clock(self, ticks: u32) -> Run
        ensures { result ≡ clocked_run self ticks }
    {
        let on_time = if self.is_running() {
            later(self.on_time, ticks)
        } else {
            self.on_time
        };
        Run {
            timestamp: later(self.timestamp, ticks),
            on_time,
            ..self
        }
    }

    // The run after an accepted trigger, which is the last of a counted run or not.
    fn count(self) -> Run
        requires { self.trigger_counter < 4294967295 }
        ensures { result ≡ after_trigger self }
    {
        let number = self.trigger_counter + 1;
        if self.running.ends_with(number) {
            return self.stop();
        }
        Run {
            trigger_counter: number,
            ..self
        }
    }

    // The packet of a trigger, into the lent bytes, or why there is none.
    fn give(self, fields: Fields, out: &mut [u8]) -> Result<usize, Refusal>
        ensures { Gives self fields out.old result out.new }
    {
        if !in_range(fields) {
            return Err(Refusal::TriggerFieldOutOfRange);
        }
        if !self.is_running() {
            return Err(Refusal::NotRunning);
        }
        if self.trigger_counter == 4294967295 {
            return Err(Refusal::TriggerCounterAtEnd);
        }
        let number = self.trigger_counter + 1;
        write_packet(Packet { number, fields }, out)
    }

    // A trigger: the counter goes up by one and is the number of the packet, which goes into the lent bytes. (One way out, so that the run is copied
    // once.)
    pub fn trigger(self, fields: Fields, out: &mut [u8]) -> Triggered
        ensures { Triggers self fields out.old result out.new }
    {
        let answer = self.give(fields, out);
        let run = match answer {
            Ok(_) => self.count(),
            Err(_) => self,
        };
        Triggered { run, answer }
    }
}
