// The writer of commands, for the far end.
#![tactic(auto)]

ghost use Rattle.std.specs.Prelude.{[]};
ghost use Rattle.refusals.specs.Writing.{Wrote};
ghost use Rattle.commands.specs.declared.Command.TheVariants.{Write, Start, CrateReset};
ghost use Rattle.commands.specs.declared.RunLength.TheVariants.{Counted};
ghost use Rattle.command_writer.specs.Writing.{five_words, command_words, write_rules, WroteCommand};

use bounds::{Bounded, check_bounds};
use commands::{BlockKind, Command, RunLength};
use numbers::words;
use refusals::Refusal;
use words::copy_words;

// Lays down the five words of a command that has no block.
fn put_five(id: u16, parameter: u16, out: &mut [u16]) -> Result<usize, Refusal>
    ensures { Wrote [] (five_words id parameter) out.old result out.new }
{
    if out.len() < 5 {
        return Err(Refusal::OutputTooShort);
    }
    let five = [0x0040, id, parameter, 0, 0];
    copy_words(&five, out);
    Ok(5)
}

// A start that counts x events.
fn put_count(x: u32, out: &mut [u16]) -> Result<usize, Refusal>
    ensures { WroteCommand (Start (Counted x)) [] out.old result out.new }
{
    if x == 0 {
        return Err(Refusal::NoEvents);
    }
    if out.len() < 7 {
        return Err(Refusal::OutputTooShort);
    }
    let count = words::<2>(x as u64);
    let seven = [0x0040, 0x04, 2, 0, 0, count[0], count[1]];
    copy_words(&seven, out);
    Ok(7)
}

// A reset of the crate with this number.
fn put_reset(number: u8, out: &mut [u16]) -> Result<usize, Refusal>
    ensures { Wrote (write_rules (CrateReset number) []) (command_words (CrateReset number) []) out.old result out.new }
{
    match number {
        0 => put_five(0x20, 1, out),
        1 => put_five(0x20, 2, out),
        2 => put_five(0x20, 4, out),
        3 => put_five(0x20, 8, out),
        _ => Err(Refusal::NoSuchCrate),
    }
}

// A write with its block.
fn put_write(block: &[u16], out: &mut [u16]) -> Result<usize, Refusal>
    ensures { Wrote (write_rules Write block.now) (command_words Write block.now) out.old result out.new }
{
    if block.len() != 436 {
        return Err(Refusal::WrongLength);
    }
    check_bounds(Bounded::Configuration, block)?;
    if out.len() < 441 {
        return Err(Refusal::OutputTooShort);
    }
    let five = [0x0040u16, 0x02, 1, 0, 0];
    copy_words(&five, out);
    copy_words(block, &mut out[5..]);
    Ok(441)
}

// Writes a command, with the block of a write, to the front of the lent words. Other commands do not look at the block.
pub fn write_command(c: Command, block: &[u16], out: &mut [u16]) -> Result<usize, Refusal>
    ensures { WroteCommand c block.now out.old result out.new }
{
    match c {
        Command::Read(kind) => match kind {
            BlockKind::Static => put_five(0x01, 1, out),
            BlockKind::Dynamic => put_five(0x01, 2, out),
        },
        Command::Write => put_write(block, out),
        Command::Start(run) => match run {
            RunLength::Endless => put_five(0x04, 1, out),
            RunLength::Counted(x) => put_count(x, out),
        },
        Command::Stop => put_five(0x08, 0, out),
        Command::Ping => put_five(0x10, 0, out),
        Command::CrateReset(number) => put_reset(number, out),
    }
}
