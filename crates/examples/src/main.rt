// The examples of the formats in 01 and in 02, g, worked by the code: each line names the example as they do, and gives what the code answered.
#![tactic(auto)]

ghost use Rattle.std.specs.Prelude.{◌<◌};

use command_reader::{Taken, read_command};
use commands::{Command, RunLength};
use configuration::begin_of;
use crc::{FRAME_START, crc8};
use packet_reader::read_packet;
use packets::{Fields, Packet, write_packet};
use refusals::Refusal;
use std::io;

fn refused(rt: &impl Print, refusal: Refusal) -> io::Result<()> {
    print!(rt; "{}", refusal.number())?;
    if let Refusal::AboveBound(place) = refusal {
        print!(rt; ", place {place:#05X}")?;
    }
    println!(rt)
}

fn accepted(rt: &impl Print, taken: Taken) -> io::Result<()> {
    match taken.command {
        Command::Start(RunLength::Counted(x)) => print!(rt; "X = {x}, ")?,
        Command::CrateReset(number) => print!(rt; "crate {number}, ")?,
        _ => {}
    }
    println!(rt; "{} words used", taken.used)
}

fn command(rt: &impl Print, name: &str, words: &[u16]) -> io::Result<()> {
    print!(rt; "{name}: ")?;
    match read_command(words) {
        Ok(taken) => accepted(rt, taken),
        Err(refusal) => refused(rt, refusal),
    }
}

// A write of zeros with one word at a place.
fn write_with(rt: &impl Print, name: &str, place: usize, word: u16) -> io::Result<()>
    requires { place < 436 }
{
    let mut words = [0; 441];
    words[..3].copy_from_slice(&[0x0040, 0x02, 1]);
    words[5 + place] = word;
    command(rt, name, &words)
}

fn packet(rt: &impl Print, name: &str, number: u32, n: u8, pedestal: bool) -> io::Result<()> {
    let fields = Fields {
        n,
        external1: false,
        external2: false,
        tim_source: false,
        pulser_setting: 0,
        pedestal,
        lp2: false,
        lp1: false,
    };
    let mut bytes = [0; 7];
    print!(rt; "{name}: ")?;
    if let Err(refusal) = write_packet(Packet { number, fields }, &mut bytes) {
        return refused(rt, refusal);
    }
    let [a, b, c, d, e, f, g] = bytes;
    println!(rt; "{a:02X} {b:02X} {c:02X} {d:02X} {e:02X} {f:02X} {g:02X}")
}

fn reading(rt: &impl Print, name: &str, bytes: &[u8]) -> io::Result<()> {
    print!(rt; "{name}: ")?;
    match read_packet(bytes) {
        Ok(read) => println!(rt; "number {}", read.number),
        Err(refusal) => refused(rt, refusal),
    }
}

fn main(rt: HostRuntime) -> io::Result<()> {
    command(&rt, "Four words", &[0x0040, 0x01, 1, 0])?;
    command(&rt, "Five, first 0x0041", &[0x0041, 0x01, 1, 0, 0])?;
    command(
        &rt,
        "Take X with 0x0001 0x1170",
        &[0x0040, 0x04, 2, 0, 0, 0x0001, 0x1170],
    )?;
    command(&rt, "X of one word", &[0x0040, 0x04, 2, 0, 0, 0x0001])?;
    command(&rt, "X = 0", &[0x0040, 0x04, 2, 0, 0, 0, 0])?;
    command(&rt, "Reset with 8", &[0x0040, 0x20, 8, 0, 0])?;
    command(&rt, "With 3", &[0x0040, 0x20, 3, 0, 0])?;
    write_with(&rt, "0x002 at 1023", 0x002, 1023)?;
    write_with(&rt, "0x002 at 1024", 0x002, 1024)?;
    write_with(&rt, "Crate 3's flags at 0x0400", 0x1B3, 0x0400)?;
    println!(rt; "Board 9 of crate 3 begins at {:#05X}", begin_of(3, 9))?;
    packet(&rt, "Number 1, all else zero", 1, 0, false)?;
    packet(&rt, "Number 1, n = 4", 1, 4, false)?;
    packet(&rt, "Number 2, pedestal", 2, 0, true)?;
    packet(&rt, "Six zero bytes", 0, 0, false)?;
    reading(&rt, "With 0xAF", &[0, 0, 0, 0, 0, 0, 0xAF])?;
    reading(&rt, "Seven zero bytes", &[0; 7])?;
    packet(&rt, "n = 40", 0, 40, false)?;
    packet(&rt, "n = 41", 0, 41, false)?;
    println!(rt;
        "The ASCII digits 1 to 9 have CRC {:#04X}",
        crc8(FRAME_START, b"123456789")
    )
}
