// 01's listing: for each command on standard input its ordinal, a space and its answer, one line each.
#![tactic(auto)]

ghost use Rattle.std.specs.Prelude.{◌≤◌, length, IfOk};

use std::io;
use std::io::Read;
use stream::{input_buffer, list_answers};

// Reads until the bytes are full or the input ends: how many bytes of it stand at their start. (Straight into the bytes: `io::copy` reads into a
// buffer of its own, and what a message from a socket has beyond that is lost.)
fn read_full(input: &mut impl Read, bytes: &mut [u8]) -> io::Result<usize>
    ensures { IfOk result (λ n. n ≤ length bytes.new) }
{
    let mut done = 0;
    while done < bytes.len() {
        let n = input.read(&mut bytes[done..])?;
        if n == 0 {
            break;
        }
        done += n;
    }
    Ok(done)
}

fn main(rt: HostRuntime) -> io::Result<()> {
    let mut bytes = input_buffer();
    let count = read_full(&mut rt.reader(), &mut bytes)?;
    let listing = list_answers(&bytes[..count]);
    let answers = listing.answers.iter().take(listing.count);
    for (ordinal, answer) in (listing.first..).zip(answers) {
        println!(rt; "{ordinal} {answer}")?;
    }
    Ok(())
}
