// Replays a script from standard input on a fresh board, and prints a line for each of its lines.
#![tactic(auto)]

use board::{Board, power_up};
use exchange::serve_line;
use script::{Reading, line_begun, read_on};
use std::io;
use std::io::Read;

// The board, what is read of the next line, and the bytes that its digits make.
#[derive(Drop)]
struct Replay {
    board: Board,
    reading: Reading,
    bytes: [u8; 2048],
}

impl Replay {
    // Serves a line that is read, and prints what it gets.
    fn serve(&mut self, rt: &impl Print, reading: Reading) -> io::Result<()> {
        let mut text = [0; 2560];
        let served = serve_line(self.board, reading, &self.bytes, &mut text);
        self.board = served.board;
        if let Some(printed) = text.get(..served.length) {
            rt.write_all(printed)?;
        }
        Ok(())
    }

    // Reads a part of the input, and serves each line that ends in it.
    fn read(&mut self, rt: &impl Print, part: &[u8]) -> io::Result<()> {
        let mut reading = self.reading;
        for character in part {
            if *character == b'\n' {
                self.serve(rt, reading)?;
                reading = line_begun();
            } else {
                reading = read_on(reading, *character, &mut self.bytes);
            }
        }
        self.reading = reading;
        Ok(())
    }
}

fn main(rt: HostRuntime) -> io::Result<()> {
    let mut replay = Replay {
        board: power_up(0, 0).board,
        reading: line_begun(),
        bytes: [0; 2048],
    };
    let mut input = [0; 4096];
    let mut reader = rt.reader();
    // Input ends long before so many parts of it are read.
    for _ in 0..u64::MAX {
        let count = reader.read(&mut input)?;
        if count == 0 {
            break;
        }
        replay.read(&rt, &input[..count])?;
    }
    // The last line may end with the input.
    let last = replay.reading;
    replay.serve(&rt, last)
}
