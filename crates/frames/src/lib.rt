// Slow-control frames: 28 bytes that carry a board's settings, ping it, or ask for its trigger rates.
#![tactic(auto)]

ghost use Rattle.std.specs.Prelude.{◌≡◌, [], ◌∷◌, ◌++◌, take};
ghost use Rattle.frames.specs.Frames.{code_of, words_for, frame_with, frame_of};
ghost use Rattle.frames.specs.CodeShape.{five_of, before_crc};

use configuration::{Settings, address_of};
use crc::FRAME_START;
use numbers::word_bytes;
use table_crc::crc8;

// What a frame is for.
#[derive(Clone, Copy)]
pub enum Code {
    Dacs = 1,
    Enables = 2,
    Prescaling = 3,
    Ping = 4,
    Rates = 5,
}

impl Code {
    // The number of a code.
    pub fn number(self) -> u8
        ensures { result ≡ code_of self }
    {
        self as u8
    }
}

// The words that a code carries, with zeros up to five.
fn words_for(code: Code, s: Settings) -> [u16; 5]
    ensures { result ≡ five_of (words_for code s) }
{
    let e = s.enables;
    match code {
        Code::Dacs => s.dacs,
        Code::Enables => [e[0], e[1], e[2], e[3], 0],
        Code::Prescaling => [s.prescaling, 0, 0, 0, 0],
        Code::Ping | Code::Rates => [0; 5],
    }
}

// The frame to an address, of a code's number, with five words of data, before its CRC stands in it.
fn before_crc(address: u8, number: u8, w: [u16; 5]) -> [u8; 28]
    ensures { result ≡ before_crc address number w }
{
    let mut f = [0; 28];
    f[..5].copy_from_slice(&[0x40, address, 192, 0, number]);
    f[5..15].copy_from_slice(w.map(word_bytes).as_flattened());
    f
}

// The frame with its CRC.
fn frame_with(address: u8, number: u8, w: [u16; 5]) -> [u8; 28]
    ensures { result ≡ frame_with address number w }
{
    let mut f = before_crc(address, number, w);
    let sum = crc8(FRAME_START, &f[..27]);
    f[27] = sum;
    f
}

// The frame that a code sends to board b of crate c, with its settings.
pub fn frame(c: u8, b: u8, code: Code, s: Settings) -> [u8; 28]
    ensures { result ≡ frame_of c b code s }
{
    frame_with(address_of(c, b), code.number(), words_for(code, s))
}

// The same frame with 0 in the place of its CRC, which is enough to judge the reply.
pub fn frame_before_crc(c: u8, b: u8, code: Code, s: Settings) -> [u8; 28]
    ensures { result ≡ take 27 (frame_of c b code s) ++ (0 ∷ []) }
{
    before_crc(address_of(c, b), code.number(), words_for(code, s))
}
