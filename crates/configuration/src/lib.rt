// The configuration: the 436 words of the static block, and a board's part of them.
#![tactic(auto)]

ghost use Rattle.std.specs.Prelude.{◌≡◌};
ghost use Rattle.configuration.specs.Configuration.{begin_of, address_of, board_words, settings_of, active_word, flag_set};

use std::array::from_fn;
use words::{part, word_at};

// A board's settings, from its ten words.
#[derive(Clone, Copy)]
pub struct Settings {
    // Of patch 0 to 3.
    pub enables: [u16; 4],
    // A, B, C, D, H.
    pub dacs: [u16; 5],
    pub prescaling: u16,
}

// The place where the words of board b of crate c begin.
pub fn begin_of(c: u8, b: u8) -> usize
    ensures { result ≡ begin_of c b }
{
    0x020 + 10 * (10 * (c as usize) + (b as usize))
}

// The slow-control address of board b of crate c.
pub fn address_of(c: u8, b: u8) -> u8
    ensures { result ≡ address_of c b }
{
    c.wrapping_mul(16).wrapping_add(b)
}

// The ten words of board b of crate c, as a part of the block; fewer where the block ends before.
pub fn board_words(block: &[u16], c: u8, b: u8) -> &[u16]
    ensures { result.now ≡ board_words block.now c b }
{
    let from = begin_of(c, b);
    part(block, from, from + 10)
}

// The settings in a board's ten words.
pub fn settings_of(words: &[u16]) -> Settings
    ensures { result ≡ settings_of words.now }
{
    Settings {
        enables: from_fn(|i| word_at(words, i)),
        dacs: from_fn(|i| word_at(words, 4 + i)),
        prescaling: word_at(words, 9),
    }
}

// The active flags of crate c, a bit for each board.
pub fn active_word(block: &[u16], c: u8) -> u16
    ensures { result ≡ active_word block.now c }
{
    word_at(block, 0x1B0 + (c as usize))
}

// Whether the flag of board b is set in a word of active flags.
pub fn flag_set(word: u16, b: u8) -> bool
    ensures { result ≡ flag_set word b }
{
    b < 16 && (word >> b) % 2 == 1
}
