// The CRC-8 of trigger packets and slow-control frames.
#![tactic(auto)]

ghost use Rattle.std.specs.Prelude.{◌+◌, ◌≤◌, ◌≡◌, [], ◌∷◌, length, replicate};
ghost use Rattle.crc.specs.Crc.{crc};
ghost use Rattle.crc.specs.CodeShape.{crc_word};

// Where the register starts for slow-control frames (02, g).
pub const FRAME_START: u8 = 0x00;

// And for trigger packets.
pub const PACKET_START: u8 = 0xFF;

// The CRC of one byte from 0, without a table: x^8 is x^2 + x + 1, and what that moves past the top is added first.
fn crc_byte(byte: u8) -> u8
    ensures { result ≡ crc 0 (byte ∷ []) }
{
    let folded = byte ^ (byte >> 6) ^ (byte >> 7);
    folded ^ (folded << 1) ^ (folded << 2)
}

// The CRC of a word's four bytes from 0: with a byte of 0 after them, all from x^16 on is folded in twice, as x^16 is x^4 + x^2 + 1.
fn crc_word(word: u32) -> u8
    ensures { result ≡ crc_word word }
{
    let first = word >> 8;
    let folded_once = ((word % 256) << 8) ^ first ^ (first << 2) ^ (first << 4);
    let second = folded_once >> 16;
    let folded_twice = (folded_once % 65536) ^ second ^ (second << 2) ^ (second << 4);
    crc_byte((folded_twice / 256 % 256) as u8) ^ (folded_twice % 256) as u8
}

// A word whose CRC is that of the given word with four bytes of 0 after it: x^32 is x^8 + x^4 + 1.
fn four_bytes_on(word: u32) -> u32
    ensures { crc_word result ≡ crc (crc_word word) (replicate 4 0) }
{
    let folded = word ^ (word >> 24) ^ (word >> 28);
    folded ^ (folded << 4) ^ (folded << 8)
}

// The same with one to three bytes of 0.
fn bytes_on(word: u32, count: usize) -> u32
    requires { (1 ≤ count) × (count ≤ 3) }
    ensures { crc_word result ≡ crc (crc_word word) (replicate count 0) }
{
    let top = word >> (32 - 8 * count);
    (word << (8 * count)) ^ top ^ (top << 4) ^ (top << 8)
}

// Four bytes as a word.
fn word_of(bytes: [u8; 4]) -> u32
    ensures { crc_word result ≡ crc 0 bytes }
{
    u32::from_be_bytes(bytes)
}

// A word whose CRC goes on over the last bytes, fewer than four. Bytes of 0 in front leave a register of 0 as it is.
fn rest_on(word: u32, rest: &[u8]) -> u32
    requires { length rest.now ≤ 3 }
    ensures { crc_word result ≡ crc (crc_word word) rest.now }
{
    match rest {
        [] => word,
        [a] => bytes_on(word, 1) ^ word_of([0, 0, 0, *a]),
        [a, b] => bytes_on(word, 2) ^ word_of([0, 0, *a, *b]),
        [a, b, c, ..] => bytes_on(word, 3) ^ word_of([0, *a, *b, *c]),
    }
}

// The CRC of bytes from a start, which is added to the first byte: that byte, then four at a step while there are four, and then the rest.
pub fn crc8(start: u8, bytes: &[u8]) -> u8
    ensures { result ≡ crc start bytes.now }
{
    let Some((first, others)) = bytes.split_first() else {
        return start;
    };
    let mut word = word_of([0, 0, 0, start ^ *first]);
    let (fours, rest) = others.as_chunks::<4>();
    for four in fours {
        word = four_bytes_on(word) ^ word_of(*four);
    }
    crc_word(rest_on(word, rest))
}

// The CRC of six bytes from a start, as a trigger packet has them. The start is added to the first byte; then, with a byte of 0 after them, all from
// x^32 on is folded in, then all from x^16, and twice all from x^8, as x^32 is x^8 + x^4 + 1, x^16 is x^4 + x^2 + 1 and x^8 is x^2 + x + 1.
pub fn crc_of_six(start: u8, a: u8, b: u8, c: u8, d: u8, e: u8, f: u8) -> u8
    ensures { result ≡ crc start (a ∷ b ∷ c ∷ d ∷ e ∷ f ∷ []) }
{
    let top = u32::from_be_bytes([0, start ^ a, b, c]);
    let low = u32::from_be_bytes([d, e, f, 0]);
    let once = low ^ top ^ (top << 4) ^ (top << 8);
    let second = once >> 16;
    let twice = (once % 65536) ^ second ^ (second << 2) ^ (second << 4);
    let third = twice >> 8;
    let thrice = (twice % 256) ^ third ^ (third << 1) ^ (third << 2);
    let last = thrice >> 8;
    ((thrice ^ last ^ (last << 1) ^ (last << 2)) % 256) as u8
}
