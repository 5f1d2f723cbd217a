// The CRC-8 of six bytes by closed forms of its polynomial, for the packet reader alone, which runs on a computer, where time matters and room does not.
// Packets are written with `crc`, which has the definition and the laws of each form, and frames and replies use `table_crc`.
// (The body is that of `crc` too; 02, e, asks for it in a crate of its own.)
#![tactic(auto)]

ghost use Rattle.std.specs.Prelude.{◌≡◌, [], ◌∷◌};
ghost use Rattle.crc.specs.Crc.{crc};

// The CRC of six bytes from a start, as a trigger packet has them. The start is added to the first byte; then, with a byte of 0 after them, all from
// x^32 on is folded in, over four bytes at one step, then all from x^16, and twice all from x^8, as x^32 is x^8 + x^4 + 1, x^16 is x^4 + x^2 + 1 and x^8
// is x^2 + x + 1.
pub fn crc_of_six(start: u8, a: u8, b: u8, c: u8, d: u8, e: u8, f: u8) -> u8
    ensures { result ≡ crc start (a ∷ b ∷ c ∷ d ∷ e ∷ f ∷ []) }
{
    let top = u32::from_be_bytes([0, start ^ a, b, c]);
    let low = u32::from_be_bytes([d, e, f, 0]);
    let once = low ^ top ^ (top << 4) ^ (top << 8);
    let second = once >> 16;
    let twice = (once % 65536) ^ second ^ (second << 2) ^ (second << 4);
    let third = twice >> 8;
    let thrice = (twice % 256) ^ third ^ (third << 1) ^ (third << 2);
    let last = thrice >> 8;
    ((thrice ^ last ^ (last << 1) ^ (last << 2)) % 256) as u8
}
