// Trigger packets: seven bytes, written from a number and its fields.
#![tactic(auto)]

ghost use Rattle.std.specs.Prelude.{◌≡◌, ◌<◌, ◌≤◌};
ghost use Rattle.packets.specs.Packets.{bit_of, in_range, packet_bytes, write_rules, WrotePacket};

use crc::{PACKET_START, crc_of_six};
use refusals::Refusal;

// What a trigger's caller gives: all of a packet's fields but its number.
#[derive(Clone, Copy)]
pub struct Fields {
    // The n of "n-out-of-40", 0 to 40.
    pub n: u8,
    pub external1: bool,
    pub external2: bool,
    pub tim_source: bool,
    // The light pulser's setting, 0 to 15.
    pub pulser_setting: u8,
    pub pedestal: bool,
    pub lp2: bool,
    pub lp1: bool,
}

#[derive(Clone, Copy)]
pub struct Packet {
    pub number: u32,
    pub fields: Fields,
}

// A flag as a bit.
fn bit(flag: bool) -> u8
    ensures { (result ≡ bit_of flag) × (result < 2) }
{
    u8::from(flag)
}

// Whether n and the pulser's setting are within their ranges.
pub fn in_range(f: Fields) -> bool
    ensures { result ≡ in_range f }
{
    if 40 < f.n {
        return false;
    }
    f.pulser_setting <= 15
}

// The seven bytes of a packet whose fields are in range.
fn packet_bytes(number: u32, f: Fields) -> [u8; 7]
    requires { (f.n ≤ 40) × (f.pulser_setting ≤ 15) }
    ensures { result ≡ packet_bytes number f }
{
    let type1 = 4 * f.n + 2 * bit(f.external2) + bit(f.external1);
    let type2 = 128 * bit(f.tim_source)
        + 8 * f.pulser_setting
        + 4 * bit(f.pedestal)
        + 2 * bit(f.lp2)
        + bit(f.lp1);
    let b0 = (number % 256) as u8;
    let b1 = (number / 256 % 256) as u8;
    let b2 = (number / 256 / 256 % 256) as u8;
    let b3 = (number / 256 / 256 / 256 % 256) as u8;
    let c = crc_of_six(PACKET_START, b0, b1, b2, b3, type1, type2);
    [b0, b1, b2, b3, type1, type2, c]
}

// Writes a packet to the front of the lent bytes.
pub fn write_packet(p: Packet, out: &mut [u8]) -> Result<usize, Refusal>
    ensures { WrotePacket (write_rules p.fields) p.number p.fields out.old result out.new }
{
    if !in_range(p.fields) {
        return Err(Refusal::TriggerFieldOutOfRange);
    }
    if out.len() < 7 {
        return Err(Refusal::OutputTooShort);
    }
    let bytes = packet_bytes(p.number, p.fields);
    out[..7].copy_from_slice(&bytes);
    Ok(7)
}
