// The reader of trigger packets, for the far end.
#![tactic(auto)]

ghost use Rattle.std.specs.Prelude.{◌≡◌};
ghost use Rattle.packet_reader.specs.Reading.{number_in, fields_in, packet_answer};
ghost use Rattle.refusals.specs.Tables.{answer_of};

use crc::PACKET_START;
use packets::{Fields, Packet, in_range};
use quick_crc::crc_of_six;
use refusals::Refusal;

// The number in a packet's first four bytes.
fn number_in(b0: u8, b1: u8, b2: u8, b3: u8) -> u32
    ensures { result ≡ number_in b0 b1 b2 b3 }
{
    (b0 as u32) + 256 * ((b1 as u32) + 256 * ((b2 as u32) + 256 * (b3 as u32)))
}

// The fields in a packet's two type bytes.
fn fields_in(type1: u8, type2: u8) -> Fields
    ensures { result ≡ fields_in type1 type2 }
{
    Fields {
        n: type1 / 4,
        external1: type1 % 2 == 1,
        external2: type1 / 2 % 2 == 1,
        tim_source: type2 / 128 % 2 == 1,
        pulser_setting: type2 / 8 % 16,
        pedestal: type2 / 4 % 2 == 1,
        lp2: type2 / 2 % 2 == 1,
        lp1: type2 % 2 == 1,
    }
}

// Reads a packet.
pub fn read_packet(bytes: &[u8]) -> Result<Packet, Refusal>
    ensures { answer_of result ≡ packet_answer bytes.now }
{
    if bytes.len() != 7 {
        return Err(Refusal::WrongPacketLength);
    }
    let sum = crc_of_six(
        PACKET_START,
        bytes[0],
        bytes[1],
        bytes[2],
        bytes[3],
        bytes[4],
        bytes[5],
    );
    if sum != bytes[6] {
        return Err(Refusal::WrongPacketCrc);
    }
    let fields = fields_in(bytes[4], bytes[5]);
    if !in_range(fields) {
        return Err(Refusal::TriggerFieldOutOfRange);
    }
    let number = number_in(bytes[0], bytes[1], bytes[2], bytes[3]);
    Ok(Packet { number, fields })
}
