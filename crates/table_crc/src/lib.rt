// The CRC-8 of slow-control frames and of their replies, four bits at a step with a table of sixteen: the bench unit's soft core has no room for 256
// entries, and eight turns a byte are too many for it (02, e). Packets are written with `crc`, and the packet reader uses `quick_crc`.
#![tactic(auto)]

ghost use Rattle.std.specs.Prelude.{◌≡◌};
ghost use Rattle.crc.specs.Crc.{crc_bits, crc_byte, crc};
ghost use Rattle.table_crc.specs.CodeShape.{table_of_sixteen};

// What four single-bit steps make of a register whose high half is the entry's number, and whose low half is 0.
const TABLE: [u8; 16] = [0, 7, 14, 9, 28, 27, 18, 21, 56, 63, 54, 49, 36, 35, 42, 45];

// The register after four bits, by one lookup: its low half moves up, and its high half adds its entry. The table is lent, so that it is laid out once
// for a CRC and not at each lookup.
fn after_four_bits(table: &[u8; 16], register: u8) -> u8
    requires { table.now ≡ table_of_sixteen }
    ensures { result ≡ crc_bits 4 register }
{
    (register << 4) ^ table[(register >> 4) as usize]
}

// The register after a byte: a lookup for its high half, and one for its low half with what the high half left.
fn after_byte(table: &[u8; 16], register: u8, byte: u8) -> u8
    requires { table.now ≡ table_of_sixteen }
    ensures { result ≡ crc_byte register byte }
{
    let high = after_four_bits(table, register ^ byte);
    after_four_bits(table, high)
}

// The CRC of bytes from a start.
pub fn crc8(start: u8, bytes: &[u8]) -> u8
    ensures { result ≡ crc start bytes.now }
{
    let table = TABLE;
    let mut register = start;
    for byte in bytes {
        register = after_byte(&table, register, *byte);
    }
    register
}
