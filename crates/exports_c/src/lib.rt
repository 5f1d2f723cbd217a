// The functions of `exports` for programs in C or Rust: each calls the one of its name there, and has its contract.
#![tactic(auto)]

ghost use Rattle.std.specs.Prelude.{◌≡◌};
ghost use Rattle.crc.specs.Crc.{crc};
ghost use Rattle.exports.specs.Exports.{command_given, CountsAccepted, CountsPass, CountsTimeUps, CountsRatePass, MakesSteps};
ghost use Rattle.exports.specs.Exports.{GivesTriggers, CountsPackets, StaticRound};

// The CRC of bytes from a start.
#[unsafe(no_mangle)]
pub extern "C" fn ftm_crc(start: u8, bytes: &[u8]) -> u8
    ensures { result ≡ crc start bytes.now }
{
    exports::ftm_crc(start, bytes)
}

// Reads the first command of words: a refusal's number, 0 where it is read.
#[unsafe(no_mangle)]
pub extern "C" fn ftm_read_command(words: &[u16]) -> u8
    ensures { result ≡ command_given words.now }
{
    exports::ftm_read_command(words)
}

// On a fresh board: how many of `count` commands of the words, one after another, are accepted.
#[unsafe(no_mangle)]
pub extern "C" fn ftm_commands(words: &[u16], count: u64, accepted: &mut [u64]) -> u8
    ensures { CountsAccepted count words.now accepted.old result accepted.new }
{
    exports::ftm_commands(words, count, accepted)
}

// On a fresh board: obeys the first command of the words, then hands in the items, 29 bytes each, a crate's number and a reply of 28
// bytes; each lends `frame` for the next frame. How many replies were good. (On the crates alone.)
#[unsafe(no_mangle)]
pub extern "C" fn ftm_pass(words: &[u16], items: &[u8], frame: &mut [u8], good: &mut [u64]) -> u8
    ensures { CountsPass words.now items.now frame.old good.old result frame.new good.new }
{
    exports::ftm_pass(words, items, frame, good)
}

// The same as `ftm_pass`, each item by a call on the whole board.
#[unsafe(no_mangle)]
pub extern "C" fn ftm_replies(words: &[u16], items: &[u8], frame: &mut [u8], good: &mut [u64]) -> u8
    ensures { CountsPass words.now items.now frame.old good.old result frame.new good.new }
{
    exports::ftm_replies(words, items, frame, good)
}

// On a fresh board: obeys the first command of the words, then a time-up on each of the crates in turn, with `frame` lent to each for the
// next frame. How many were served.
#[unsafe(no_mangle)]
pub extern "C" fn ftm_time_ups(
    words: &[u16],
    crates: &[u8],
    frame: &mut [u8],
    served: &mut [u64],
) -> u8
    ensures { CountsTimeUps words.now crates.now frame.old served.old result frame.new served.new }
{
    exports::ftm_time_ups(words, crates, frame, served)
}

// On a fresh board: obeys the first command of the words, lets its pass run out on silent boards, begins a rate pass, then hands in the
// items as `ftm_replies` does. How many replies were good.
#[unsafe(no_mangle)]
pub extern "C" fn ftm_rate_pass(
    words: &[u16],
    items: &[u8],
    frame: &mut [u8],
    good: &mut [u64],
) -> u8
    ensures { CountsRatePass words.now items.now frame.old good.old result frame.new good.new }
{
    exports::ftm_rate_pass(words, items, frame, good)
}

// On a fresh board: obeys two commands of the words, then makes the clock steps, of so many ticks each. The timestamp after each, and
// then the on-time.
#[unsafe(no_mangle)]
pub extern "C" fn ftm_clock_steps(words: &[u16], ticks: &[u32], out: &mut [u64]) -> u8
    ensures { MakesSteps words.now ticks.now out.old result out.new }
{
    exports::ftm_clock_steps(words, ticks, out)
}

// On a fresh board: obeys two commands of the words, then gives `count` triggers of n = 4, or as many as are not refused, whose packets go
// into the lent bytes one after another. How many were given.
#[unsafe(no_mangle)]
pub extern "C" fn ftm_triggers(
    words: &[u16],
    count: usize,
    packets: &mut [u8],
    number: &mut [u64],
) -> u8
    ensures { GivesTriggers words.now count packets.old number.old result packets.new number.new }
{
    exports::ftm_triggers(words, count, packets, number)
}

// How many of the packets, seven bytes each, are good.
#[unsafe(no_mangle)]
pub extern "C" fn ftm_packets(bytes: &[u8], good: &mut [u64]) -> u8
    ensures { CountsPackets bytes.now good.old result good.new }
{
    exports::ftm_packets(bytes, good)
}

// Writes the static block of a board of ID 0 with these words, and reads it back: a refusal's number, 0 where it is written.
#[unsafe(no_mangle)]
pub extern "C" fn ftm_static(block: &[u16], out: &mut [u16]) -> u8
    ensures { StaticRound block.now out.old result out.new }
{
    exports::ftm_static(block, out)
}
