// What refuses a call of an exported function: the number of the refusal, the lowest where several apply, 0 where none does. (Numbers, since the
// exported functions hand them to C.)
#![tactic(auto)]

ghost use Rattle.std.specs.Prelude.{◌≡◌, ◌<◌};
ghost use Rattle.call_refusals.specs.CallRefusals.{lower_of, left_over, no_room, pass_refusal, packets_refusal, triggers_refusal};

// The lower of two refusals' numbers, of which 0 is none.
pub fn lower_of(a: u8, b: u8) -> u8
    ensures { result ≡ lower_of a b }
{
    if a == 0 {
        return b;
    }
    if b == 0 {
        return a;
    }
    if b < a { b } else { a }
}

// 13 where bytes are left over at the end of a series of parts of a size, else 0.
fn left_over(length: usize, size: usize) -> u8
    requires { 0 < size }
    ensures { result ≡ left_over size length }
{
    if length % size == 0 { 0 } else { 13 }
}

// 19 where the lent output is shorter than what is due, else 0.
pub fn no_room(due: usize, length: usize) -> u8
    ensures { result ≡ no_room due length }
{
    if length < due { 19 } else { 0 }
}

// What refuses a pass: its command, items that are not of 29 bytes each, or no room for the count.
pub fn pass_refusal(command: u8, length: usize, room: usize) -> u8
    ensures { result ≡ pass_refusal command length room }
{
    let own = lower_of(command, left_over(length, 29));
    lower_of(own, no_room(1, room))
}

// What refuses the reading of packets: bytes that are not of seven each, or no room for the count.
pub fn packets_refusal(length: usize, room: usize) -> u8
    ensures { result ≡ packets_refusal length room }
{
    lower_of(left_over(length, 7), no_room(1, room))
}

// What refuses `count` triggers: a command before them, or no room for their packets or for their number.
pub fn triggers_refusal(command: u8, count: usize, packets: usize, number: usize) -> u8
    ensures { result ≡ triggers_refusal command count packets number }
{
    let own = lower_of(command, no_room(count, packets / 7));
    lower_of(own, no_room(1, number))
}
