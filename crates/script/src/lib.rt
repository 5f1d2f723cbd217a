// The lines of a replay script: a letter and hexadecimal digits, read a character at a time.
#![tactic(auto)]

ghost use Rattle.std.specs.Prelude.{◌≡◌};
ghost use Rattle.script.specs.ByCharacter.{line_begun, order_on, order_bytes_on, read_on, bytes_on};

// The most digits of an order: two make a byte.
const MOST_DIGITS: usize = 4096;

// What a line is as far as it is read.
#[derive(Clone, Copy)]
pub enum Form {
    Empty,
    Comment,
    // A letter and digits.
    Order,
    Malformed,
}

// What is read of a line; the bytes that its digits make stand in an array beside it, which the caller lends and no call copies.
#[derive(Clone, Copy)]
pub struct Reading {
    pub form: Form,
    // Of an order: its letter, and how many digits followed.
    pub letter: u8,
    pub digits: usize,
    // The last digit, where their number is odd.
    pub high: u8,
}

// Nothing is read of a line.
pub fn line_begun() -> Reading
    ensures { result ≡ line_begun }
{
    Reading {
        form: Form::Empty,
        letter: 0,
        digits: 0,
        high: 0,
    }
}

// A character of an order after its letter.
#[tactic(auto, using(crate::proofs::Characters::value_is), unfolding(crate::specs::ByCharacter::order_on, crate::specs::ByCharacter::order_bytes_on))]
fn order_on(reading: Reading, character: u8, bytes: &mut [u8; 2048]) -> Reading
    ensures value { result ≡ order_on reading character }
    ensures bytes_after { bytes.new ≡ order_bytes_on reading character bytes.old }
{
    if character == b' ' {
        return reading;
    }
    let malformed = Reading {
        form: Form::Malformed,
        ..reading
    };
    let Some(digit) = char::from(character).to_digit(16) else {
        return malformed;
    };
    if reading.digits >= MOST_DIGITS {
        return malformed;
    }
    let value = digit as u8;
    if reading.digits % 2 == 1 {
        bytes[reading.digits / 2] = reading.high % 16 * 16 + value;
    }
    Reading {
        form: Form::Order,
        digits: reading.digits + 1,
        high: value,
        ..reading
    }
}

// The next character of a line, which is no line feed.
#[tactic(auto, unfolding(crate::specs::ByCharacter::read_on, crate::specs::ByCharacter::bytes_on))]
pub fn read_on(reading: Reading, character: u8, bytes: &mut [u8; 2048]) -> Reading
    ensures value { result ≡ read_on reading character }
    ensures bytes_after { bytes.new ≡ bytes_on reading character bytes.old }
{
    match reading.form {
        Form::Empty if character == b'#' => Reading {
            form: Form::Comment,
            ..reading
        },
        Form::Empty => Reading {
            form: Form::Order,
            letter: character,
            digits: 0,
            high: 0,
        },
        Form::Order => order_on(reading, character, bytes),
        Form::Comment | Form::Malformed => reading,
    }
}
