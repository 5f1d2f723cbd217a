// The line that is printed for an answer, or to explain a command.
#![tactic(auto)]

ghost use Rattle.std.specs.Prelude.{◌≡◌, List, ℕ, [], ◌∷◌, ◌++◌, map, ◌+◌, ◌*◌, ◌≤◌, ◌<◌, length, take};
ghost use Rattle.explanations.specs.Explaining.{allowed_meaning, reason_meaning, explanation_meaning};
ghost use Rattle.texts.specs.Characters.{ascii};
ghost use Rattle.texts.specs.Texts.{hex_digit, hex_byte, hex_word, decimal, command_text, next_text};
ghost use Rattle.texts.specs.Texts.{done, served, block, packet_numbers, joined, spaced, fields_of, text_of, response_meaning, in_front};
ghost use Rattle.texts.specs.Texts.{kind_text, activity_text, freshness_text, allowed_fields, fault_fields, explanation};
ghost use Rattle.texts.specs.CodeShape.{after_space};

use blocks::Header;
use commands::{BlockKind, Command};
use crate_pass::{Outcome, PassKind};
use explanations::{Activity, Allowed, Explanation, Reason, WordAtFault};
use numbers::words;
use packets::Packet;
use run::Freshness;
use std::marker::Model;

// What is printed. The bytes and words stand in arrays beside it, since memory is fixed.
#[derive(Clone, Copy)]
pub enum Response {
    // A line in another form.
    Question,
    // Decimal numbers: 0 or a refusal's number first.
    One(usize),
    Two(usize, usize),
    Three(usize, usize, usize),
    // An obeyed command: the words used, and what was done.
    Done(usize, Command),
    // A served reply or time-up; where the crate is not done, the bytes are the next frame.
    Served(Outcome),
    // 0, and this many bytes.
    Bytes(usize),
    // 0, and this many words.
    Words(usize),
    // A packet that was read.
    Packet(Packet),
    // A block that was read: its header, and how many of the words are its body.
    Block(Header, usize),
}

// The line that is being written.
#[derive(Drop)]
struct Line {
    characters: [u8; 2560],
    length: usize,
}

// Clauses see the characters that are written.
impl Model for Line {
    ghost Value = { List ℕ };

    ghost view = { λ l. take l.length l.characters };

    ghost invariant = { λ l. l.length ≤ 2560 };
}

impl Line {
    // No character is written yet.
    fn new() -> Line
        ensures { result ≡ [] }
    {
        Line {
            characters: [0; 2560],
            length: 0,
        }
    }

    // Characters after those that are written.
    fn put(&mut self, characters: &[u8])
        requires { length self.old + length characters.now ≤ 2560 }
        ensures { self.new ≡ self.old ++ characters.now }
    {
        self.length = write(&mut self.characters, self.length, characters);
    }

    // A number in decimal.
    fn put_decimal(&mut self, n: u64)
        requires { length self.old + 20 ≤ 2560 }
        ensures text { self.new ≡ self.old ++ decimal n }
        ensures room { length self.new ≤ length self.old + 20 }
    {
        let mut digits = [0u8; 20];
        let count = io::decimal(n, &mut digits);
        self.put(&digits[..count]);
    }

    // Numbers in decimal, one space between.
    fn put_numbers(&mut self, numbers: &[usize])
        requires { length self.old + 21 * length numbers.now ≤ 2560 }
        ensures text { self.new ≡ self.old ++ spaced (map decimal numbers.now) }
        ensures room { length self.new ≤ length self.old + 21 * length numbers.now }
    {
        if let Some((first, rest)) = numbers.split_first() {
            self.put_decimal(*first as u64);
            for number in rest {
                self.put(b" ");
                self.put_decimal(*number as u64);
            }
        }
    }

    // A byte in hexadecimal.
    fn put_hex_byte(&mut self, byte: u8)
        requires { length self.old + 2 ≤ 2560 }
        ensures text { self.new ≡ self.old ++ hex_byte byte }
        ensures room { length self.new ≤ length self.old + 2 }
    {
        self.put(&hex_byte(byte));
    }

    // A word in hexadecimal.
    fn put_hex_word(&mut self, word: u16)
        requires { length self.old + 4 ≤ 2560 }
        ensures text { self.new ≡ self.old ++ hex_word word }
        ensures room { length self.new ≤ length self.old + 4 }
    {
        self.put(&hex_word(word));
    }

    // Bytes in hexadecimal, with nothing between.
    fn put_bytes(&mut self, bytes: &[u8])
        requires { length self.old + 2 * length bytes.now ≤ 2560 }
        ensures text { self.new ≡ self.old ++ joined hex_byte bytes.now }
        ensures room { length self.new ≤ length self.old + 2 * length bytes.now }
    {
        for byte in bytes {
            self.put_hex_byte(*byte);
        }
    }

    // Words in hexadecimal, with nothing between. One function for bytes and words would be no plainer: it needs a trait, with a
    // contract in ghost members, and words go by `write_words`.
    fn put_words(&mut self, words: &[u16])
        requires { length self.old + 4 * length words.now ≤ 2560 }
        ensures text { self.new ≡ self.old ++ joined hex_word words.now }
        ensures room { length self.new ≤ length self.old + 4 * length words.now }
    {
        self.length = write_words(&mut self.characters, self.length, words);
    }

    // Numbers in hexadecimal, a space before each.
    fn put_listed(&mut self, numbers: &[u16])
        requires { length self.old + 5 * length numbers.now ≤ 2560 }
        ensures text { self.new ≡ self.old ++ joined (after_space hex_word) numbers.now }
        ensures room { length self.new ≤ length self.old + 5 * length numbers.now }
    {
        for number in numbers {
            self.put(b" ");
            self.put_hex_word(*number);
        }
    }

    // What was done for a command.
    fn put_command(&mut self, command: Command)
        requires { length self.old + 26 ≤ 2560 }
        ensures text { self.new ≡ self.old ++ command_text command }
        ensures room { length self.new ≤ length self.old + 26 }
    {
        match command {
            Command::Read(BlockKind::Static) => self.put(b"read static"),
            Command::Read(BlockKind::Dynamic) => self.put(b"read dynamic"),
            Command::Write => self.put(b"write"),
            Command::Start(_) => self.put(b"start"),
            Command::Stop => self.put(b"stop"),
            Command::Ping => self.put(b"ping"),
            Command::CrateReset(number) => {
                self.put(b"reset ");
                self.put_decimal(u64::from(number));
            }
        }
    }

    // An obeyed command.
    fn put_obeyed(&mut self, used: usize, command: Command)
        requires { length self.old + 49 ≤ 2560 }
        ensures text { self.new ≡ self.old ++ spaced (fields_of (done used command)) }
        ensures room { length self.new ≤ length self.old + 49 }
    {
        self.put(b"0 ");
        self.put_decimal(used as u64);
        self.put(b" ");
        self.put_command(command);
    }

    // What stands in front, and then the next frame, or "done".
    fn put_next(&mut self, front: &[u8], done: bool, frame: &[u8])
        requires front { length front.now ≤ 9 }
        requires frame { length frame.now ≤ 28 }
        requires room { length self.old + 65 ≤ 2560 }
        ensures text { self.new ≡ self.old ++ (front.now ++ next_text done frame.now) }
        ensures room { length self.new ≤ length self.old + 65 }
    {
        self.put(front);
        if done {
            self.put(b"done");
        } else {
            self.put_bytes(frame);
        }
    }

    // A served reply or time-up, with the frame that is next unless the crate is done.
    fn put_served(&mut self, outcome: Outcome, frame: &[u8])
        requires frame { length frame.now ≤ 28 }
        requires room { length self.old + 65 ≤ 2560 }
        ensures text { self.new ≡ self.old ++ spaced (fields_of (served outcome frame.now)) }
        ensures room { length self.new ≤ length self.old + 65 }
    {
        match outcome {
            Outcome::Good(done) => self.put_next(b"0 good ", done, frame),
            Outcome::Again(done) => self.put_next(b"0 again ", done, frame),
            Outcome::BoardFailed(done) => self.put_next(b"0 failed ", done, frame),
        }
    }

    // A block that was read: its header and its body.
    fn put_block(&mut self, h: Header, body: &[u16])
        requires body { length body.now ≤ 498 }
        requires room { length self.old + 2058 ≤ 2560 }
        ensures text { self.new ≡ self.old ++ spaced (fields_of (block h body.now)) }
        ensures room { length self.new ≤ length self.old + 2058 }
    {
        self.put(b"0 ");
        self.put_words(&words::<4>(h.board_id));
        self.put(b" ");
        self.put_hex_word(h.firmware_id);
        self.put(b" ");
        self.put_decimal(u64::from(h.trigger_counter));
        self.put(b" ");
        self.put_decimal(h.timestamp);
        self.put(b" ");
        self.put_words(body);
    }

    // The fields of what is printed.
    fn put_response(&mut self, response: Response, bytes: &[u8; 28], words: &[u16; 498])
        requires { length self.old + 2058 ≤ 2560 }
        ensures text { self.new ≡ self.old ++ spaced (fields_of (response_meaning response bytes.now words.now)) }
        ensures room { length self.new ≤ length self.old + 2058 }
    {
        match response {
            Response::Question => self.put(b"?"),
            Response::One(a) => self.put_numbers(&[a]),
            Response::Two(a, b) => self.put_numbers(&[a, b]),
            Response::Three(a, b, c) => self.put_numbers(&[a, b, c]),
            Response::Done(used, command) => self.put_obeyed(used, command),
            Response::Served(outcome) => self.put_served(outcome, bytes),
            Response::Bytes(count) => {
                self.put(b"0 ");
                self.put_bytes(prefix(bytes, count));
            }
            Response::Words(count) => {
                self.put(b"0 ");
                self.put_words(prefix(words, count));
            }
            Response::Packet(p) => self.put_numbers(&packet_numbers(p)),
            Response::Block(h, count) => self.put_block(h, prefix(words, count)),
        }
    }

    // What the board does.
    fn put_activity(&mut self, activity: Activity)
        requires { length self.old + 25 ≤ 2560 }
        ensures text { self.new ≡ self.old ++ activity_text activity }
        ensures room { length self.new ≤ length self.old + 25 }
    {
        match activity {
            Activity::Idle => self.put(b"idle"),
            Activity::Running => self.put(b"running"),
            Activity::InPass(kind) => self.put(kind_name(kind)),
            Activity::RunningInPass(kind) => {
                self.put(b"running and ");
                self.put(kind_name(kind));
            }
        }
    }

    // All that is allowed at a place.
    fn put_allowed(&mut self, allowed: Allowed, listed: &[u16])
        requires listed { length listed.now ≤ 8 }
        requires room { length self.old + 47 ≤ 2560 }
        ensures text { self.new ≡ self.old ++ spaced (ascii "allowed" ∷ allowed_fields (allowed_meaning allowed listed.now)) }
        ensures room { length self.new ≤ length self.old + 47 }
    {
        self.put(b"allowed");
        match allowed {
            Allowed::Numbers(count) => self.put_listed(prefix(listed, count)),
            Allowed::Range(low, high) => {
                self.put(b" ");
                self.put_hex_word(low);
                self.put(b" to ");
                self.put_hex_word(high);
            }
        }
    }

    // A word at fault, after what stands in front.
    fn put_fault(&mut self, front: &[u8], f: WordAtFault, listed: &[u16])
        requires front { length front.now ≤ 13 }
        requires listed { length listed.now ≤ 8 }
        requires room { length self.old + 90 ≤ 2560 }
        ensures text { self.new ≡ self.old ++ (front.now ++ spaced (fault_fields f.place f.stands (allowed_meaning f.allowed listed.now))) }
        ensures room { length self.new ≤ length self.old + 90 }
    {
        self.put(front);
        self.put_decimal(f.place as u64);
        self.put(b" is ");
        self.put_hex_word(f.stands);
        self.put(b", ");
        self.put_allowed(f.allowed, listed);
    }

    // Why a command gets its answer.
    #[tactic(auto, using(crate::proofs::Laws::digit, crate::proofs::Laws::ten))]
    fn put_reason(&mut self, reason: Reason, listed: &[u16; 8])
        requires { length self.old + 90 ≤ 2560 }
        ensures text { self.new ≡ self.old ++ spaced (fields_of (explanation (reason_meaning reason listed.now))) }
        ensures room { length self.new ≤ length self.old + 90 }
    {
        match reason {
            Reason::Accepted => self.put(b"0 accepted"),
            Reason::TooFewWords(missing) => {
                self.put(b"1 missing ");
                self.put_decimal(missing as u64);
            }
            Reason::WrongFirstWord(f) => self.put_fault(b"2 word ", f, listed),
            Reason::UnknownCommand(f) => self.put_fault(b"3 word ", f, listed),
            Reason::UnlistedParameter(f) => self.put_fault(b"4 word ", f, listed),
            Reason::SpareWordNotZero(f) => self.put_fault(b"5 word ", f, listed),
            Reason::WrongLength(missing) => {
                self.put(b"6 missing ");
                self.put_decimal(missing as u64);
            }
            Reason::NoEvents(f) => self.put_fault(b"7 word ", f, listed),
            Reason::AboveBound(f) => self.put_fault(b"8 block word ", f, listed),
            Reason::NotAcceptedNow(activity) => {
                self.put(b"9 ");
                self.put_activity(activity);
            }
            Reason::NotFresh(freshness) => {
                self.put(b"10 ");
                self.put(freshness_name(freshness));
            }
        }
    }

    // The line at the front of the text; its length.
    fn copy_to(&self, text: &mut [u8; 2560]) -> usize
        ensures value { result ≡ length self.now }
        ensures text_after { text.new ≡ in_front self.now text.old }
    {
        text[..self.length].copy_from_slice(&self.characters[..self.length]);
        self.length
    }
}

// A hexadecimal digit, in capitals.
fn hex_digit(d: u8) -> u8
    requires { d < 16 }
    ensures { result ≡ hex_digit d }
{
    if d < 10 { b'0' + d } else { b'A' + (d - 10) }
}

// A byte's hexadecimal digits.
fn hex_byte(byte: u8) -> [u8; 2]
    ensures { result ≡ hex_byte byte }
{
    [hex_digit(byte / 16), hex_digit(byte % 16)]
}

// A word's hexadecimal digits.
fn hex_word(word: u16) -> [u8; 4]
    ensures { result ≡ hex_word word }
{
    let [high, low] = word.to_be_bytes();
    let [a, b] = hex_byte(high);
    let [c, d] = hex_byte(low);
    [a, b, c, d]
}

// Characters at a place of a text; the place after them.
fn write(text: &mut [u8; 2560], at: usize, characters: &[u8]) -> usize
    requires { at + length characters.now ≤ 2560 }
    ensures place { result ≡ at + length characters.now }
    ensures text_after { take result text.new ≡ take at text.old ++ characters.now }
{
    let end = at + characters.len();
    text[at..end].copy_from_slice(characters);
    end
}

// Words in hexadecimal from a place of a text on; the place after them. (The place is a local, so that the compiler takes several words at once: word
// by word through the line, 447 of them took half as long again.)
fn write_words(text: &mut [u8; 2560], from: usize, words: &[u16]) -> usize
    requires { from + 4 * length words.now ≤ 2560 }
    ensures place { result ≡ from + 4 * length words.now }
    ensures text_after { take result text.new ≡ take from text.old ++ joined hex_word words.now }
{
    let mut at = from;
    for word in words {
        at = write(text, at, &hex_word(*word));
    }
    at
}

// As many of the items, or all.
fn prefix<T>(items: &[T], count: usize) -> &[T]
    ensures { result.now ≡ take count items.now }
{
    &items[..count.min(items.len())]
}

// The numbers that are printed for a packet.
fn packet_numbers(p: Packet) -> [usize; 10]
    ensures { result ≡ packet_numbers p }
{
    let f = p.fields;
    [
        0,
        p.number as usize,
        usize::from(f.n),
        usize::from(f.external1),
        usize::from(f.external2),
        usize::from(f.tim_source),
        usize::from(f.pulser_setting),
        usize::from(f.pedestal),
        usize::from(f.lp2),
        usize::from(f.lp1),
    ]
}

// The kind of a pass.
fn kind_name(kind: PassKind) -> &'static [u8]
    ensures name { result.now ≡ kind_text kind }
    ensures room { length result.now ≤ 13 }
{
    match kind {
        PassKind::Reprogramming => b"reprogramming",
        PassKind::Ping => b"ping",
        PassKind::Rates => b"rates",
    }
}

// What became of the last write.
fn freshness_name(freshness: Freshness) -> &'static [u8]
    ensures name { result.now ≡ freshness_text freshness }
    ensures room { length result.now ≤ 15 }
{
    match freshness {
        Freshness::NeverWritten => b"nothing written",
        Freshness::Fresh => b"fresh",
        Freshness::UsedByRun => b"used by a run",
        Freshness::UsedByReset => b"used by a reset",
    }
}

// The line that is printed, at the front of the text; its length.
#[tactic(auto, unfolding(crate::specs::Texts::text_of))]
pub fn write_response(
    response: Response,
    bytes: &[u8; 28],
    words: &[u16; 498],
    text: &mut [u8; 2560],
) -> usize
    ensures value { result ≡ length (text_of (response_meaning response bytes.now words.now)) }
    ensures text_after { text.new ≡ in_front (text_of (response_meaning response bytes.now words.now)) text.old }
{
    let mut line = Line::new();
    line.put_response(response, bytes, words);
    line.put(b"\n");
    line.copy_to(text)
}

// The line that explains a command, at the front of the text; its length.
#[tactic(auto, unfolding(crate::specs::Texts::text_of))]
pub fn write_explanation(e: Explanation, text: &mut [u8; 2560]) -> usize
    ensures value { result ≡ length (text_of (explanation (explanation_meaning e))) }
    ensures text_after { text.new ≡ in_front (text_of (explanation (explanation_meaning e))) text.old }
{
    let mut line = Line::new();
    line.put_reason(e.reason, &e.listed);
    line.put(b"\n");
    line.copy_to(text)
}
