// The far end's letters of a replay script: commands written (`W`), trigger packets read (`X`), blocks read (`Y`).
#![tactic(auto)]

ghost use Rattle.std.specs.Prelude.{◌≡◌, [], ◌≤◌, length};
ghost use Rattle.words.specs.Words.{words_in};
ghost use Rattle.commands.specs.declared.Command.TheVariants.{Write};
ghost use Rattle.responses.specs.Responses.{Prints};
ghost use Rattle.responses.specs.CodeShape.{PrintsInWords};
ghost use Rattle.script.specs.Forms.{one_byte, no_byte, any_words, found};
ghost use Rattle.far_end.specs.FarEnd.{write_command, read_packet, read_block, other_form, read_order, start_order, reset_order};
ghost use Rattle.far_end.specs.FarEnd.{ids, command_from, block_from, far_end_printed, PrintsLine};
ghost use Rattle.far_end.specs.CodeShape.{command_order, AsksKind};

use block_reader::{Kind, body_after, read_block};
use command_writer::write_command;
use commands::{BlockKind, Command, RunLength};
use numbers::number32;
use packet_reader::read_packet;
use responses::{refusal_response, words_response};
use texts::{Response, write_response};
use words::{copy_words, words_from_bytes};

// A read, of the block that a byte says.
fn read_asked(bytes: &[u8]) -> Option<Command>
    ensures { command_order result (words_in bytes.now) ≡ one_byte other_form read_order bytes.now }
{
    if bytes.len() != 1 {
        return None;
    }
    match bytes[0] {
        1 => Some(Command::Read(BlockKind::Static)),
        2 => Some(Command::Read(BlockKind::Dynamic)),
        _ => None,
    }
}

// A write, of the words that the bytes hold.
fn write_asked(bytes: &[u8]) -> Option<Command>
    ensures { command_order result (words_in bytes.now) ≡ any_words other_form (write_command Write) bytes.now }
{
    if bytes.len() % 2 != 0 {
        return None;
    }
    Some(Command::Write)
}

// A start, endless or of X events.
fn start_asked(bytes: &[u8]) -> Option<Command>
    ensures { command_order result (words_in bytes.now) ≡ start_order bytes.now }
{
    if bytes.len() == 0 {
        return Some(Command::Start(RunLength::Endless));
    }
    if bytes.len() != 4 {
        return None;
    }
    let mut w = [0u16; 2];
    let _ = words_from_bytes(bytes, &mut w);
    Some(Command::Start(RunLength::Counted(number32(w[0], w[1]))))
}

// A command that takes nothing.
fn bare_asked(command: Command, bytes: &[u8]) -> Option<Command>
    ensures { command_order result (words_in bytes.now) ≡ no_byte other_form (write_command command []) bytes.now }
{
    if bytes.len() != 0 {
        return None;
    }
    Some(command)
}

// A reset of the crate that a byte says.
fn reset_asked(bytes: &[u8]) -> Option<Command>
    ensures { command_order result (words_in bytes.now) ≡ one_byte other_form reset_order bytes.now }
{
    if bytes.len() != 1 {
        return None;
    }
    Some(Command::CrateReset(bytes[0]))
}

// The command that an ID and the bytes after it ask for.
fn command_asked(id: u8, bytes: &[u8]) -> Option<Command>
    ensures { command_order result (words_in bytes.now) ≡ found other_form ids id bytes.now }
{
    match id {
        0x01 => read_asked(bytes),
        0x02 => write_asked(bytes),
        0x04 => start_asked(bytes),
        0x08 => bare_asked(Command::Stop, bytes),
        0x10 => bare_asked(Command::Ping, bytes),
        0x20 => reset_asked(bytes),
        _ => None,
    }
}

// W: the words of the command that bytes ask for.
fn written_response(bytes: &[u8], out: &mut [u16; 498]) -> Response
    ensures { PrintsInWords result out.new (far_end_printed (command_from bytes.now)) }
{
    if bytes.len() == 0 {
        return Response::Question;
    }
    if 2048 < bytes.len() {
        return Response::Question;
    }
    let rest = &bytes[1..];
    match command_asked(bytes[0], rest) {
        Some(command) => {
            let mut words = [0u16; 1024];
            let _ = words_from_bytes(rest, &mut words);
            let count = rest.len() / 2;
            words_response(write_command(command, &words[..count], out))
        }
        None => Response::Question,
    }
}

// X: the packet that bytes are.
fn packet_response(bytes: &[u8]) -> Response
    ensures { Prints result (far_end_printed (read_packet bytes.now)) }
{
    match read_packet(bytes) {
        Ok(packet) => Response::Packet(packet),
        Err(refusal) => refusal_response(refusal),
    }
}

// The block that words are; its body goes to the front of the lent words.
fn read_response(kind: Kind, words: &[u16], out: &mut [u16; 498]) -> Response
    ensures { PrintsInWords result out.new (far_end_printed (read_block kind words.now)) }
{
    let answer = read_block(kind, words);
    let body = body_after(answer, words);
    copy_words(body, out);
    match answer {
        Ok(header) => Response::Block(header, body.len()),
        Err(refusal) => refusal_response(refusal),
    }
}

// The block of a kind in the words that bytes hold.
fn kind_response(kind: Kind, bytes: &[u8], out: &mut [u16; 498]) -> Response
    requires { length bytes.now ≤ 2047 }
    ensures { PrintsInWords result out.new (far_end_printed (any_words other_form (read_block kind) bytes.now)) }
{
    if bytes.len() % 2 != 0 {
        return Response::Question;
    }
    let mut words = [0u16; 1024];
    let _ = words_from_bytes(bytes, &mut words);
    let count = bytes.len() / 2;
    read_response(kind, &words[..count], out)
}

// The kind that a byte stands for.
fn kind_asked(byte: u8) -> Option<Kind>
    ensures { AsksKind byte result }
{
    match byte {
        1 => Some(Kind::Static),
        2 => Some(Kind::Dynamic),
        3 => Some(Kind::FtuList),
        4 => Some(Kind::Failure),
        _ => None,
    }
}

// Y: the block of the kind that the first byte says.
fn block_response(bytes: &[u8], out: &mut [u16; 498]) -> Response
    ensures { PrintsInWords result out.new (far_end_printed (block_from bytes.now)) }
{
    if bytes.len() == 0 {
        return Response::Question;
    }
    if 2048 < bytes.len() {
        return Response::Question;
    }
    match kind_asked(bytes[0]) {
        Some(kind) => kind_response(kind, &bytes[1..], out),
        None => Response::Question,
    }
}

// The line of `W`, of `X` and of `Y`, at the front of the text; its length.
pub fn serve_command(bytes: &[u8], text: &mut [u8; 2560]) -> usize
    ensures { PrintsLine (command_from bytes.now) text.old result text.new }
{
    let mut words = [0u16; 498];
    let response = written_response(bytes, &mut words);
    write_response(response, &[0u8; 28], &words, text)
}

pub fn serve_packet(bytes: &[u8], text: &mut [u8; 2560]) -> usize
    ensures { PrintsLine (read_packet bytes.now) text.old result text.new }
{
    write_response(packet_response(bytes), &[0u8; 28], &[0u16; 498], text)
}

pub fn serve_block(bytes: &[u8], text: &mut [u8; 2560]) -> usize
    ensures { PrintsLine (block_from bytes.now) text.old result text.new }
{
    let mut words = [0u16; 498];
    let response = block_response(bytes, &mut words);
    write_response(response, &[0u8; 28], &words, text)
}
