// A replay script's lines, served on a board: what the replay program decides.
#![tactic(auto)]

ghost use Rattle.std.specs.Prelude.{◌≡◌, ◌≤◌, min, length};
ghost use Rattle.script.specs.Script.{order, malformed};
ghost use Rattle.script.specs.ByCharacter.{order_in, line_in};
ghost use Rattle.texts.specs.Texts.{response_meaning};
ghost use Rattle.responses.specs.Responses.{Prints};
ghost use Rattle.responses.specs.CodeShape.{PrintsInBytes, PrintsInWords};
ghost use Rattle.script.specs.Forms.{one_byte, no_byte, any_words};
ghost use Rattle.exchange.specs.Orders.{command, time_up, begin_rates, first_frame, frames_sent, static, ftu_list, failure, dynamic, explain, other_form};
ghost use Rattle.exchange.specs.Orders.{are_flags, are_fields, fields_from, power_up_order, clock_order, trigger_order, reply_from};
ghost use Rattle.exchange.specs.Exchange.{printed_answer, ServesLine};
ghost use Rattle.exchange.specs.CodeShape.{board_order, asked_by, event_order, Answers, AnswersInBytes, AnswersBoth, ServesOrder};

use board::{Board, power_up};
use far_end::{serve_block, serve_command, serve_packet};
use numbers::{number32, number64};
use packets::Fields;
use responses::{
    bytes_response, command_response, outcome_response, refusal_response, words_response,
};
use script::{Form, Reading};
use steps::Event;
use texts::{Response, write_explanation, write_response};
use words::words_from_bytes;

// What an order gets, with the board after it.
#[derive(Clone, Copy)]
struct Answered {
    pub response: Response,
    pub board: Board,
}

// A line served: how much of the text is printed, and the board after it.
#[derive(Clone, Copy)]
pub struct ServedLine {
    pub length: usize,
    pub board: Board,
}

// ---- orders that may change the board

// A line in another form: `?`, and the board that stood there.
fn other_form(board: Board) -> Answered
    ensures { Answers board other_form result }
{
    Answered {
        response: Response::Question,
        board,
    }
}

// P: the board ID in four words, the firmware ID in one.
fn power_up_order(board: Board, bytes: &[u8]) -> Answered
    ensures { Answers board (power_up_order bytes.now) result }
{
    if bytes.len() != 10 {
        return other_form(board);
    }
    let mut w = [0u16; 5];
    let _ = words_from_bytes(bytes, &mut w);
    let up = power_up(number64(w[0], w[1], w[2], w[3]), w[4]);
    match up.answer {
        Ok(()) => Answered {
            response: Response::One(0),
            board: up.board,
        },
        Err(refusal) => Answered {
            response: refusal_response(refusal),
            board,
        },
    }
}

// C: the first command of the words is obeyed.
fn command_order(board: Board, bytes: &[u8]) -> Answered
    requires { length bytes.now ≤ 2048 }
    ensures { Answers board (any_words other_form command bytes.now) result }
{
    if bytes.len() % 2 != 0 {
        return other_form(board);
    }
    let mut words = [0u16; 1024];
    let _ = words_from_bytes(bytes, &mut words);
    let count = bytes.len() / 2;
    let done = board.obey(&words[..count]);
    Answered {
        response: command_response(done.answer, done.used),
        board: done.board,
    }
}

// K: the ticks of a clock step in two words.
fn clock_order(board: Board, bytes: &[u8]) -> Answered
    ensures { Answers board (clock_order bytes.now) result }
{
    if bytes.len() != 4 {
        return other_form(board);
    }
    let mut w = [0u16; 2];
    let _ = words_from_bytes(bytes, &mut w);
    Answered {
        response: Response::One(0),
        board: board.clock(number32(w[0], w[1])),
    }
}

// Whether three bytes are flags.
fn are_flags(a: u8, b: u8, c: u8) -> bool
    ensures { result ≡ are_flags a b c }
{
    if 1 < a {
        return false;
    }
    if 1 < b {
        return false;
    }
    c <= 1
}

// Whether bytes are a trigger's fields.
fn are_fields(b: &[u8]) -> bool
    ensures { result ≡ are_fields b.now }
{
    if b.len() != 8 {
        return false;
    }
    if are_flags(b[1], b[2], b[3]) {
        return are_flags(b[5], b[6], b[7]);
    }
    false
}

// A trigger's fields, a byte each.
fn fields_from(b: &[u8]) -> Fields
    requires { length b.now ≡ 8 }
    ensures { result ≡ fields_from b.now }
{
    Fields {
        n: b[0],
        external1: b[1] == 1,
        external2: b[2] == 1,
        tim_source: b[3] == 1,
        pulser_setting: b[4],
        pedestal: b[5] == 1,
        lp2: b[6] == 1,
        lp1: b[7] == 1,
    }
}

// G: a trigger.
fn trigger_order(board: Board, bytes: &[u8], out: &mut [u8; 28]) -> Answered
    ensures { AnswersInBytes board (trigger_order bytes.now) result out.new }
{
    if are_fields(bytes) {
        let triggered = board.trigger(fields_from(bytes), out);
        return Answered {
            response: bytes_response(triggered.answer),
            board: triggered.board,
        };
    }
    other_form(board)
}

// A reply or a time-up on a crate; the next frame goes into the lent bytes.
fn event_order(board: Board, index: u8, event: Event, bytes: &[u8], out: &mut [u8; 28]) -> Answered
    ensures { AnswersInBytes board (event_order event index bytes.now) result out.new }
{
    let replied = board.hand_in(index, event, bytes, out);
    Answered {
        response: outcome_response(replied.answer),
        board: replied.board,
    }
}

// R: a reply on a crate.
fn reply_order(board: Board, bytes: &[u8], out: &mut [u8; 28]) -> Answered
    ensures { AnswersInBytes board (reply_from bytes.now) result out.new }
{
    if bytes.len() == 0 {
        return other_form(board);
    }
    event_order(board, bytes[0], Event::Reply, &bytes[1..], out)
}

// T: a time-up on a crate, which has no bytes.
fn time_up_order(board: Board, bytes: &[u8], out: &mut [u8; 28]) -> Answered
    ensures { AnswersInBytes board (one_byte other_form time_up bytes.now) result out.new }
{
    if bytes.len() != 1 {
        return other_form(board);
    }
    event_order(board, bytes[0], Event::TimeUp, &bytes[1..], out)
}

// B: the begin of a rate pass.
fn begin_rates_order(board: Board, bytes: &[u8]) -> Answered
    ensures { Answers board (no_byte other_form begin_rates bytes.now) result }
{
    if bytes.len() != 0 {
        return other_form(board);
    }
    let begun = board.begin_rate_pass();
    match begun.answer {
        Ok(()) => Answered {
            response: Response::One(0),
            board: begun.board,
        },
        Err(refusal) => Answered {
            response: refusal_response(refusal),
            board: begun.board,
        },
    }
}

// ---- orders that only ask

// F: the first frame of the pass on a crate.
fn frame_order(board: Board, bytes: &[u8], out: &mut [u8; 28]) -> Response
    ensures { PrintsInBytes result out.new (printed_answer board (one_byte other_form first_frame bytes.now)) }
{
    if bytes.len() != 1 {
        return Response::Question;
    }
    bytes_response(board.first_frame(bytes[0], out))
}

// N: the number of frames sent on a crate.
fn frames_sent_order(board: Board, bytes: &[u8]) -> Response
    ensures { Prints result (printed_answer board (one_byte other_form frames_sent bytes.now)) }
{
    if bytes.len() != 1 {
        return Response::Question;
    }
    match board.frames_sent(bytes[0]) {
        Ok(n) => Response::Two(0, n as usize),
        Err(r) => refusal_response(r),
    }
}

// S: the static block.
fn static_order(board: Board, bytes: &[u8], out: &mut [u16; 498]) -> Response
    ensures { PrintsInWords result out.new (printed_answer board (no_byte other_form static bytes.now)) }
{
    if bytes.len() != 0 {
        return Response::Question;
    }
    words_response(board.static_block(out))
}

// L: the FTU list.
fn list_order(board: Board, bytes: &[u8], out: &mut [u16; 498]) -> Response
    ensures { PrintsInWords result out.new (printed_answer board (no_byte other_form ftu_list bytes.now)) }
{
    if bytes.len() != 0 {
        return Response::Question;
    }
    words_response(board.ftu_list(out))
}

// M: the failure message of an ordinal.
fn failure_order(board: Board, bytes: &[u8], out: &mut [u16; 498]) -> Response
    ensures { PrintsInWords result out.new (printed_answer board (one_byte other_form failure bytes.now)) }
{
    if bytes.len() != 1 {
        return Response::Question;
    }
    words_response(board.failure_message(bytes[0] as usize, out))
}

// D: the dynamic block with these temperatures.
fn dynamic_order(board: Board, bytes: &[u8], out: &mut [u16; 498]) -> Response
    requires { length bytes.now ≤ 2048 }
    ensures { PrintsInWords result out.new (printed_answer board (any_words other_form dynamic bytes.now)) }
{
    if bytes.len() % 2 != 0 {
        return Response::Question;
    }
    let mut words = [0u16; 1024];
    let _ = words_from_bytes(bytes, &mut words);
    let count = bytes.len() / 2;
    words_response(board.dynamic_block(&words[..count], out))
}

// An order that only asks, or a letter that is none.
fn ask(
    board: Board,
    letter: u8,
    bytes: &[u8],
    out: &mut [u8; 28],
    words: &mut [u16; 498],
) -> Response
    requires { length bytes.now ≤ 2048 }
    ensures { response_meaning result out.new words.new ≡ printed_answer board (asked_by letter bytes.now) }
{
    match letter {
        b'F' => frame_order(board, bytes, out),
        b'N' => frames_sent_order(board, bytes),
        b'S' => static_order(board, bytes, words),
        b'L' => list_order(board, bytes, words),
        b'M' => failure_order(board, bytes, words),
        b'D' => dynamic_order(board, bytes, words),
        _ => Response::Question,
    }
}

// An order on the board, by its letter.
fn serve_order(
    board: Board,
    letter: u8,
    bytes: &[u8],
    out: &mut [u8; 28],
    words: &mut [u16; 498],
) -> Answered
    requires { length bytes.now ≤ 2048 }
    ensures { AnswersBoth board (board_order letter bytes.now) result out.new words.new }
{
    match letter {
        b'P' => power_up_order(board, bytes),
        b'C' => command_order(board, bytes),
        b'K' => clock_order(board, bytes),
        b'G' => trigger_order(board, bytes, out),
        b'R' => reply_order(board, bytes, out),
        b'T' => time_up_order(board, bytes, out),
        b'B' => begin_rates_order(board, bytes),
        _ => Answered {
            response: ask(board, letter, bytes, out, words),
            board,
        },
    }
}

// A line in another form.
fn question(board: Board, text: &mut [u8; 2560]) -> ServedLine
    ensures { ServesLine board malformed text.old result text.new }
{
    ServedLine {
        length: write_response(Response::Question, &[0u8; 28], &[0u16; 498], text),
        board,
    }
}

// An order on the board, or a letter that is none.
fn serve_on_board(board: Board, letter: u8, bytes: &[u8], text: &mut [u8; 2560]) -> ServedLine
    requires { length bytes.now ≤ 2048 }
    ensures { ServesOrder board (board_order letter bytes.now) text.old result text.new }
{
    let mut out = [0u8; 28];
    let mut words = [0u16; 498];
    let answered = serve_order(board, letter, bytes, &mut out, &mut words);
    ServedLine {
        length: write_response(answered.response, &out, &words, text),
        board: answered.board,
    }
}

// E: why the first command of the words would be accepted or refused.
fn explain_order(board: Board, bytes: &[u8], text: &mut [u8; 2560]) -> ServedLine
    requires { length bytes.now ≤ 2048 }
    ensures { ServesOrder board (any_words other_form explain bytes.now) text.old result text.new }
{
    if bytes.len() % 2 != 0 {
        return question(board, text);
    }
    let mut words = [0u16; 1024];
    let _ = words_from_bytes(bytes, &mut words);
    let count = bytes.len() / 2;
    let explanation = board.explain(&words[..count]);
    ServedLine {
        length: write_explanation(explanation, text),
        board,
    }
}

// An order, by its letter: the far end's three do not reach the board.
fn serve_letter(board: Board, letter: u8, bytes: &[u8], text: &mut [u8; 2560]) -> ServedLine
    requires { length bytes.now ≤ 2048 }
    ensures { ServesLine board (order letter bytes.now) text.old result text.new }
{
    match letter {
        b'W' => ServedLine {
            length: serve_command(bytes, text),
            board,
        },
        b'X' => ServedLine {
            length: serve_packet(bytes, text),
            board,
        },
        b'Y' => ServedLine {
            length: serve_block(bytes, text),
            board,
        },
        b'E' => explain_order(board, bytes, text),
        _ => serve_on_board(board, letter, bytes, text),
    }
}

// An order that is read.
fn serve_read(board: Board, reading: Reading, bytes: &[u8], text: &mut [u8; 2560]) -> ServedLine
    ensures { ServesLine board (order_in reading bytes.now) text.old result text.new }
{
    if 4096 < reading.digits {
        return question(board, text);
    }
    if reading.digits % 2 != 0 {
        return question(board, text);
    }
    let count = (reading.digits / 2).min(bytes.len());
    serve_letter(board, reading.letter, &bytes[..count], text)
}

// A line, once it is read: what is printed goes to the front of the text.
pub fn serve_line(board: Board, reading: Reading, bytes: &[u8], text: &mut [u8; 2560]) -> ServedLine
    ensures { ServesLine board (line_in reading bytes.now) text.old result text.new }
{
    match reading.form {
        Form::Empty => ServedLine { length: 0, board },
        Form::Comment => ServedLine { length: 0, board },
        Form::Order => serve_read(board, reading, bytes, text),
        Form::Malformed => question(board, text),
    }
}
