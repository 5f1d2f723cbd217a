// What is printed for an answer: a refusal, an obeyed command, a served reply, what a writer wrote.
#![tactic(auto)]

ghost use Rattle.refusals.specs.Refusals.{number_of, place_of};
ghost use Rattle.responses.specs.Responses.{refusal_printed, command_printed, Prints, PrintsOutcome, PrintsWrittenBytes, PrintsWrittenWords};
ghost use Rattle.refusals.specs.Tables.{answer_of};

use commands::Command;
use crate_pass::Outcome;
use refusals::Refusal;
use texts::Response;

// A refusal's number, and for 8 the place.
pub fn refusal_response(refusal: Refusal) -> Response
    ensures { Prints result (refusal_printed (number_of refusal) (place_of refusal)) }
{
    match refusal {
        Refusal::AboveBound(place) => Response::Two(8, place),
        _ => Response::One(refusal.number() as usize),
    }
}

// What is printed for a command.
pub fn command_response(answer: Result<Command, Refusal>, used: usize) -> Response
    ensures { Prints result (command_printed used (answer_of answer)) }
{
    match answer {
        Ok(c) => Response::Done(used, c),
        Err(r) => match r {
            Refusal::AboveBound(place) => Response::Three(8, used, place),
            _ => Response::Two(r.number() as usize, used),
        },
    }
}

// What is printed for a reply or a time-up, with the lent bytes beside it.
pub fn outcome_response(answer: Result<Outcome, Refusal>) -> Response
    ensures { PrintsOutcome result (answer_of answer) }
{
    match answer {
        Ok(o) => Response::Served(o),
        Err(r) => refusal_response(r),
    }
}

// Bytes that were written, or why not.
pub fn bytes_response(written: Result<usize, Refusal>) -> Response
    ensures { PrintsWrittenBytes result (answer_of written) }
{
    match written {
        Ok(n) => Response::Bytes(n),
        Err(r) => refusal_response(r),
    }
}

// Words that were written, or why not. (One function that takes the case would be no plainer than two of two lines.)
pub fn words_response(written: Result<usize, Refusal>) -> Response
    ensures { PrintsWrittenWords result (answer_of written) }
{
    match written {
        Ok(n) => Response::Words(n),
        Err(r) => refusal_response(r),
    }
}
