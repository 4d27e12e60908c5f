// Making calls from data.
ghost use Rattle.std.specs.Prelude.{◌≡◌, is_ok, Some};
ghost use Rattle.delta.specs.Sources.{source_of};
ghost use Rattle.model.specs.Calls.{step};
ghost use Rattle.monitor.specs.View.{state_of};
ghost use Rattle.handbook.specs.Replay.{posting, meant, calls, Replayed, too_few};

use crate::request::Request;
use book::position::Book;
use cover::source::Cover;
use delta::source::PricedDelta;
use monitor::state::Monitor;
use std::error::Error;
use std::fmt;
use terms::command::Command;
use terms::refusal::Refusal;

// Makes the call that the command stands for; a match as in `apply`.
fn post<B: Book>(monitor: &mut Monitor<B>, command: Command) -> Result<i64, Refusal>
    ensures step { (result, state_of B.Holds.held monitor.new) ≡ step (state_of B.Holds.held monitor.old) (posting command) }
    ensures same { monitor.new.book.ghost_name ≡ monitor.old.book.ghost_name }
{
    match command {
        Command::Post {
            entity,
            contract,
            change,
        } => monitor.post(entity, contract, change),
        Command::Entry { ticket, trade } => monitor.entry(ticket, trade),
        Command::Confirm { ticket } => monitor.confirm(ticket),
    }
}

// Makes the call that the request stands for. A match, and no closure in each request: requests are data, and the laws speak of
// lists of them.
pub fn apply<B: Book, D: PricedDelta, C: Cover>(
    monitor: &mut Monitor<B>,
    request: &Request<'_, D, C>,
) -> Result<i64, Refusal>
    ensures step { (result, state_of B.Holds.held monitor.new) ≡ step (state_of B.Holds.held monitor.old) (meant (source_of D.Delta.answer D.PricedDelta.at D.PricedDelta.worth) C.Cover.amount request.now) }
    ensures same { monitor.new.book.ghost_name ≡ monitor.old.book.ghost_name }
{
    match request {
        Request::Posting(command) => post(monitor, *command),
        Request::Snapshot { underlying, source } => monitor.snapshot(*underlying, source),
        Request::Cure { underlying, source } => monitor.cure(*underlying, source),
        Request::Settle { underlying, cover } => monitor.settle(*underlying, cover),
        Request::SetLimit {
            underlying,
            free_float,
            deliveries,
        } => monitor.set_limit(*underlying, *free_float, deliveries),
        Request::Close {
            underlying,
            two,
            closing,
        } => monitor.close(*underlying, two, closing),
    }
}

// Fewer rows than calls were handed in.
#[derive(Clone, Copy, PartialEq, Eq, Debug)]
pub struct TooFewRows;

impl fmt::Display for TooFewRows {
    ghost output = { λ _. Some too_few };

    fn fmt<W: fmt::Write>(&self, f: &mut fmt::Formatter<W>) -> fmt::Result {
        f.write_str("fewer rows than calls")
    }
}

impl Error for TooFewRows {}

// Makes the calls in turn and writes what each is answered into the first of the rows; where the rows are too few it makes
// none. What holds of every run stands in the contract beside what this one leaves and tells.
pub fn replay<B: Book, D: PricedDelta, C: Cover>(
    monitor: &mut Monitor<B>,
    requests: &[Request<'_, D, C>],
    answers: &mut [Result<i64, Refusal>],
) -> Result<(), TooFewRows>
    ensures run { Replayed (state_of B.Holds.held monitor.old) (calls (source_of D.Delta.answer D.PricedDelta.at D.PricedDelta.worth) C.Cover.amount requests.now) answers.old (is_ok result) (state_of B.Holds.held monitor.new) answers.new }
    ensures same { monitor.new.book.ghost_name ≡ monitor.old.book.ghost_name }
{
    if requests.len() > answers.len() {
        return Err(TooFewRows);
    }
    // By place: what is written through an adapter of `iter_mut` can't be known.
    for (place, request) in requests.iter().enumerate() {
        answers[place] = apply(monitor, request);
    }
    Ok(())
}
