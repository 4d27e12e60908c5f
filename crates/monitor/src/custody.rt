// Custodial trades: the two postings of a confirmation.
ghost use Rattle.std.specs.Prelude.{◌≡◌, ◌*◌, ◌≤◌, unsigned_abs};
ghost use Rattle.terms.specs.Bounds.{quantity_bound};
ghost use Rattle.model.specs.Custody.{transfer_reply, transferred, leaves};

use book::position::Book;
use terms::command::Trade;
use terms::refusal::Refusal;

// Posts a trade off its member and onto its participant; where the second posting is declined the first is put back.
pub(crate) fn transfer<B: Book>(book: &mut B, trade: Trade) -> Result<i64, Refusal>
    requires { unsigned_abs trade.change ≤ 2 * quantity_bound }
    ensures answer { result ≡ transfer_reply (B.Holds.held book.old) trade }
    ensures state { B.Holds.held book.new ≡ leaves result (B.Holds.held book.old) (transferred (B.Holds.held book.old) trade) }
{
    book.post(trade.member, trade.contract, -trade.change)?;
    let answer = book.post(trade.participant, trade.contract, trade.change);
    if answer.is_err() {
        let _ = book.post(trade.member, trade.contract, trade.change);
    }
    answer
}
