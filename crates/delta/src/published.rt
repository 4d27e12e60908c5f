// Deltas that were published, in rows of contract and delta.
ghost use Rattle.std.specs.Prelude.{◌≡◌, Some};
ghost use Rattle.delta.specs.Lawfulness.{admitted_lawful};
ghost use Rattle.delta.specs.Makes.{admitted};

use crate::bounds::DELTA_BOUND;
use crate::quoted::{Quote, Quoted};
use terms::kind::Kind;

// A row is the delta that was published of a contract.
pub type Published<'r, 'a> = Quoted<'r, 'a, i32>;

// A published delta, where it is in the range of its kind.
fn admit(kind: Kind, delta: i32) -> Option<i32>
    ensures { result ≡ admitted kind (Some delta) }
{
    let lawful = match kind {
        Kind::Future => delta == DELTA_BOUND,
        Kind::Call => (0..=DELTA_BOUND).contains(&delta),
        Kind::Put => (-DELTA_BOUND..=0).contains(&delta),
    };
    lawful.then_some(delta)
}

impl Quote for i32 {
    ghost made = { λ _. admitted };

    ghost lawful = { λ _. admitted_lawful };

    fn delta(_price: u64, kind: Kind, row: Option<i32>) -> Option<i32>
        ensures { result ≡ admitted kind row }
    {
        row.and_then(|delta| admit(kind, delta))
    }
}
