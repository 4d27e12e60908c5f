// A source that looks a contract's row up.
ghost use Rattle.std.specs.Prelude.{◌≡◌, ℕ, ℤ, Option};
ghost use Rattle.terms.specs.declared.kind.Kind.{Kind};
ghost use Rattle.delta.specs.Sources.{Lawful};
ghost use Rattle.delta.specs.Told.{told_by, row_of};

use crate::source::{Delta, PricedDelta};
use book::register::Register;
use terms::kind::Kind;

// What a row tells of a kind at a price: `made` is the delta, and keeps the law.
pub trait Quote: Copy {
    ghost made: { ℕ → Kind → Option Self → Option ℤ };

    ghost lawful: { (price : ℕ) (kind : Kind) (row : Option Self) → Lawful kind (made price kind row) };

    // The delta of a kind at a price, by a contract's row or by none.
    fn delta(price: u64, kind: Kind, row: Option<Self>) -> Option<i32>
        ensures { result ≡ made price kind row };
}

// The rows are kept by contract number.
#[derive(Clone, Copy)]
pub struct Quoted<'r, 'a, V> {
    minute: u64,
    price: u64,
    rows: &'r Register<'a, V>,
}

impl<'r, 'a, V> Quoted<'r, 'a, V> {
    // The source of a minute, a price and rows.
    pub fn new(minute: u64, price: u64, rows: &'r Register<'a, V>) -> Quoted<'r, 'a, V>
        ensures minute { result.minute ≡ minute }
        ensures price { result.price ≡ price }
        ensures rows { result.rows.now ≡ rows.now }
    {
        Quoted {
            minute,
            price,
            rows,
        }
    }
}

impl<'r, 'a, V: Quote> Delta for Quoted<'r, 'a, V> {
    ghost answer = { λ s. (told_by V.made s).delta };

    ghost lawful = { λ s contract kind. V.lawful (told_by V.made s).price kind (row_of s contract) };

    fn delta(&self, contract: usize, kind: Kind) -> Option<i32> {
        // No `From` makes a u64 of a number of type usize; the cast is proved to lose nothing.
        V::delta(self.price, kind, self.rows.find(contract as u64))
    }
}

impl<'r, 'a, V: Quote> PricedDelta for Quoted<'r, 'a, V> {
    ghost at = { λ s. (told_by V.made s).minute };

    ghost worth = { λ s. (told_by V.made s).price };

    fn minute(&self) -> u64 {
        self.minute
    }

    fn price(&self) -> u64 {
        self.price
    }
}
