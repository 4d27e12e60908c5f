// How a sheet is made and read.
ghost use Rattle.std.specs.Prelude.{◌≡◌};
ghost use Rattle.reading.specs.Sheets.{weight_of, lacks_delta, delta_in};
ghost use Rattle.reading.specs.Views.{weights_of, lacking_of, deltas_of};

use crate::chain::Chain;
use crate::sheet::Sheet;
use delta::source::Delta;
use std::array;

// What a unit of contract `c` weighs, or none where it lacks a delta.
fn weigh<D: Delta>(source: &D, chain: Chain<'_>, c: usize) -> Option<i32>
    ensures { result ≡ delta_in chain.entry.contracts.now chain.entry.underlying (D.answer source.now) c }
{
    if chain.has(c) {
        source.delta(c, chain.contracts[c].kind)
    } else {
        Some(0)
    }
}

impl Sheet {
    // The sheet of an underlying's contracts at a source.
    pub fn new<D: Delta>(source: &D, chain: Chain<'_>) -> Sheet
        ensures weights { weights_of result ≡ weight_of chain.entry.contracts.now chain.entry.underlying (D.answer source.now) }
        ensures lacking { lacking_of result ≡ lacks_delta chain.entry.contracts.now chain.entry.underlying (D.answer source.now) }
    {
        Sheet {
            deltas: array::from_fn(|c| weigh(source, chain, c)),
        }
    }

    // What a unit of contract `c` weighs, or none where it lacks a delta.
    pub(crate) fn delta(&self, c: usize) -> Option<i32>
        ensures { result ≡ deltas_of self.now c }
    {
        self.deltas.get(c).copied().unwrap_or(Some(0))
    }

    // What a unit of contract `c` weighs.
    pub fn weight(&self, c: usize) -> i32
        ensures { result ≡ weights_of self.now c }
    {
        self.delta(c).unwrap_or(0)
    }

    // Whether contract `c` lacks a delta.
    pub fn lacks(&self, c: usize) -> bool
        ensures { result ≡ lacking_of self.now c }
    {
        self.delta(c).is_none()
    }
}
