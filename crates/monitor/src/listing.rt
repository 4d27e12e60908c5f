// What a monitor is opened over.
ghost use Rattle.std.specs.Prelude.{◌≡◌, ◌<◌};
ghost use Rattle.terms.specs.Bounds.{most_underlyings};

use reading::chain::Chain;
use terms::kind::{Contract, Underlying};
use terms::limits::Limits;

// What is watched: the book's numbers of entities and contracts, the contracts and the underlyings.
#[derive(Clone, Copy)]
pub struct Listing<'t> {
    pub(crate) entities: usize,
    pub(crate) places: usize,
    pub(crate) contracts: &'t [Contract],
    pub(crate) underlyings: &'t [Underlying],
}

// What is watched, and the two limits.
#[derive(Clone, Copy)]
pub struct Terms<'t> {
    pub(crate) listing: Listing<'t>,
    pub(crate) limits: Limits,
}

// The number of an underlying that is listed.
#[derive(Clone, Copy)]
pub(crate) struct UnderlyingNumber {
    pub(crate) number: usize,
    ghost below: { number < most_underlyings },
}

impl<'t> Listing<'t> {
    // The contracts on one underlying.
    pub(crate) fn chain(self, underlying: usize) -> Chain<'t>
        ensures contracts { result.contracts.now ≡ self.entry.contracts.now }
        ensures underlying { result.underlying ≡ underlying }
    {
        Chain {
            contracts: self.contracts,
            underlying,
        }
    }
}
