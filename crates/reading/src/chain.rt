// The contracts on one underlying.
ghost use Rattle.std.specs.Prelude.{◌≡◌};
ghost use Rattle.reading.specs.Sheets.{within};

use terms::bounds::MOST_CONTRACTS;
use terms::kind::Contract;

// The contracts on one underlying, among all that are listed: its chain, in the market's word.
#[derive(Clone, Copy)]
pub struct Chain<'c> {
    pub contracts: &'c [Contract],
    pub underlying: usize,
}

impl<'c> Chain<'c> {
    // Whether contract `c` is one of them.
    pub fn has(self, c: usize) -> bool
        ensures { result ≡ within self.entry.contracts.now self.entry.underlying c }
    {
        c < MOST_CONTRACTS
            && c < self.contracts.len()
            && self.contracts[c].underlying == self.underlying
    }
}
