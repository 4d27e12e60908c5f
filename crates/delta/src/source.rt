// What a delta source is, whatever its make.
ghost use Rattle.std.specs.Prelude.{◌≡◌, ℕ, ℤ, Option};
ghost use Rattle.terms.specs.declared.kind.Kind.{Kind};
ghost use Rattle.delta.specs.Sources.{Lawful};

use terms::kind::Kind;

// A delta or none for each contract number and kind: `answer` is what it means, and keeps the law of each kind.
pub trait Delta {
    ghost answer: { Self → ℕ → Kind → Option ℤ };

    ghost lawful: { (s : Self) (contract : ℕ) (kind : Kind) → Lawful kind (answer s contract kind) };

    // The delta of a contract at its kind.
    fn delta(&self, contract: usize, kind: Kind) -> Option<i32>
        ensures { result ≡ answer self.now contract kind };
}

// A delta source that also tells the minute and the price of its deltas.
pub trait PricedDelta: Delta {
    ghost at: { Self → ℕ };

    ghost worth: { Self → ℕ };

    // The minute, counted from midnight.
    fn minute(&self) -> u64
        ensures { result ≡ at self.now };

    // The price, in paise.
    fn price(&self) -> u64
        ensures { result ≡ worth self.now };
}
