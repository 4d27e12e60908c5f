// Exact fractions, so that a limit is rounded once, at the end.
ghost use Rattle.std.specs.Prelude.{◌≡◌, ◌<◌};
ghost use Rattle.rules.specs.Limit.{below, larger, smaller, rounded_down};

#[derive(Clone, Copy)]
pub struct Fraction {
    pub top: u64,
    pub bottom: u64,
}

// An order by three functions: impls from PartialEq to Ord would be four, each with laws that fail where a bottom is 0.
impl Fraction {
    // Whether this one is less.
    fn is_below(self, other: Fraction) -> bool
        ensures { result ≡ below self other }
    {
        u128::from(self.top) * u128::from(other.bottom)
            < u128::from(other.top) * u128::from(self.bottom)
    }

    pub(crate) fn larger(self, other: Fraction) -> Fraction
        ensures { result ≡ larger self other }
    {
        if self.is_below(other) { other } else { self }
    }

    pub(crate) fn smaller(self, other: Fraction) -> Fraction
        ensures { result ≡ smaller self other }
    {
        if self.is_below(other) { self } else { other }
    }

    pub(crate) fn rounded_down(self) -> u64
        requires { 0 < self.bottom }
        ensures { result ≡ rounded_down self }
    {
        self.top / self.bottom
    }
}
