// What a close makes of a stock's ban.
ghost use Rattle.std.specs.Prelude.{◌≡◌};
ghost use Rattle.rules.specs.Ban.{begins, ends};
ghost use Rattle.stock.specs.Close.{turn_of, judges, in_force};

use rules::ban;

// What becomes of a stock's ban.
#[derive(Clone, Copy, PartialEq, Eq, Debug)]
pub enum Turn {
    // There is none.
    NoBan,
    // One begins.
    Begins,
    // One holds on.
    Holds,
    // One ends.
    Ends,
}

impl Turn {
    // What the market's open interest makes of a ban, at a limit.
    pub fn decide(banned: bool, limit: u64, interest: u128) -> Turn
        ensures { result ≡ turn_of banned (begins limit interest) (ends limit interest) }
    {
        match banned {
            true if ban::ends(limit, interest) => Turn::Ends,
            true => Turn::Holds,
            false if ban::begins(limit, interest) => Turn::Begins,
            false => Turn::NoBan,
        }
    }

    // Whether there was a ban, so that every entity is judged.
    pub fn judges(self) -> bool
        ensures { result ≡ judges self }
    {
        matches!(self, Turn::Holds | Turn::Ends)
    }

    // Whether there is a ban from now on.
    pub fn in_force(self) -> bool
        ensures { result ≡ in_force self }
    {
        matches!(self, Turn::Begins | Turn::Holds)
    }
}
