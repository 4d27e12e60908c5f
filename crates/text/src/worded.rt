// What a word may be read as. specs/Worded.antt says what that is.
ghost use Rattle.std.specs.Prelude.{◌≡◌, ℕ, List, Option};
ghost use Rattle.text.specs.Numbers.{number_of};
ghost use Rattle.text.specs.Worded.{unsigned_of, pair_of};

use super::number::{as_unsigned, number};
use super::words::halves;

// A type whose values words stand for.
pub trait Worded {
    ghost worded: { List ℕ → Option Self };

    // The value that the word stands for, if there is one.
    fn of_word(word: &[u8]) -> Option<Self>
    where
        Self: Sized,
        ensures { result ≡ worded word.now };
}

// A number.
impl Worded for i64 {
    ghost worded = { number_of };

    fn of_word(word: &[u8]) -> Option<i64> {
        number(word)
    }
}

// An unsigned number.
impl Worded for usize {
    ghost worded = { unsigned_of };

    fn of_word(word: &[u8]) -> Option<usize> {
        number(word).map(as_unsigned)
    }
}

// An unsigned number. Beside the one for usize: no trait of the library gives a type's largest value.
impl Worded for u64 {
    ghost worded = { unsigned_of };

    fn of_word(word: &[u8]) -> Option<u64> {
        number(word).map(|n| u64::try_from(n).unwrap_or(u64::MAX))
    }
}

// Two values with a colon between.
impl<A: Worded + Drop, B: Worded> Worded for (A, B) {
    ghost worded = { pair_of A.worded B.worded };

    fn of_word(word: &[u8]) -> Option<(A, B)> {
        let (front, behind) = halves(word);
        Some((A::of_word(front)?, B::of_word(behind)?))
    }
}
