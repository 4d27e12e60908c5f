// Words taken from a line, each as what it must be. specs/Taken.antt says what that is.
ghost use Rattle.std.specs.Prelude.{◌≡◌, ℕ, List, take, drop, ok_or, Result};
ghost use Rattle.replies.specs.declared.fault.Fault.TheVariants.{NotNumber};
ghost use Rattle.replies.specs.declared.fault.Fault.{Fault};
ghost use Rattle.journal.specs.Taken.{result_map, counted, beyond, begins, numeral, unsigned_numeral, next_by, ranged, next_up_to, all_read};
ghost use Rattle.tails.specs.Tails.{left_of};
ghost use Rattle.text.specs.Words.{to_come};

use replies::fault::Fault;
use tails::{Tail, skip};
use text::worded::Worded;
use text::words::{Words, is};

// What a word of a line must be, or the fault that the line has where it is not.
// A trait beside text's: the enums of `terms` can be given no trait of `text` here.
pub(crate) trait Field {
    ghost field: { List ℕ → Result Self Fault };

    fn of_word(word: &[u8]) -> Result<Self, Fault>
    where
        Self: Sized,
        ensures { result ≡ field word.now };
}

// A word that must be a number, of any type that a word may be read as.
fn number<T: Worded>(word: &[u8]) -> Result<T, Fault>
    ensures { result ≡ ok_or (T.worded word.now) NotNumber }
{
    T::of_word(word).ok_or(Fault::NotNumber)
}

// One impl for each type: one over every `Worded` would overlap with those of the names.
impl Field for i64 {
    ghost field = { numeral };

    fn of_word(word: &[u8]) -> Result<i64, Fault> {
        number(word)
    }
}

impl Field for usize {
    ghost field = { unsigned_numeral };

    fn of_word(word: &[u8]) -> Result<usize, Fault> {
        number(word)
    }
}

impl Field for u64 {
    ghost field = { unsigned_numeral };

    fn of_word(word: &[u8]) -> Result<u64, Fault> {
        number(word)
    }
}

// Whether exactly `n` words are left.
pub(crate) fn exactly(words: Words<'_>, n: usize) -> Result<(), Fault>
    ensures { result ≡ counted n (to_come words.entry) }
{
    if words.len() == n {
        Ok(())
    } else {
        Err(Fault::WordCount)
    }
}

// How many words of `count` are beyond `n`.
pub(crate) fn at_least(count: usize, n: usize) -> Result<usize, Fault>
    ensures { result ≡ beyond n count }
{
    count.checked_sub(n).ok_or(Fault::WordCount)
}

// Whether the next word is this name.
pub(crate) fn is_next(mut words: Words<'_>, name: &str) -> bool
    ensures { result ≡ begins name.now (to_come words.entry) }
{
    words.next().is_some_and(|word| is(word, name))
}

// Takes the next word, which must be of the type.
pub(crate) fn next<T: Field + Drop>(words: &mut Words<'_>) -> Result<T, Fault>
    ensures value { result ≡ next_by T.field (to_come words.old) }
    ensures rest { to_come words.new ≡ drop 1 (to_come words.old) }
{
    T::of_word(words.next().ok_or(Fault::WordCount)?)
}

// A number from 0 to `most`.
fn within(n: i64, most: usize) -> Result<usize, Fault>
    ensures { result ≡ ranged most n }
{
    usize::try_from(n)
        .ok()
        .filter(|n| *n <= most)
        .ok_or(Fault::OutOfRange)
}

// Takes the next word, which must be a number from 0 to `most`.
pub(crate) fn next_up_to(words: &mut Words<'_>, most: usize) -> Result<usize, Fault>
    ensures value { result ≡ next_up_to most (to_come words.old) }
    ensures rest { to_come words.new ≡ drop 1 (to_come words.old) }
{
    within(next(words)?, most)
}

// Takes the next `n` words, each of which must be a value of the type.
pub(crate) fn next_many<'a, T: Worded + Drop>(
    words: &mut Words<'a>,
    n: usize,
) -> Result<Tail<'a, T>, Fault>
    ensures value { result_map (left_of T.worded) result ≡ all_read T.worded (take n (to_come words.old)) }
    ensures rest { to_come words.new ≡ drop n (to_come words.old) }
{
    let tail = Tail::checked(*words, n);
    *words = skip(*words, n);
    tail.ok_or(Fault::NotNumber)
}
