// The words at the end of a line, any number of them, each read as a value of one type. specs/Tails.antt says what they are.
#![tactic(auto)]

ghost use Rattle.std.specs.Prelude.{◌≡◌, take, drop, option_map};
ghost use Rattle.std.specs.Iterator.{YieldsFirst, item_count};
ghost use Rattle.text.specs.Words.{to_come};
ghost use Rattle.tails.specs.Tails.{all_are, each_of, words_left, left_of};

use std::marker::PhantomData;
use std::sync::atomic::AtomicPtr;
use text::worded::Worded;
use text::words::Words;

// What is left behind the next `n` words.
pub fn skip(words: Words<'_>, n: usize) -> Words<'_>
    ensures { to_come result ≡ drop n (to_come words.entry) }
{
    let mut rest = words;
    for _ in 0..n {
        rest.next();
    }
    rest
}

// Whether each of the next `n` words is a value of the type.
pub fn all_are<T: Worded + Drop>(words: Words<'_>, n: usize) -> bool
    ensures { result ≡ all_are T.worded (take n (to_come words.entry)) }
{
    words.take(n).all(|word| T::of_word(word).is_some())
}

// The values of the next words of a line, as far as a number of words goes and up to the first that is none. It can be copied, sent to
// another thread and lent to one, whatever the type of its values: none of them is in it.
#[derive_where(Clone, Copy)]
pub struct Tail<'a, T> {
    words: Words<'a>,
    // A count, and no `Take`: it goes to 0 where the values end.
    left: usize,
    // The type of a pointer, which goes to another thread whatever it points to.
    of: PhantomData<AtomicPtr<T>>,
}

impl<'a, T: Worded> Tail<'a, T> {
    // The values of the next `n` words.
    pub fn new(words: Words<'a>, n: usize) -> Tail<'a, T>
        ensures { words_left result ≡ take n (to_come words.entry) }
    {
        Tail {
            words,
            left: n,
            of: PhantomData,
        }
    }

    // The words that are left, as values of another type.
    pub fn read_as<U: Worded>(self) -> Tail<'a, U>
        ensures { words_left result ≡ words_left self.entry }
    {
        Tail::new(self.words, self.left)
    }
}

impl<'a, T: Worded + Drop> Tail<'a, T> {
    // The values of the next `n` words, if each of these is one.
    pub fn checked(words: Words<'a>, n: usize) -> Option<Tail<'a, T>>
        ensures { option_map (left_of T.worded) result ≡ each_of T.worded (take n (to_come words.entry)) }
    {
        all_are::<T>(words, n).then(|| Tail::new(words, n))
    }
}

// The values in the order of the line.
impl<'a, T: Worded + Drop> Iterator for Tail<'a, T> {
    type Item = T;

    ghost next_gives = { YieldsFirst (left_of T.worded) };

    ghost remaining = { item_count (left_of T.worded) };

    fn next(&mut self) -> Option<T> {
        self.left = self.left.checked_sub(1)?;
        let value = T::of_word(self.words.next()?);
        if value.is_none() {
            self.left = 0;
        }
        value
    }
}
