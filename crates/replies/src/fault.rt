// Why a line is malformed. specs/Faults.antt has the reasons.
ghost use Rattle.std.specs.Prelude.{◌≡◌, Some};
ghost use Rattle.replies.specs.Faults.{reason_of};

use std::error::Error;
use std::fmt;

#[derive(Clone, Copy, PartialEq, Eq, Debug)]
pub enum Fault {
    // The bytes are not UTF-8.
    NotText,
    // A word that names a form or a kind is none that is known.
    UnknownWord,
    // Too few words, or too many.
    WordCount,
    // A word that must be a number is none.
    NotNumber,
    // A size that no book can be declared with, or no report be written into.
    OutOfRange,
    // There is no room for another declaration of this kind.
    TooMany,
    // A declaration after `open`.
    AfterOpen,
    // A second book, or second limits.
    Twice,
    // `open` before the book and the limits.
    NothingToOpen,
    // A call or a question before `open`.
    NotOpened,
}

impl Fault {
    // Why the line is malformed.
    pub fn reason(self) -> &'static str
        ensures { result.now ≡ reason_of self }
    {
        match self {
            Fault::NotText => "not text",
            Fault::UnknownWord => "unknown word",
            Fault::WordCount => "wrong number of words",
            Fault::NotNumber => "not a number of 64 signed bits",
            Fault::OutOfRange => "number out of range",
            Fault::TooMany => "too many declared",
            Fault::AfterOpen => "opening line after open",
            Fault::Twice => "declared already",
            Fault::NothingToOpen => "book and limits come before open",
            Fault::NotOpened => "nothing is open yet",
        }
    }
}

impl fmt::Display for Fault {
    ghost output = { λ fault. Some (reason_of fault) };

    fn fmt<W: fmt::Write>(&self, f: &mut fmt::Formatter<W>) -> fmt::Result {
        f.write_str(self.reason())
    }
}

impl Error for Fault {}
