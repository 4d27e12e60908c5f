// What a call was answered. specs/Told.antt has the text.
ghost use Rattle.std.specs.Prelude.{Some};
ghost use Rattle.replies.specs.Told.{answer_of};

use std::fmt;
use terms::refusal::Refusal;

// What a call was answered.
#[derive(Clone, Copy, PartialEq, Eq, Debug)]
pub struct Told(pub Result<i64, Refusal>);

impl fmt::Display for Told {
    ghost output = { λ told. Some (answer_of told.0) };

    fn fmt<W: fmt::Write>(&self, f: &mut fmt::Formatter<W>) -> fmt::Result {
        match self.0 {
            Ok(answer) => write!(f, "ok {answer}"),
            Err(refusal) => write!(f, "refused {refusal}"),
        }
    }
}
