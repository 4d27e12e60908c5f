// What a monitor is opened with.
use journal::line::Book;
use terms::limits::Limits;

#[derive(Clone, Copy, PartialEq, Eq, Debug)]
pub struct Opening {
    pub book: Book,
    pub limits: Limits,
}
