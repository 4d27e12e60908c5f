// What is traded, and on what.

#[derive(Clone, Copy, PartialEq, Eq, Debug)]
pub enum Kind {
    Future,
    Call,
    Put,
}

#[derive(Clone, Copy, PartialEq, Eq, Debug)]
pub enum Underlying {
    Index,
    Stock,
}

// A contract names its underlying by number.
#[derive(Clone, Copy, PartialEq, Eq, Debug)]
pub struct Contract {
    pub underlying: usize,
    pub kind: Kind,
}
