// What a line of the journal says. Deliveries and rows are cursors over the line, and each of their words is a value.
use cover::depository::DepositoryRow;
use tails::Tail;
use terms::command::Command;
use terms::kind::{Contract, Underlying};
use terms::limits::Limits;
use terms::mark::Mark;

// How a book keeps its places.
#[derive(Clone, Copy, PartialEq, Eq, Debug)]
pub enum Layout {
    Grid,
    List,
}

// The book to open.
#[derive(Clone, Copy, PartialEq, Eq, Debug)]
pub struct Book {
    pub layout: Layout,
    pub entities: usize,
    pub contracts: usize,
    pub places: usize,
}

#[derive(Clone, Copy, PartialEq, Eq, Debug)]
pub enum Declaration {
    Book(Book),
    Underlying(Underlying),
    Contract(Contract),
    Limits(Limits),
    Open,
}

// What a source is made from: published deltas, or the settlement's strikes.
#[derive(Clone, Copy, PartialEq, Eq, Debug)]
pub enum Make {
    Published,
    Settlement,
}

// A source of deltas, with its rows: a contract, and its delta or its strike. Here and below no equality and no printing: a cursor
// has neither.
#[derive(Clone, Copy)]
pub struct SourceLine<'a> {
    pub make: Make,
    pub minute: u64,
    pub price: u64,
    pub rows: Tail<'a, (usize, i64)>,
}

// What a settlement takes as cover: the depository's holdings, the cash, or both together.
#[derive(Clone, Copy, PartialEq, Eq, Debug)]
pub enum CoverMake {
    Depository,
    Cash,
    Joint,
}

// What is asked for.
#[derive(Clone, Copy)]
pub enum Question<'a> {
    Quantity {
        entity: usize,
        contract: usize,
    },
    Base {
        entity: usize,
        contract: usize,
    },
    Limit {
        underlying: usize,
    },
    Ban {
        underlying: usize,
    },
    Violated {
        underlying: usize,
        entity: usize,
    },
    Charge {
        underlying: usize,
        entity: usize,
    },
    Notional {
        underlying: usize,
    },
    // No source stands for notional deltas.
    Reading {
        underlying: usize,
        source: Option<SourceLine<'a>>,
    },
    Mark {
        underlying: usize,
        entity: usize,
        mark: Mark,
    },
}

#[derive(Clone, Copy)]
pub enum Line<'a> {
    // No word.
    Blank,
    Declare(Declaration),
    Call(Command),
    SetLimit {
        underlying: usize,
        free_float: u64,
        deliveries: Tail<'a, u64>,
    },
    // The two o'clock source, then the closing source.
    Close {
        underlying: usize,
        two: SourceLine<'a>,
        closing: SourceLine<'a>,
    },
    Snapshot {
        underlying: usize,
        source: SourceLine<'a>,
    },
    Cure {
        underlying: usize,
        source: SourceLine<'a>,
    },
    // An amount in paise.
    Cash {
        entity: usize,
        underlying: usize,
        amount: u64,
    },
    // The next row of the depository.
    Holding(DepositoryRow),
    Settle {
        underlying: usize,
        cover: CoverMake,
    },
    // How many rows the report is written into.
    Report {
        underlying: usize,
        rows: usize,
    },
    Ask(Question<'a>),
}
