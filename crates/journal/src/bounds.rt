// The largest sizes that a line may name, each under one name. specs/Bounds.antt has the same names.

// The most entities of a book, and the most contracts.
pub const BOOK_SIDE: usize = 10_000;

// The most places of a book.
pub const BOOK_PLACES: usize = 8_192;

// The most rows that a report is written into.
pub const REPORT_ROWS: usize = 512;
