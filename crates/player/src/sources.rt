// Delta sources from the rows of a line.
use book::register::Register;
use book::row::Row;
use delta::mixing::Mixed;
use delta::published::Published;
use delta::settlement::Settlement;
use either::{Left, Right};
use journal::line::{Make, SourceLine};
use tails::Tail;
use terms::bounds::MOST_CONTRACTS;

// A source of either make.
pub(crate) type Source<'r, 'a> = Mixed<Published<'r, 'a>, Settlement<'r, 'a>>;

// A delta in 32 bits; one that does not fit breaks the law of every kind, as the largest does.
fn delta_of(value: i64) -> i32 {
    i32::try_from(value).unwrap_or(i32::MAX)
}

// A strike without a sign; a negative one is as much out of range as the largest.
fn strike_of(value: i64) -> u64 {
    u64::try_from(value).unwrap_or(u64::MAX)
}

// A place that holds nothing yet.
pub(crate) fn blank<V>(value: V) -> Row<V> {
    Row { key: 0, value }
}

// A register of rows; a contract that is named twice keeps the later row, and one that no monitor can have is passed over.
fn filled<'a, V: Copy, F: Fn(i64) -> V>(
    places: &'a mut [Row<V>],
    rows: Tail<'_, (usize, i64)>,
    value_of: F,
) -> Register<'a, V>
    requires { F.IsAlwaysCallable value_of }
{
    let mut register = Register::new(places);
    for (contract, value) in rows {
        if contract < MOST_CONTRACTS {
            // No `From` makes a u64 of a number of type usize; the cast is proved to lose nothing.
            let _ = register.put(contract as u64, value_of(value));
        }
    }
    register
}

// Places for the rows of a source: one for each contract.
#[derive(Drop)]
pub(crate) enum Places {
    Deltas([Row<i32>; MOST_CONTRACTS]),
    Strikes([Row<u64>; MOST_CONTRACTS]),
}

impl Places {
    // Places for the rows of the line's source.
    pub(crate) fn new(line: SourceLine<'_>) -> Places {
        match line.make {
            Make::Published => Places::Deltas([blank(0); MOST_CONTRACTS]),
            Make::Settlement => Places::Strikes([blank(0); MOST_CONTRACTS]),
        }
    }

    // The rows of the line's source.
    pub(crate) fn fill(&mut self, line: SourceLine<'_>) -> Rows<'_> {
        match self {
            Places::Deltas(places) => Rows::Deltas(filled(places, line.rows, delta_of)),
            Places::Strikes(places) => Rows::Strikes(filled(places, line.rows, strike_of)),
        }
    }
}

// The rows of a source.
#[derive(Drop)]
pub(crate) enum Rows<'a> {
    Deltas(Register<'a, i32>),
    Strikes(Register<'a, u64>),
}

impl<'a> Rows<'a> {
    // The line's source over its rows.
    pub(crate) fn source<'r>(&'r self, line: SourceLine<'_>) -> Source<'r, 'a> {
        match self {
            Rows::Deltas(deltas) => Left(Published::new(line.minute, line.price, deltas)),
            Rows::Strikes(strikes) => Right(Settlement::new(line.minute, line.price, strikes)),
        }
    }
}
