// The final breaches that were kept, written into rows that are lent.
ghost use Rattle.std.specs.Prelude.{◌≡◌, min, length, slice_set};
ghost use Rattle.terms.specs.Bounds.{most_entities};
ghost use Rattle.index.specs.Sweeps.{rows_in};
ghost use Rattle.index.specs.Kept.{Written};
ghost use Rattle.index.specs.Listing.{listing, over};

use crate::mark::{Four, MarkRow};
use terms::bounds::MOST_ENTITIES;
use terms::mark::Mark;
use terms::refusal::Refusal;

// A final breach as it is reported: whose, which mark, and its largest value.
#[derive(Clone, Copy, PartialEq, Eq, Debug)]
pub struct Breach {
    pub entity: usize,
    pub mark: Mark,
    pub largest: u128,
}

// Writes a breach at a place, if there is a row for it.
fn write(rows: &mut [Breach], place: usize, breach: Breach)
    ensures { rows.new ≡ slice_set rows.old place breach }
{
    if place < rows.len() {
        rows[place] = breach;
    }
}

// Writes each kept breach of the first entities as far as there are rows for them, and answers how many there are.
fn fill(marks: &[Four<MarkRow>; MOST_ENTITIES], entities: usize, rows: &mut [Breach]) -> usize
    ensures told { result ≡ length (listing (min entities most_entities) (rows_in marks.now)) }
    ensures rows { rows.new ≡ over (listing (min entities most_entities) (rows_in marks.now)) rows.old }
{
    let mut told = 0;
    for e in 0..entities.min(MOST_ENTITIES) {
        for mark in Mark::ALL {
            if let Some(largest) = marks[e].of(mark).kept {
                let breach = Breach {
                    entity: e,
                    mark,
                    largest,
                };
                write(rows, told, breach);
                told += 1;
            }
        }
    }
    told
}

// Writes each kept final breach of the first entities once, from the first row on, and answers how many there are. Where the
// rows are too few it writes none.
pub fn report(
    marks: &[Four<MarkRow>; MOST_ENTITIES],
    entities: usize,
    rows: &mut [Breach],
) -> Result<usize, Refusal>
    ensures { Written (min entities most_entities) (rows_in marks.now) rows.old result rows.new }
{
    // Without rows they are only counted.
    if rows.len() < fill(marks, entities, &mut []) {
        return Err(Refusal::Full);
    }
    Ok(fill(marks, entities, rows))
}
