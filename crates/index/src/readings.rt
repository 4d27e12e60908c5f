// What the entities hold in an index, each read once, and the first whose long or short is worth too much.
ghost use Rattle.std.specs.Prelude.{◌≡◌, min};
ghost use Rattle.terms.specs.Bounds.{most_entities};
ghost use Rattle.book.specs.Holding.{quantity_of};
ghost use Rattle.reading.specs.Sums.{first_below};
ghost use Rattle.reading.specs.Views.{weights_of};
ghost use Rattle.index.specs.Values.{reading_in, readings_below, is_too_large};

use crate::value::is_too_large;
use book::position::Holds;
use reading::sheet::Sheet;
use std::array;
use terms::bounds::MOST_ENTITIES;

// An entity's net, long and short, zero from a number of entities on.
fn reading_below<H: Holds>(
    holder: &H,
    sheet: &Sheet,
    entities: usize,
    entity: usize,
) -> (i64, i64, i64)
    ensures { result ≡ readings_below entities (weights_of sheet.now) (quantity_of (H.held holder.now)) entity }
{
    if entity < entities {
        sheet.reading(holder, entity)
    } else {
        (0, 0, 0)
    }
}

// Net, long and short of the first entities, and zero for all others.
pub fn readings<H: Holds>(
    holder: &H,
    sheet: &Sheet,
    entities: usize,
) -> [(i64, i64, i64); MOST_ENTITIES]
    ensures { reading_in result ≡ readings_below (min entities most_entities) (weights_of sheet.now) (quantity_of (H.held holder.now)) }
{
    let entities = entities.min(MOST_ENTITIES);
    array::from_fn(|e| reading_below(holder, sheet, entities, e))
}

// The first of the first entities whose long or short is worth more than a monitor reckons with.
pub fn first_too_large(
    readings: &[(i64, i64, i64); MOST_ENTITIES],
    price: u64,
    entities: usize,
) -> Option<usize>
    ensures { result ≡ first_below (min entities most_entities) (λ e. is_too_large (reading_in readings.now e) price) }
{
    readings
        .iter()
        .take(entities)
        .position(|reading| is_too_large(*reading, price))
}
