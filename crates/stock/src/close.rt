// What a stock's close makes of the base, whom it finds in violation, and what each is charged.
ghost use Rattle.std.specs.Prelude.{◌≡◌, min, not};
ghost use Rattle.terms.specs.Bounds.{most_entities};
ghost use Rattle.book.specs.Holding.{quantity_of, blank};
ghost use Rattle.reading.specs.Sheets.{within};
ghost use Rattle.reading.specs.Readings.{net};
ghost use Rattle.reading.specs.Views.{weights_of};
ghost use Rattle.stock.specs.Close.{new_pair, closed_base, closed_violated, closed_charge, charged_count, base_of, violated_in, charge_in};
ghost use Rattle.stock.specs.Steps.{with_row, found};
ghost use Rattle.stock.specs.Soundness.{blank_sound};

use crate::base::{Base, Watched};
use crate::turn::Turn;
use crate::violation::Violation;
use book::position::Holds;
use reading::chain::Chain;
use reading::sheet::Sheet;
use rules::charge::charge;
use rules::violation::{lies_between, violated};
use terms::bounds::{MOST_CONTRACTS, MOST_ENTITIES};

// A stock at its close: its contracts, the deltas of two o'clock, which only a ban reads, the closing price in paise, and
// what becomes of its ban.
#[derive(Clone, Copy)]
pub struct Closing<'c, 's> {
    pub chain: Chain<'c>,
    pub two: &'s Sheet,
    pub price: u64,
    pub turn: Turn,
}

// What holds nothing.
#[derive(Drop)]
struct Nothing;

impl Holds for Nothing {
    ghost held = { λ _. blank 0 0 0 };

    ghost sound = { λ _. blank_sound };

    fn quantity(&self, _entity: usize, _contract: usize) -> i64 {
        0
    }
}

impl Base {
    // An entity's base in the stock becomes what another holds.
    fn copy_entity<H: Holds>(&mut self, from: &H, chain: Chain<'_>, entity: Watched)
        ensures { base_of self.new.cells ≡ with_row (within chain.entry.contracts.now chain.entry.underlying) entity.number (quantity_of (H.held from.now) entity.number) (base_of self.old.cells) }
    {
        // By number: the base and who is copied are asked by pair.
        for c in 0..MOST_CONTRACTS {
            if chain.has(c) {
                self.copy_pair(from, entity, c);
            }
        }
    }

    // What an entity violates and is charged: nothing where nobody is judged.
    fn judge<B: Holds>(
        &self,
        book: &B,
        closing: Closing<'_, '_>,
        entity: usize,
    ) -> Option<Violation>
        ensures { result ≡ found closing.entry.turn (net (weights_of closing.entry.two.now) (base_of self.now.cells) entity) (net (weights_of closing.entry.two.now) (quantity_of (B.held book.now)) entity) closing.entry.price }
    {
        if !closing.turn.judges() {
            return None;
        }
        let x = closing.two.net(self, entity);
        let y = closing.two.net(book, entity);
        if lies_between(x, y) {
            return None;
        }
        let quantity = violated(x, y);
        let charge = charge(quantity, closing.price);
        Some(Violation { quantity, charge })
    }

    // Moves an entity's base in the stock as the ban turns: in one that holds on, only where the entity is not charged.
    fn close_entity<B: Holds>(
        &mut self,
        book: &B,
        closing: Closing<'_, '_>,
        charged: bool,
        entity: Watched,
    )
        ensures { base_of self.new.cells ≡ with_row (within closing.entry.chain.contracts.now closing.entry.chain.underlying) entity.number (λ c. new_pair closing.entry.turn (not charged) (quantity_of (B.held book.now) entity.number c) (base_of self.old.cells entity.number c)) (base_of self.old.cells) }
    {
        match closing.turn {
            Turn::NoBan => {}
            Turn::Begins => self.copy_entity(book, closing.chain, entity),
            Turn::Holds => {
                if !charged {
                    self.copy_entity(book, closing.chain, entity);
                }
            }
            Turn::Ends => self.copy_entity(&Nothing, closing.chain, entity),
        }
    }

    // Closes a stock for the first entities, of which a base has no more than MOST_ENTITIES: moves their base, writes what
    // each violates and is charged, none for all others, and answers how many are charged.
    pub fn close<B: Holds>(
        &mut self,
        book: &B,
        violations: &mut [Option<Violation>; MOST_ENTITIES],
        entities: usize,
        closing: Closing<'_, '_>,
    ) -> u64
        ensures base { base_of self.new.cells ≡ closed_base (min entities most_entities) (within closing.entry.chain.contracts.now closing.entry.chain.underlying) closing.entry.turn (weights_of closing.entry.two.now) (base_of self.old.cells) (quantity_of (B.held book.now)) }
        ensures violated { violated_in violations.new ≡ closed_violated (min entities most_entities) closing.entry.turn (weights_of closing.entry.two.now) (base_of self.old.cells) (quantity_of (B.held book.now)) }
        ensures charges { charge_in violations.new ≡ closed_charge (min entities most_entities) closing.entry.turn (weights_of closing.entry.two.now) (base_of self.old.cells) (quantity_of (B.held book.now)) closing.entry.price }
        ensures count { result ≡ charged_count (min entities most_entities) closing.entry.turn (weights_of closing.entry.two.now) (base_of self.old.cells) (quantity_of (B.held book.now)) }
    {
        *violations = [None; MOST_ENTITIES];
        let mut count = 0;
        // By number: the base and the book are asked by it, and what is written through `iter_mut().take(..)` can't be known.
        for e in 0..entities.min(MOST_ENTITIES) {
            let violation = self.judge(book, closing, e);
            let charged = violation.is_some();
            violations[e] = violation;
            count += u64::from(charged);
            self.close_entity(book, closing, charged, Watched { number: e });
        }
        count
    }
}
