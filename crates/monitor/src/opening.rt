// Opening a monitor.
ghost use Rattle.std.specs.Prelude.{◌≡◌, ℕ, replicate, None};
ghost use Rattle.model.specs.Opening.{sound_contract, all_sound, opening_from, is_open};
ghost use Rattle.book.specs.Holding.{Holding};
ghost use Rattle.terms.specs.Bounds.{ticket_count};
ghost use Rattle.index.specs.Marks.{no_row};
ghost use Rattle.model.specs.State.{opened, new_ledger};
ghost use Rattle.monitor.specs.Listed.{terms_in};
ghost use Rattle.monitor.specs.View.{state_of, ledger_of, marks_of};

use crate::fixed::Fixed;
use crate::inner::Inner;
use crate::listing::{Listing, Terms};
use crate::state::Monitor;
use book::position::Book;
use index::day::Day;
use index::mark::{Four, MarkRow};
use model::parts::{IndexRecord, StockRecord};
use stock::base::Base;
use terms::bounds::{AMOUNT_BOUND, MOST_CONTRACTS, MOST_ENTITIES, MOST_UNDERLYINGS, TICKETS};
use terms::kind::{Contract, Kind, Underlying};
use terms::limits::Limits;

// A contract names a listed underlying, and is no future on an index.
fn is_sound(underlyings: &[Underlying], contract: Contract) -> bool
    ensures { result ≡ sound_contract underlyings.now contract }
{
    let Some(underlying) = underlyings.get(contract.underlying) else {
        return false;
    };
    (contract.kind, *underlying) != (Kind::Future, Underlying::Index)
}

fn are_sound(underlyings: &[Underlying], contracts: &[Contract]) -> bool
    ensures { result ≡ all_sound underlyings.now contracts.now }
{
    contracts
        .iter()
        .all(|contract| is_sound(underlyings, *contract))
}

impl<'t> Terms<'t> {
    // Every condition under which a monitor is open.
    fn is_open(self) -> bool
        ensures { result ≡ is_open (terms_in self.entry) }
    {
        let Listing {
            entities,
            places,
            contracts,
            underlyings,
        } = self.listing;
        (1..=MOST_ENTITIES).contains(&entities)
            && (1..=MOST_CONTRACTS).contains(&places)
            && places == contracts.len()
            && (1..=MOST_UNDERLYINGS).contains(&underlyings.len())
            && are_sound(underlyings, contracts)
            && (1..=AMOUNT_BOUND).contains(&self.limits.net)
            && (1..=AMOUNT_BOUND).contains(&self.limits.gross)
    }
}

impl<'t> Fixed<'t> {
    fn new(terms: Terms<'t>) -> Fixed<'t>
        ensures { terms_in result.terms ≡ terms_in terms.entry }
    {
        let live = terms.is_open();
        Fixed { terms, live }
    }
}

impl Inner {
    // No bans, marks or tickets, and every base quantity at zero.
    fn new() -> Inner
        ensures ledger { (b : Holding) → ledger_of b result ≡ new_ledger b }
        ensures marks { marks_of result.indices ≡ (λ u e m. no_row) }
        ensures tickets { result.tickets ≡ replicate ticket_count None }
    {
        let row = MarkRow::new();
        let rows = Four {
            net_long: row,
            net_short: row,
            gross_long: row,
            gross_short: row,
        };
        let index = IndexRecord {
            day: Day::new(),
            marks: [rows; MOST_ENTITIES],
        };
        let stock = StockRecord {
            limit: None,
            banned: false,
            violations: [None; MOST_ENTITIES],
        };
        Inner {
            base: Base::new(),
            tickets: [None; TICKETS],
            indices: [index; MOST_UNDERLYINGS],
            stocks: [stock; MOST_UNDERLYINGS],
        }
    }
}

impl<'b, 't, B: Book> Monitor<'b, 't, B> {
    // A monitor over the book, with its contracts, the underlyings and two limits in paise. Where a condition of the
    // opening fails it declines every call.
    pub fn open(
        book: &'b mut B,
        contracts: &'t [Contract],
        underlyings: &'t [Underlying],
        limits: Limits,
    ) -> Monitor<'b, 't, B>
        ensures state { state_of B.Holds.held result ≡ opened (opening_from (B.Holds.held book.old) contracts.now underlyings.now limits) }
        ensures same { result.book.ghost_name ≡ book.entry.ghost_name }
    {
        let shape = book.shape();
        let listing = Listing {
            entities: shape.entities,
            places: shape.contracts,
            contracts,
            underlyings,
        };
        let fixed = Fixed::new(Terms { listing, limits });
        let inner = Inner::new();
        Monitor { book, fixed, inner }
    }

    // Whether the monitor is open.
    pub fn is_open(&self) -> bool
        ensures { result ≡ is_open (state_of B.Holds.held self.now).terms }
    {
        self.fixed.live
    }
}
