// What a monitor keeps besides its book and what was fixed at the opening.
use model::parts::{IndexRecord, StockRecord};
use stock::base::Base;
use terms::bounds::{MOST_UNDERLYINGS, TICKETS};
use terms::command::Trade;

#[derive(Drop)]
pub struct Inner {
    pub(crate) base: Base,
    pub(crate) tickets: [Option<Trade>; TICKETS],
    // By underlying.
    pub(crate) indices: [IndexRecord; MOST_UNDERLYINGS],
    pub(crate) stocks: [StockRecord; MOST_UNDERLYINGS],
}
