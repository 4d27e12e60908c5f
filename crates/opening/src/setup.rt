// What is declared before the monitor is open. specs/Sheets.antt has the rules.
ghost use Rattle.std.specs.Prelude.{◌≡◌, ◌≤◌, length, is_ok, is_some, if◌then◌else◌, Some};
ghost use Rattle.opening.specs.Bounds.{declared_underlyings, declared_contracts};
ghost use Rattle.opening.specs.Sheets.{Sheet, empty_sheet, first, ready_to_open, answered, noted, readiness};

use super::bounds::{DECLARED_CONTRACTS, DECLARED_UNDERLYINGS};
use super::opened::Opening;
use super::roster::Roster;
use journal::line::{Book, Declaration};
use replies::fault::Fault;
use std::marker::Model;
use terms::kind::{Contract, Kind, Underlying};
use terms::limits::Limits;

#[derive(Drop)]
pub struct Setup {
    book: Option<Book>,
    underlyings: Roster<Underlying, DECLARED_UNDERLYINGS>,
    contracts: Roster<Contract, DECLARED_CONTRACTS>,
    limits: Option<Limits>,
    opened: Option<Opening>,
}

// The sheet that it holds.
impl Model for Setup {
    ghost Value = { Sheet };

    ghost view = { λ s. record { book = s.book; underlyings = s.underlyings; contracts = s.contracts; limits = s.limits; opened = s.opened } };
}

// Fills the place, once. A test: no method of `Option` tells apart that it is filled already.
fn once<T: Drop>(place: &mut Option<T>, value: T) -> Result<(), Fault>
    ensures answer { result ≡ first place.old }
    ensures after { place.new ≡ (if is_ok result then Some value else place.old) }
{
    if place.is_some() {
        return Err(Fault::Twice);
    }
    *place = Some(value);
    Ok(())
}

impl Setup {
    // Nothing is declared.
    pub fn new() -> Setup
        ensures { result ≡ empty_sheet }
    {
        let filler = Contract {
            underlying: 0,
            kind: Kind::Future,
        };
        Setup {
            book: None,
            underlyings: Roster::new(Underlying::Index),
            contracts: Roster::new(filler),
            limits: None,
            opened: None,
        }
    }

    fn open(&mut self) -> Result<(), Fault>
        ensures answer { result ≡ ready_to_open self.old }
        ensures after { self.new ≡ (if is_ok result then noted Declaration.Open self.old else self.old) }
    {
        let book = self.book.ok_or(Fault::NothingToOpen)?;
        let limits = self.limits.ok_or(Fault::NothingToOpen)?;
        self.opened = Some(Opening { book, limits });
        Ok(())
    }

    // Notes one more declaration; a declined one changes nothing.
    pub fn declare(&mut self, declaration: Declaration) -> Result<(), Fault>
        ensures answer { result ≡ answered self.old declaration }
        ensures after { self.new ≡ (if is_ok result then noted declaration self.old else self.old) }
    {
        if self.is_open() {
            return Err(Fault::AfterOpen);
        }
        match declaration {
            Declaration::Book(book) => once(&mut self.book, book),
            Declaration::Underlying(underlying) => self.underlyings.push(underlying),
            Declaration::Contract(contract) => self.contracts.push(contract),
            Declaration::Limits(limits) => once(&mut self.limits, limits),
            Declaration::Open => self.open(),
        }
    }

    // The book, once it is declared.
    pub fn book(&self) -> Option<Book>
        ensures { result ≡ self.now.book }
    {
        self.book
    }

    // The underlyings, in the order of their numbers.
    pub fn underlyings(&self) -> &[Underlying]
        ensures value { result.now ≡ self.now.underlyings }
        ensures most { length result.now ≤ declared_underlyings }
    {
        self.underlyings.as_slice()
    }

    // The contracts, in the order of their numbers.
    pub fn contracts(&self) -> &[Contract]
        ensures value { result.now ≡ self.now.contracts }
        ensures most { length result.now ≤ declared_contracts }
    {
        self.contracts.as_slice()
    }

    // The limits, once they are declared.
    pub fn limits(&self) -> Option<Limits>
        ensures { result ≡ self.now.limits }
    {
        self.limits
    }

    // What the monitor is opened with, once `open` was accepted.
    pub fn opening(&self) -> Option<Opening>
        ensures { result ≡ self.now.opened }
    {
        self.opened
    }

    // Whether a call or a question may come.
    pub fn ready(&self) -> Result<(), Fault>
        ensures { result ≡ readiness self.now }
    {
        if !self.is_open() {
            return Err(Fault::NotOpened);
        }
        Ok(())
    }

    // Whether `open` was accepted.
    pub fn is_open(&self) -> bool
        ensures { result ≡ is_some self.now.opened }
    {
        self.opening().is_some()
    }
}
