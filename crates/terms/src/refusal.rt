// Why a call is declined. specs/Refusals.antt has each cause's number and name, and what is printed of it.
ghost use Rattle.std.specs.Prelude.{◌≡◌, Some};
ghost use Rattle.terms.specs.Refusals.{number_of, name_of, text_of};

use std::error::Error;
use std::fmt;

#[derive(Clone, Copy, PartialEq, Eq, Debug)]
pub enum Refusal {
    Closed,
    Underlying,
    Kind,
    Unset,
    Turn,
    Time,
    Price,
    // The first contract that lacks a needed delta, and the first entity that needs it.
    Delta { contract: usize, entity: usize },
    // The first entity whose value is too large.
    Value { entity: usize },
    ShortDay,
    Input,
    Ticket,
    Pair,
    Size,
    Full,
}

impl Refusal {
    // The number that is returned for this cause. A method: `u8::from(cause)` at a call would not tell which number.
    pub fn number(self) -> u8
        ensures { result ≡ number_of self }
    {
        match self {
            Refusal::Closed => 10,
            Refusal::Underlying => 1,
            Refusal::Kind => 2,
            Refusal::Unset => 9,
            Refusal::Turn => 3,
            Refusal::Time => 4,
            Refusal::Price => 5,
            Refusal::Delta {
                contract: _,
                entity: _,
            } => 6,
            Refusal::Value { entity: _ } => 7,
            Refusal::ShortDay => 8,
            Refusal::Input => 15,
            Refusal::Ticket => 14,
            Refusal::Pair => 11,
            Refusal::Size => 12,
            Refusal::Full => 13,
        }
    }

    // The name that stands for this cause in notices.
    pub fn name(self) -> &'static str
        ensures { result.now ≡ name_of self }
    {
        match self {
            Refusal::Closed => "CLOSED",
            Refusal::Underlying => "UNDERLYING",
            Refusal::Kind => "KIND",
            Refusal::Unset => "UNSET",
            Refusal::Turn => "TURN",
            Refusal::Time => "TIME",
            Refusal::Price => "PRICE",
            Refusal::Delta {
                contract: _,
                entity: _,
            } => "DELTA",
            Refusal::Value { entity: _ } => "VALUE",
            Refusal::ShortDay => "SHORT-DAY",
            Refusal::Input => "INPUT",
            Refusal::Ticket => "TICKET",
            Refusal::Pair => "PAIR",
            Refusal::Size => "SIZE",
            Refusal::Full => "FULL",
        }
    }
}

// The cause's number, its name and whom it names.
impl fmt::Display for Refusal {
    ghost output = { λ refusal. Some (text_of refusal) };

    fn fmt<W: fmt::Write>(&self, f: &mut fmt::Formatter<W>) -> fmt::Result {
        let number = self.number();
        let name = self.name();
        match *self {
            Refusal::Delta { contract, entity } => {
                write!(f, "{number} {name} contract {contract} entity {entity}")
            }
            Refusal::Value { entity } => write!(f, "{number} {name} entity {entity}"),
            _ => write!(f, "{number} {name}"),
        }
    }
}

impl Error for Refusal {}
