// The words that name something. specs/Names.antt has the tables.
ghost use Rattle.std.specs.Prelude.{◌≡◌, map, Ok};
ghost use Rattle.journal.specs.Names.{name_in, verbs, topics, layouts, underlyings, kinds, makes, classes, covers, marks};

use super::line::{CoverMake, Layout, Make};
use super::taken::Field;
use cover::depository::Class;
use replies::fault::Fault;
use terms::kind::{Kind, Underlying};
use terms::mark::Mark;
use text::words::is;

// The first word of a line.
#[derive(Clone, Copy, PartialEq, Eq, Debug)]
pub(crate) enum Verb {
    Book,
    Underlying,
    Contract,
    Limits,
    Open,
    Post,
    Entry,
    Confirm,
    Ask,
    Limit,
    Close,
    Snapshot,
    Cure,
    Cash,
    Holding,
    Settle,
    Report,
}

// What is asked for.
#[derive(Clone, Copy, PartialEq, Eq, Debug)]
pub(crate) enum Topic {
    Quantity,
    Base,
    Limit,
    Ban,
    Violated,
    Charge,
    Notional,
    Reading,
    Mark,
}

const VERBS: [(&str, Verb); 17] = [
    ("book", Verb::Book),
    ("underlying", Verb::Underlying),
    ("contract", Verb::Contract),
    ("limits", Verb::Limits),
    ("open", Verb::Open),
    ("post", Verb::Post),
    ("entry", Verb::Entry),
    ("confirm", Verb::Confirm),
    ("ask", Verb::Ask),
    ("limit", Verb::Limit),
    ("close", Verb::Close),
    ("snapshot", Verb::Snapshot),
    ("cure", Verb::Cure),
    ("cash", Verb::Cash),
    ("holding", Verb::Holding),
    ("settle", Verb::Settle),
    ("report", Verb::Report),
];

const TOPICS: [(&str, Topic); 9] = [
    ("quantity", Topic::Quantity),
    ("base", Topic::Base),
    ("limit", Topic::Limit),
    ("ban", Topic::Ban),
    ("violated", Topic::Violated),
    ("charge", Topic::Charge),
    ("notional", Topic::Notional),
    ("reading", Topic::Reading),
    ("mark", Topic::Mark),
];

const LAYOUTS: [(&str, Layout); 2] = [("grid", Layout::Grid), ("list", Layout::List)];

const UNDERLYINGS: [(&str, Underlying); 2] = [
    ("index", Underlying::Index),
    ("stock", Underlying::Stock),
];

const KINDS: [(&str, Kind); 3] = [
    ("future", Kind::Future),
    ("call", Kind::Call),
    ("put", Kind::Put),
];

const MAKES: [(&str, Make); 2] = [
    ("published", Make::Published),
    ("settlement", Make::Settlement),
];

const CLASSES: [(&str, Class); 2] = [("equity", Class::Equity), ("other", Class::Other)];

const COVERS: [(&str, CoverMake); 3] = [
    ("depository", CoverMake::Depository),
    ("cash", CoverMake::Cash),
    ("joint", CoverMake::Joint),
];

const MARKS: [(&str, Mark); 4] = [
    ("net-long", Mark::NetLong),
    ("net-short", Mark::NetShort),
    ("gross-long", Mark::GrossLong),
    ("gross-short", Mark::GrossShort),
];

// What a table has for a word.
fn named<T: Copy>(table: &[(&str, T)], word: &[u8]) -> Result<T, Fault>
    ensures { result ≡ name_in (map (λ row. (row.0.now, row.1)) table.now) word.now }
{
    let row = table.iter().find(|row| is(word, row.0));
    row.map(|row| row.1).ok_or(Fault::UnknownWord)
}

// The word that is read as a mark.
pub fn mark_word(mark: Mark) -> &'static str
    ensures { name_in marks result.now ≡ Ok mark }
{
    match mark {
        Mark::NetLong => "net-long",
        Mark::NetShort => "net-short",
        Mark::GrossLong => "gross-long",
        Mark::GrossShort => "gross-short",
    }
}

// The impls differ in their tables alone; a table as a constant of the trait would be a second name for its ghost.
impl Field for Verb {
    ghost field = { name_in verbs };

    fn of_word(word: &[u8]) -> Result<Verb, Fault> {
        named(&VERBS, word)
    }
}

impl Field for Topic {
    ghost field = { name_in topics };

    fn of_word(word: &[u8]) -> Result<Topic, Fault> {
        named(&TOPICS, word)
    }
}

impl Field for Layout {
    ghost field = { name_in layouts };

    fn of_word(word: &[u8]) -> Result<Layout, Fault> {
        named(&LAYOUTS, word)
    }
}

impl Field for Underlying {
    ghost field = { name_in underlyings };

    fn of_word(word: &[u8]) -> Result<Underlying, Fault> {
        named(&UNDERLYINGS, word)
    }
}

impl Field for Kind {
    ghost field = { name_in kinds };

    fn of_word(word: &[u8]) -> Result<Kind, Fault> {
        named(&KINDS, word)
    }
}

impl Field for Make {
    ghost field = { name_in makes };

    fn of_word(word: &[u8]) -> Result<Make, Fault> {
        named(&MAKES, word)
    }
}

impl Field for Class {
    ghost field = { name_in classes };

    fn of_word(word: &[u8]) -> Result<Class, Fault> {
        named(&CLASSES, word)
    }
}

impl Field for CoverMake {
    ghost field = { name_in covers };

    fn of_word(word: &[u8]) -> Result<CoverMake, Fault> {
        named(&COVERS, word)
    }
}

impl Field for Mark {
    ghost field = { name_in marks };

    fn of_word(word: &[u8]) -> Result<Mark, Fault> {
        named(&MARKS, word)
    }
}
