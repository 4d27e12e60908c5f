// From a line's bytes to what it says. specs/Forms.antt has the table of the forms and the order of the faults.
ghost use Rattle.std.specs.Prelude.{◌≡◌, drop};
ghost use Rattle.std.specs.Result.{OnOk};
ghost use Rattle.journal.specs.Forms.{full, placed, book_form, source_form, one_number, two_numbers, to_notional, one_source, one_mark, ask_form, form_of, read_words, read_line};
ghost use Rattle.journal.specs.Said.{sourced, asked, said};
ghost use Rattle.journal.specs.Taken.{result_map};
ghost use Rattle.text.specs.Words.{to_come};

use super::bounds::{BOOK_PLACES, BOOK_SIDE, REPORT_ROWS};
use super::line::{Book, Declaration, Layout, Line, Question, SourceLine};
use super::names::*;
use super::taken::*;
use cover::depository::DepositoryRow;
use replies::fault::Fault;
use tails::skip;
use terms::command::{Command, Trade};
use terms::kind::Contract;
use terms::limits::Limits;
use text::words::{Words, is_text};

// ENTITIES CONTRACTS PLACES
fn placed_book(layout: Layout, mut words: Words<'_>) -> Result<Line<'_>, Fault>
    ensures { result_map said result ≡ placed layout (to_come words.entry) }
{
    exactly(words, 3)?;
    let entities = next_up_to(&mut words, BOOK_SIDE)?;
    let contracts = next_up_to(&mut words, BOOK_SIDE)?;
    let places = next_up_to(&mut words, BOOK_PLACES)?;
    Ok(Line::Declare(Declaration::Book(Book {
        layout,
        entities,
        contracts,
        places,
    })))
}

// ENTITIES CONTRACTS
fn full_book(layout: Layout, mut words: Words<'_>) -> Result<Line<'_>, Fault>
    ensures { result_map said result ≡ full layout (to_come words.entry) }
{
    let entities = next_up_to(&mut words, BOOK_SIDE)?;
    let contracts = next_up_to(&mut words, BOOK_SIDE)?;
    let places = entities * contracts;
    if places > BOOK_PLACES {
        return Err(Fault::OutOfRange);
    }
    Ok(Line::Declare(Declaration::Book(Book {
        layout,
        entities,
        contracts,
        places,
    })))
}

fn sized_book(layout: Layout, words: Words<'_>) -> Result<Line<'_>, Fault>
    ensures { result_map said result ≡ book_form layout (to_come words.entry) }
{
    match layout {
        Layout::Grid => {
            if words.len() == 2 {
                full_book(layout, words)
            } else {
                placed_book(layout, words)
            }
        }
        Layout::List => placed_book(layout, words),
    }
}

fn book(mut words: Words<'_>) -> Result<Line<'_>, Fault>
    ensures { result_map said result ≡ form_of Verb.Book (to_come words.entry) }
{
    let layout = next(&mut words)?;
    sized_book(layout, words)
}

fn underlying(mut words: Words<'_>) -> Result<Line<'_>, Fault>
    ensures { result_map said result ≡ form_of Verb.Underlying (to_come words.entry) }
{
    exactly(words, 1)?;
    Ok(Line::Declare(Declaration::Underlying(next(&mut words)?)))
}

fn contract(mut words: Words<'_>) -> Result<Line<'_>, Fault>
    ensures { result_map said result ≡ form_of Verb.Contract (to_come words.entry) }
{
    exactly(words, 2)?;
    let underlying = next(&mut words)?;
    let kind = next(&mut words)?;
    Ok(Line::Declare(Declaration::Contract(Contract { underlying, kind })))
}

fn limits(mut words: Words<'_>) -> Result<Line<'_>, Fault>
    ensures { result_map said result ≡ form_of Verb.Limits (to_come words.entry) }
{
    exactly(words, 2)?;
    let net = next(&mut words)?;
    let gross = next(&mut words)?;
    Ok(Line::Declare(Declaration::Limits(Limits { net, gross })))
}

fn open(words: Words<'_>) -> Result<Line<'_>, Fault>
    ensures { result_map said result ≡ form_of Verb.Open (to_come words.entry) }
{
    exactly(words, 0)?;
    Ok(Line::Declare(Declaration::Open))
}

fn post(mut words: Words<'_>) -> Result<Line<'_>, Fault>
    ensures { result_map said result ≡ form_of Verb.Post (to_come words.entry) }
{
    exactly(words, 3)?;
    let entity = next(&mut words)?;
    let contract = next(&mut words)?;
    let change = next(&mut words)?;
    Ok(Line::Call(Command::Post {
        entity,
        contract,
        change,
    }))
}

fn entry(mut words: Words<'_>) -> Result<Line<'_>, Fault>
    ensures { result_map said result ≡ form_of Verb.Entry (to_come words.entry) }
{
    exactly(words, 5)?;
    let ticket = next(&mut words)?;
    let member = next(&mut words)?;
    let participant = next(&mut words)?;
    let contract = next(&mut words)?;
    let change = next(&mut words)?;
    let trade = Trade {
        member,
        participant,
        contract,
        change,
    };
    Ok(Line::Call(Command::Entry { ticket, trade }))
}

fn confirm(mut words: Words<'_>) -> Result<Line<'_>, Fault>
    ensures { result_map said result ≡ form_of Verb.Confirm (to_come words.entry) }
{
    exactly(words, 1)?;
    let ticket = next(&mut words)?;
    Ok(Line::Call(Command::Confirm { ticket }))
}

// UNDERLYING FREEFLOAT DELIVERY...
fn set_limit(mut words: Words<'_>) -> Result<Line<'_>, Fault>
    ensures { result_map said result ≡ form_of Verb.Limit (to_come words.entry) }
{
    let days = at_least(words.len(), 2)?;
    let underlying = next(&mut words)?;
    let free_float = next(&mut words)?;
    let deliveries = next_many(&mut words, days)?;
    Ok(Line::SetLimit {
        underlying,
        free_float,
        deliveries,
    })
}

// Takes MAKE MINUTE PRICE and `n` rows.
fn next_source<'a>(words: &mut Words<'a>, n: usize) -> Result<SourceLine<'a>, Fault>
    ensures value { result_map sourced result ≡ source_form n (to_come words.old) }
    ensures rest { OnOk result (to_come words.new ≡ drop n (drop 3 (to_come words.old))) }
{
    let make = next(words)?;
    let minute = next(words)?;
    let price = next(words)?;
    let rows = next_many(words, n)?;
    Ok(SourceLine {
        make,
        minute,
        price,
        rows,
    })
}

// UNDERLYING SOURCE / SOURCE
fn close(mut words: Words<'_>) -> Result<Line<'_>, Fault>
    ensures { result_map said result ≡ form_of Verb.Close (to_come words.entry) }
{
    let slash = words.count_before("/");
    let before = at_least(slash, 4)?;
    let behind = at_least(words.len() - slash, 4)?;
    let underlying = next(&mut words)?;
    let two = next_source(&mut words, before)?;
    words.next();
    let closing = next_source(&mut words, behind)?;
    Ok(Line::Close {
        underlying,
        two,
        closing,
    })
}

// UNDERLYING SOURCE
fn one_source(mut words: Words<'_>) -> Result<(usize, SourceLine<'_>), Fault>
    ensures { result_map (λ p. (p.0, sourced p.1)) result ≡ one_source (to_come words.entry) }
{
    let rows = at_least(words.len(), 4)?;
    let underlying = next(&mut words)?;
    let source = next_source(&mut words, rows)?;
    Ok((underlying, source))
}

fn snapshot(words: Words<'_>) -> Result<Line<'_>, Fault>
    ensures { result_map said result ≡ form_of Verb.Snapshot (to_come words.entry) }
{
    one_source(words).map(|(underlying, source)| Line::Snapshot { underlying, source })
}

fn cure(words: Words<'_>) -> Result<Line<'_>, Fault>
    ensures { result_map said result ≡ form_of Verb.Cure (to_come words.entry) }
{
    one_source(words).map(|(underlying, source)| Line::Cure { underlying, source })
}

fn cash(mut words: Words<'_>) -> Result<Line<'_>, Fault>
    ensures { result_map said result ≡ form_of Verb.Cash (to_come words.entry) }
{
    exactly(words, 3)?;
    let entity = next(&mut words)?;
    let underlying = next(&mut words)?;
    let amount = next(&mut words)?;
    Ok(Line::Cash {
        entity,
        underlying,
        amount,
    })
}

fn holding(mut words: Words<'_>) -> Result<Line<'_>, Fault>
    ensures { result_map said result ≡ form_of Verb.Holding (to_come words.entry) }
{
    exactly(words, 4)?;
    let entity = next(&mut words)?;
    let class = next(&mut words)?;
    let quantity = next(&mut words)?;
    let price = next(&mut words)?;
    Ok(Line::Holding(DepositoryRow {
        entity,
        class,
        quantity,
        price,
    }))
}

fn settle(mut words: Words<'_>) -> Result<Line<'_>, Fault>
    ensures { result_map said result ≡ form_of Verb.Settle (to_come words.entry) }
{
    exactly(words, 2)?;
    let underlying = next(&mut words)?;
    let cover = next(&mut words)?;
    Ok(Line::Settle { underlying, cover })
}

fn report(mut words: Words<'_>) -> Result<Line<'_>, Fault>
    ensures { result_map said result ≡ form_of Verb.Report (to_come words.entry) }
{
    exactly(words, 2)?;
    let underlying = next(&mut words)?;
    let rows = next_up_to(&mut words, REPORT_ROWS)?;
    Ok(Line::Report { underlying, rows })
}

// One unsigned number and no more.
fn one_number(mut words: Words<'_>) -> Result<usize, Fault>
    ensures { result ≡ one_number (to_come words.entry) }
{
    exactly(words, 1)?;
    next(&mut words)
}

// Two unsigned numbers and no more.
fn two_numbers(mut words: Words<'_>) -> Result<(usize, usize), Fault>
    ensures { result ≡ two_numbers (to_come words.entry) }
{
    exactly(words, 2)?;
    Ok((next(&mut words)?, next(&mut words)?))
}

// UNDERLYING notional
fn to_notional(mut words: Words<'_>) -> Result<Question<'_>, Fault>
    ensures { result_map asked result ≡ to_notional (to_come words.entry) }
{
    exactly(words, 2)?;
    Ok(Question::Reading {
        underlying: next(&mut words)?,
        source: None,
    })
}

fn reading(words: Words<'_>) -> Result<Question<'_>, Fault>
    ensures { result_map asked result ≡ ask_form Topic.Reading (to_come words.entry) }
{
    if is_next(skip(words, 1), "notional") {
        to_notional(words)
    } else {
        one_source(words).map(|(underlying, source)| Question::Reading {
            underlying,
            source: Some(source),
        })
    }
}

// UNDERLYING ENTITY MARK
fn one_mark(mut words: Words<'_>) -> Result<Question<'_>, Fault>
    ensures { result_map asked result ≡ one_mark (to_come words.entry) }
{
    exactly(words, 3)?;
    let underlying = next(&mut words)?;
    let entity = next(&mut words)?;
    let mark = next(&mut words)?;
    Ok(Question::Mark {
        underlying,
        entity,
        mark,
    })
}

fn question(topic: Topic, words: Words<'_>) -> Result<Question<'_>, Fault>
    ensures { result_map asked result ≡ ask_form topic (to_come words.entry) }
{
    match topic {
        Topic::Quantity => two_numbers(words).map(|(entity, contract)| Question::Quantity {
            entity,
            contract,
        }),
        Topic::Base => two_numbers(words).map(|(entity, contract)| Question::Base {
            entity,
            contract,
        }),
        Topic::Limit => one_number(words).map(|underlying| Question::Limit { underlying }),
        Topic::Ban => one_number(words).map(|underlying| Question::Ban { underlying }),
        Topic::Violated => two_numbers(words).map(|(underlying, entity)| Question::Violated {
            underlying,
            entity,
        }),
        Topic::Charge => two_numbers(words).map(|(underlying, entity)| Question::Charge {
            underlying,
            entity,
        }),
        Topic::Notional => one_number(words).map(|underlying| Question::Notional { underlying }),
        Topic::Reading => reading(words),
        Topic::Mark => one_mark(words),
    }
}

fn ask(mut words: Words<'_>) -> Result<Line<'_>, Fault>
    ensures { result_map said result ≡ form_of Verb.Ask (to_come words.entry) }
{
    let topic = next(&mut words)?;
    Ok(Line::Ask(question(topic, words)?))
}

// A match, and no table of functions beside the names: the compiler sees here that each verb has its form.
fn form(verb: Verb, words: Words<'_>) -> Result<Line<'_>, Fault>
    ensures { result_map said result ≡ form_of verb (to_come words.entry) }
{
    match verb {
        Verb::Book => book(words),
        Verb::Underlying => underlying(words),
        Verb::Contract => contract(words),
        Verb::Limits => limits(words),
        Verb::Open => open(words),
        Verb::Post => post(words),
        Verb::Entry => entry(words),
        Verb::Confirm => confirm(words),
        Verb::Ask => ask(words),
        Verb::Limit => set_limit(words),
        Verb::Close => close(words),
        Verb::Snapshot => snapshot(words),
        Verb::Cure => cure(words),
        Verb::Cash => cash(words),
        Verb::Holding => holding(words),
        Verb::Settle => settle(words),
        Verb::Report => report(words),
    }
}

fn read_words(mut words: Words<'_>) -> Result<Line<'_>, Fault>
    ensures { result_map said result ≡ read_words (to_come words.entry) }
{
    match words.next() {
        Some(first) => form(Verb::of_word(first)?, words),
        None => Ok(Line::Blank),
    }
}

// What the line says, or the first fault that it has.
pub fn read(line: &[u8]) -> Result<Line<'_>, Fault>
    ensures { result_map said result ≡ read_line line.now }
{
    if !is_text(line) {
        return Err(Fault::NotText);
    }
    read_words(Words::new(line))
}
