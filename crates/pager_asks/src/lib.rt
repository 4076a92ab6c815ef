// A line of the pager's text form taken apart: what it asks, or its first bad word and what was expected there.
#![tactic(auto)]

ghost use Rattle.std.specs.Prelude.{◌≡◌, ◌≤◌, Some, None, MatchResult};
ghost use Rattle.pager_asks.specs.Asks;
ghost use Rattle.pager_asks.specs.Asks.{bad, number_at, refill_ask, by_cause, fault_ask, report_ask, end_ask, rows_ask, row_ask, other_ask, ask_of};

use pages::{Cause, Event, Row};
use words::{absent_at, decimal, hexadecimal, nth_word, same_at};

// The highest word of 32 bits, the highest byte, and as many rows as the lent table has at most.
const WORD: u64 = 4294967295;

const BYTE: u64 = 255;

pub const ROWS: usize = 64;

#[derive(Clone, Copy)]
pub enum Expected {
    Command,
    Number,
    Cause,
    Outcome,
    Count,
    Frame,
    Byte,
    Nothing,
}

#[derive(Clone, Copy)]
pub enum Ask {
    Empty,
    Asked(Event),
    // the lent table's length
    Length(usize),
    // one of its rows
    Set(usize, Row),
}

// The first bad word of a line, counted from 0, and what was expected.
#[derive(Clone, Copy)]
pub struct Bad {
    pub word: usize,
    pub expected: Expected,
}

// The k-th word as a number, decimal or 0x.
fn number(line: &[u8], k: usize, limit: u64, expected: Expected) -> Result<u64, Bad>
    ensures { MatchResult result (λ n. (number_at limit line.now k ≡ Some n) × (n ≤ limit)) (λ b. (number_at limit line.now k ≡ None) × (b ≡ bad k expected)) }
{
    let word = nth_word(line, k);
    match decimal(word, limit) {
        Some(n) => Ok(n),
        None => hexadecimal(word, limit).ok_or(Bad { word: k, expected }),
    }
}

// What is asked, where nothing stands behind it.
fn ended(line: &[u8], k: usize, ask: Ask) -> Result<Ask, Bad>
    ensures { result ≡ Asks.ended line.now k ask }
{
    if absent_at(line, k) {
        return Ok(ask);
    }
    Err(Bad {
        word: k,
        expected: Expected::Nothing,
    })
}

#[tactic(auto, unfolding(crate::specs::Asks::refill_ask))]
fn refill(line: &[u8]) -> Result<Ask, Bad>
    ensures { result ≡ refill_ask line.now }
{
    let u = number(line, 1, WORD, Expected::Number)?;
    let page = number(line, 2, WORD, Expected::Number)?;
    ended(line, 3, Ask::Asked(Event::Refill(u as u32, page as u32)))
}

#[tactic(auto, unfolding(crate::specs::Asks::by_cause))]
fn with_cause(line: &[u8], u: u32, page: u32) -> Result<Ask, Bad>
    ensures { result ≡ by_cause line.now u page }
{
    if same_at(line, 3, b"load") {
        return ended(line, 4, Ask::Asked(Event::Fault(u, page, Cause::Load)));
    }
    if same_at(line, 3, b"store") {
        return ended(line, 4, Ask::Asked(Event::Fault(u, page, Cause::Store)));
    }
    if same_at(line, 3, b"mod") {
        return ended(
            line,
            4,
            Ask::Asked(Event::Fault(u, page, Cause::Modification)),
        );
    }
    Err(Bad {
        word: 3,
        expected: Expected::Cause,
    })
}

#[tactic(auto, unfolding(crate::specs::Asks::fault_ask))]
fn fault(line: &[u8]) -> Result<Ask, Bad>
    ensures { result ≡ fault_ask line.now }
{
    let u = number(line, 1, WORD, Expected::Number)?;
    let page = number(line, 2, WORD, Expected::Number)?;
    with_cause(line, u as u32, page as u32)
}

#[tactic(auto, unfolding(crate::specs::Asks::report_ask))]
fn report(line: &[u8]) -> Result<Ask, Bad>
    ensures { result ≡ report_ask line.now }
{
    if same_at(line, 1, b"ok") {
        return ended(line, 2, Ask::Asked(Event::Report(true)));
    }
    if same_at(line, 1, b"failed") {
        return ended(line, 2, Ask::Asked(Event::Report(false)));
    }
    Err(Bad {
        word: 1,
        expected: Expected::Outcome,
    })
}

#[tactic(auto, unfolding(crate::specs::Asks::end_ask))]
fn end(line: &[u8]) -> Result<Ask, Bad>
    ensures { result ≡ end_ask line.now }
{
    let u = number(line, 1, WORD, Expected::Number)?;
    ended(line, 2, Ask::Asked(Event::End(u as u32)))
}

#[tactic(auto, unfolding(crate::specs::Asks::rows_ask))]
fn rows(line: &[u8]) -> Result<Ask, Bad>
    ensures { result ≡ rows_ask line.now }
{
    let n = number(line, 1, ROWS as u64, Expected::Count)?;
    ended(line, 2, Ask::Length(n as usize))
}

#[tactic(auto, unfolding(crate::specs::Asks::row_ask))]
fn row(line: &[u8]) -> Result<Ask, Bad>
    ensures { result ≡ row_ask line.now }
{
    let f = number(line, 1, ROWS as u64 - 1, Expected::Frame)?;
    let o = number(line, 2, BYTE, Expected::Byte)?;
    let e = number(line, 3, BYTE, Expected::Byte)?;
    let found = Row {
        owner: o as u8,
        page: e as u8,
    };
    ended(line, 4, Ask::Set(f as usize, found))
}

// What a line asks that begins with none of the words for what comes most.
#[tactic(auto, unfolding(crate::specs::Asks::other_ask))]
fn other(line: &[u8]) -> Result<Ask, Bad>
    ensures { result ≡ other_ask line.now }
{
    if same_at(line, 0, b"end") {
        return end(line);
    }
    if same_at(line, 0, b"rows") {
        return rows(line);
    }
    if same_at(line, 0, b"row") {
        return row(line);
    }
    Err(Bad {
        word: 0,
        expected: Expected::Command,
    })
}

// What a line asks.
#[tactic(auto, unfolding(crate::specs::Asks::ask_of))]
pub fn asked_by(line: &[u8]) -> Result<Ask, Bad>
    ensures { result ≡ ask_of line.now }
{
    if absent_at(line, 0) {
        return Ok(Ask::Empty);
    }
    if same_at(line, 0, b"refill") {
        return refill(line);
    }
    if same_at(line, 0, b"fault") {
        return fault(line);
    }
    if same_at(line, 0, b"report") {
        return report(line);
    }
    other(line)
}
