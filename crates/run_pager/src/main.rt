// The program of the pager: a text of events on standard input, a line an event on standard output. First every line is
// read; where one is bad, that is told on standard error and nothing else is written. What it does is decided below it:
// it moves bytes.
#![tactic(auto)]

ghost use Rattle.std.specs.Prelude.{◌≡◌, ◌≤◌, ◌<◌, true, length, IfOk, OnOk};
ghost use Rattle.std.specs.Io.KnownBytes.{Keeps, Appends};
ghost use Rattle.pager_text.specs.Answers.{line};
ghost use Rattle.pager_asks.specs.declared.Ask.TheVariants.{Asked};
ghost use Rattle.pager_asks.specs.Asks.{Sized, ask_of};
ghost use Rattle.words.specs.Texts.{nth};
ghost use Rattle.words.specs.Complaints.{complaint};
ghost use Rattle.run_pager.specs.Acts.{Standing, asks, more, quiet, acted};
ghost use Rattle.run_pager.specs.Told.{expected_text};
ghost use Rattle.run_pager.specs.Said.{answer_text, said, good, complaint_of, Ends};

use lender::{Served, SwapTable, resized, with_row};
use lent::{Keeper, Kept};
use pager_asks::{Ask, Bad, Expected, asked_by};
use pager_text::write_answer;
use pages::{Answer, Event};
use std::io;
use std::io::Write;
use std::process::ExitCode;
use streams::{READER_GONE, is_reader_gone};
use words::{complain, line_in, nth_word};

// One byte more than a text may have.
const ENOUGH: usize = 65537;

// The table that is lent to the pager, what the pager keeps, and its answer where there is one.
#[derive(Clone, Copy)]
struct Acted {
    table: SwapTable,
    keeper: Keeper,
    answer: Option<Answer>,
}

// How a text ends: all is answered; a bad line is told; a line can't be written; or whoever read them has gone.
#[derive(Clone, Copy)]
enum Ending {
    Answered,
    Told,
    Unwritten,
    ReaderGone,
}

fn silent(t: SwapTable, k: Keeper) -> Acted
    ensures { result ≡ quiet t k }
{
    Acted {
        table: t,
        keeper: k,
        answer: None,
    }
}

// The pager's answer to an event, over the table that it is lent.
fn asked(t: SwapTable, k: Keeper, v: Event) -> Acted
    requires { Standing t k }
    ensures { result ≡ acted (Asked v) t k }
{
    let Served { turn, table } = lender::event(t, k, v);
    let Kept { answer, keeper } = turn;
    Acted {
        table,
        keeper,
        answer: Some(answer),
    }
}

// What a line asks; nothing where it is bad, as none is of a text that is answered.
fn ask_in(line: &[u8]) -> Ask
    ensures { result ≡ asks (ask_of line.now) }
{
    match asked_by(line) {
        Ok(ask) => ask,
        Err(_) => Ask::Empty,
    }
}

// What a line asks is done.
fn act(t: SwapTable, k: Keeper, ask: Ask) -> Acted
    requires { Standing t k × Sized ask }
    ensures { (result ≡ acted ask t k) × Standing result.table result.keeper }
{
    match ask {
        Ask::Empty => silent(t, k),
        Ask::Asked(v) => asked(t, k, v),
        Ask::Length(n) => silent(resized(t, n), k),
        Ask::Set(f, row) => silent(with_row(t, f, row), k),
    }
}

// How many answers that is.
fn more(answer: Option<Answer>) -> u32
    ensures value { result ≡ more answer }
    ensures most { result ≤ 1 }
{
    match answer {
        Some(_) => 1,
        None => 0,
    }
}

// The line of an answer.
fn answered<W: Write>(out: &mut W, number: u32, answer: Answer) -> io::Result<()>
    ensures { OnOk result (Appends (W.contents out.old) (W.contents out.new) (line number answer)) }
{
    let mut said = [0u8; 128];
    let Some(n) = write_answer(&mut said, number, answer) else {
        unreachable!();
    };
    out.write_all(&said[..n])
}

// The same, where there is an answer.
fn told<W: Write>(out: &mut W, number: u32, answer: Option<Answer>) -> io::Result<()>
    ensures { OnOk result (Appends (W.contents out.old) (W.contents out.new) (answer_text number answer)) }
{
    match answer {
        Some(answer) => answered(out, number, answer),
        None => Ok(()),
    }
}

// The lines of a text whose lines are all good. A write that fails ends it.
fn run<W: Write>(out: &mut W, text: &[u8]) -> io::Result<()>
    requires { length text.now < 65537 }
    ensures { OnOk result (Appends (W.contents out.old) (W.contents out.new) (said text.now)) }
{
    let mut t = lender::fresh();
    let mut k = lent::fresh();
    let mut number: u32 = 0;
    let mut at: usize = 0;
    // No iterator gives these lines: where the next one begins is what `words` says of this one.
    while at < text.len() {
        let line = line_in(text, at);
        let end = line.end;
        let ask = ask_in(&text[at..end]);
        let done = act(t, k, ask);
        number += more(done.answer);
        told(out, number, done.answer)?;
        t = done.table;
        k = done.keeper;
        at = line.next;
    }
    Ok(())
}

// What is said of a bad word of a line.
fn tell<W: Write>(err: &mut W, line: &[u8], number: u64, bad: Bad) -> io::Result<()>
    ensures { OnOk result (Appends (W.contents err.old) (W.contents err.new) (complaint number (nth line.now bad.word) (expected_text bad.expected))) }
{
    let mut said = [0u8; 256];
    let words = words_of(bad.expected);
    let found = nth_word(line, bad.word);
    let Some(n) = complain(&mut said, number, found, words) else {
        unreachable!();
    };
    err.write_all(&said[..n])
}

// What was expected, in words.
fn words_of(expected: Expected) -> &'static [u8]
    ensures { result.now ≡ expected_text expected }
{
    match expected {
        Expected::Command => b"refill, fault, report, end, rows or row",
        Expected::Number => b"a number from 0 to 4294967295, decimal or 0x",
        Expected::Cause => b"load, store or mod",
        Expected::Outcome => b"ok or failed",
        Expected::Count => b"a number of rows from 0 to 64",
        Expected::Frame => b"a frame from 0 to 63",
        Expected::Byte => b"a number from 0 to 255",
        Expected::Nothing => b"the end of the line",
    }
}

// All lines are good; the first that is not is told.
fn all_good<E: Write>(err: &mut E, text: &[u8]) -> io::Result<bool>
    ensures good { IfOk result (λ all. all ≡ good text.now) }
    ensures quiet { IfOk result (λ all. all ≡ true → Keeps (E.contents err.old) (E.contents err.new)) }
    ensures told { OnOk result (Appends (E.contents err.old) (E.contents err.new) (complaint_of text.now)) }
{
    let mut number: u64 = 0;
    let mut at: usize = 0;
    // As in `run`.
    while at < text.len() {
        number += 1;
        let line = line_in(text, at);
        let end = line.end;
        let ask = asked_by(&text[at..end]);
        if let Err(bad) = ask {
            tell(err, &text[at..end], number, bad)?;
            return Ok(false);
        }
        at = line.next;
    }
    Ok(true)
}

// The lines of a text, or what is wrong with it.
fn work<W: Write, E: Write>(out: &mut W, err: &mut E, text: &[u8]) -> io::Result<Ending>
    requires { length text.now < 65537 }
    ensures { IfOk result (λ ending. Ends ending text.now (W.contents out.old) (W.contents out.new) (E.contents err.old) (E.contents err.new)) }
{
    if !all_good(err, text)? {
        return Ok(Ending::Told);
    }
    match run(out, text) {
        Ok(()) => Ok(Ending::Answered),
        Err(error) if is_reader_gone(&error) => Ok(Ending::ReaderGone),
        Err(_) => Ok(Ending::Unwritten),
    }
}

fn main(rt: HostRuntime) -> io::Result<ExitCode> {
    let mut text = [0u8; ENOUGH];
    let Ok(n) = streams::read(&mut rt.stdin(), &mut text) else {
        eprintln!(rt; "the text can't be read")?;
        return Ok(ExitCode::SUCCESS);
    };
    if ENOUGH <= n {
        eprintln!(rt; "the text has more than 65536 bytes")?;
        return Ok(ExitCode::SUCCESS);
    }
    match work(&mut rt.stdout(), &mut rt.stderr(), &text[..n])? {
        Ending::Answered | Ending::Told => {}
        Ending::Unwritten => eprintln!(rt; "the lines can't be written")?,
        Ending::ReaderGone => return Ok(ExitCode::from(READER_GONE)),
    }
    Ok(ExitCode::SUCCESS)
}
