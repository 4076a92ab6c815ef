// The program that tries the sleepers out: it reads lines `gap N`, `ask U A1`, `tick`, `end U` on standard input
// and writes a line for each of the last three. Where a line is bad it writes one line on standard error and
// nothing else.
#![tactic(auto)]

ghost use Rattle.std.specs.Prelude.{◌≡◌, ◌+◌, ◌≤◌, ◌<◌, length, IfOk, OnOk};
ghost use Rattle.std.specs.Io.KnownBytes.{Appends};
ghost use Rattle.words.specs.Texts.{nth};
ghost use Rattle.words.specs.Complaints.{complaint};
ghost use Rattle.sleeping.specs.Promised.{Good, Whole, view};
ghost use Rattle.sleep_text.specs.Lines.{wanted_text};
ghost use Rattle.sleep_text.specs.Answers.{answer_line};
ghost use Rattle.run_sleep.specs.Said.{is_gap, line_said, said, Ends};

use sleep_text::Bad;
use sleeps::{Answer, Operation, Sleepers};
use std::io;
use std::io::Write;
use std::process::ExitCode;
use streams::{READER_GONE, is_reader_gone};
use words::line_in;

// One byte more than a text may have, 65,536: enough to know that it has more.
const ENOUGH: usize = 65537;

// Room for a line, of an answer or about a bad line.
const LINE: usize = 256;

// The sleepers, and how many answers were written.
#[derive(Clone, Copy)]
struct Going {
    sleepers: Sleepers,
    number: u64,
}

// How a text ends: all is answered; a bad line is told; a line can't be written; or whoever read them has gone.
#[derive(Clone, Copy)]
enum Ending {
    Answered,
    Told,
    Unwritten,
    ReaderGone,
}

// An answer's line.
fn say<W: Write>(out: &mut W, number: u64, answer: Answer) -> io::Result<()>
    requires { Whole answer }
    ensures { OnOk result (Appends (W.contents out.old) (W.contents out.new) (answer_line number answer)) }
{
    let mut line = [0u8; LINE];
    let written = sleep_text::write_answer(&mut line, number, answer);
    let Some(n) = written else {
        unreachable!();
    };
    out.write_all(&line[..n])
}

// A gap "writes nothing".
fn is_gap(operation: Operation) -> bool
    ensures { result ≡ is_gap operation }
{
    matches!(operation, Operation::Gap(_))
}

// What a line says is done, and answered.
fn turn<W: Write>(
    out: &mut W,
    sleepers: Sleepers,
    parsed: Result<Option<Operation>, Bad>,
    number: u64,
) -> io::Result<Going>
    requires { Good sleepers × (number + 1 ≤ 18446744073709551615) }
    ensures good { IfOk result (λ going. Good going.sleepers × (going.number ≤ number + 1)) }
    ensures after { IfOk result (λ going. (view going.sleepers ≡ (line_said parsed (view sleepers) number).after) × (going.number ≡ (line_said parsed (view sleepers) number).number)) }
    ensures bytes { OnOk result (Appends (W.contents out.old) (W.contents out.new) (line_said parsed (view sleepers) number).bytes) }
{
    let Ok(Some(operation)) = parsed else {
        return Ok(Going { sleepers, number });
    };
    let done = sleeping::step(sleepers, operation);
    let after = done.sleepers;
    if is_gap(operation) {
        return Ok(Going {
            sleepers: after,
            number,
        });
    }
    say(out, number + 1, done.answer)?;
    Ok(Going {
        sleepers: after,
        number: number + 1,
    })
}

// Every line in order. A write that fails ends it.
fn answer<W: Write>(out: &mut W, text: &[u8]) -> io::Result<()>
    ensures { OnOk result (Appends (W.contents out.old) (W.contents out.new) (said text.now)) }
{
    let mut sleepers = sleeping::fresh();
    let mut number = 0;
    let mut at = 0;
    // A `while`, since a place goes on by a line: that is no index of a list that is there to be walked.
    while at < text.len() {
        let line = line_in(text, at);
        let parsed = sleep_text::parse(&text[at..line.end]);
        let going = turn(out, sleepers, parsed, number)?;
        sleepers = going.sleepers;
        number = going.number;
        at = line.next;
    }
    Ok(())
}

// The one line about a bad line.
fn complain<E: Write>(err: &mut E, number: u64, line: &[u8], bad: Bad) -> io::Result<()>
    ensures { OnOk result (Appends (E.contents err.old) (E.contents err.new) (complaint number (nth line.now bad.word) (wanted_text bad.wanted))) }
{
    let mut said = [0u8; LINE];
    let written = sleep_text::complain_of(&mut said, number, line, bad);
    let Some(n) = written else {
        unreachable!();
    };
    err.write_all(&said[..n])
}

// A text that is whole: looked at first, and then answered.
fn go<W: Write, E: Write>(out: &mut W, err: &mut E, text: &[u8]) -> io::Result<Ending>
    ensures { IfOk result (λ ending. Ends ending text.now (W.contents out.old) (W.contents out.new) (E.contents err.old) (E.contents err.new)) }
{
    if let Err(wrong) = sleep_text::first_bad(text) {
        complain(err, wrong.number, &text[wrong.from..wrong.to], wrong.bad)?;
        return Ok(Ending::Told);
    }
    match answer(out, text) {
        Ok(()) => Ok(Ending::Answered),
        Err(error) if is_reader_gone(&error) => Ok(Ending::ReaderGone),
        Err(_) => Ok(Ending::Unwritten),
    }
}

fn main(rt: HostRuntime) -> io::Result<ExitCode> {
    let mut text = [0u8; ENOUGH];
    let Ok(n) = streams::read(&mut rt.stdin(), &mut text) else {
        eprintln!(rt; "the text can't be read")?;
        return Ok(ExitCode::SUCCESS);
    };
    if ENOUGH <= n {
        eprintln!(rt; "the text has more than 65536 bytes")?;
        return Ok(ExitCode::SUCCESS);
    }
    match go(&mut rt.stdout(), &mut rt.stderr(), &text[..n])? {
        Ending::Answered | Ending::Told => {}
        Ending::Unwritten => eprintln!(rt; "the lines can't be written")?,
        Ending::ReaderGone => return Ok(ExitCode::from(READER_GONE)),
    }
    Ok(ExitCode::SUCCESS)
}
