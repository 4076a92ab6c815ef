// The text that tries the sleepers out: a line as an operation, and an answer as a line.
//     gap N, ask U A1, tick, end U        numbers are decimal, A1 also negative
#![tactic(auto)]

ghost use Rattle.std.specs.Prelude.{◌≡◌, ◌∷◌, ◌+◌, ◌≤◌, length, take};
ghost use Rattle.report.specs.Buffer.{Puts};
ghost use Rattle.words.specs.Texts.{nth};
ghost use Rattle.words.specs.Complaints.{complaint, around, Complains};
ghost use Rattle.sleep_text.specs.Lines.{ended, gap_line, ask_line, end_line, parsed, wanted_text, bad_from};
ghost use Rattle.sleep_text.specs.Answers.{follows_word, word_of, spelt, told_of, Tellable, told_line, longest};

use report::{Tell, add_number, put_byte, put_bytes, put_decimal};
use sleeps::{Answer, Follows, Operation, PLACES};
use words::{absent_at, complain, decimal_at, line_at, nth_word, same_at, signed_word_at};

// What a line was expected to have.
#[derive(Clone, Copy, PartialEq, Eq)]
pub enum Wanted {
    Verb,
    Microseconds,
    Proc,
    Seconds,
    NoMore,
}

// What is wrong with a line: the word with so many before it is not what was expected.
#[derive(Clone, Copy, PartialEq, Eq)]
pub struct Bad {
    pub word: usize,
    pub wanted: Wanted,
}

// The greatest number of a gap, and of a word of 32 bits.
const TOP_64: u64 = 18446744073709551615;

const TOP_32: u64 = 4294967295;

// The operation, where the line has no word more.
fn ended(line: &[u8], k: usize, operation: Operation) -> Result<Option<Operation>, Bad>
    ensures { result ≡ ended line.now k operation }
{
    if absent_at(line, k) {
        return Ok(Some(operation));
    }
    Err(Bad {
        word: k,
        wanted: Wanted::NoMore,
    })
}

// "gap N"
fn gap_line(line: &[u8]) -> Result<Option<Operation>, Bad>
    ensures { result ≡ gap_line line.now }
{
    let gap = decimal_at(line, 1, TOP_64).ok_or(Bad {
        word: 1,
        wanted: Wanted::Microseconds,
    })?;
    ended(line, 2, Operation::Gap(gap))
}

// "ask U A1"
fn ask_line(line: &[u8]) -> Result<Option<Operation>, Bad>
    ensures { result ≡ ask_line line.now }
{
    let u = decimal_at(line, 1, TOP_32).ok_or(Bad {
        word: 1,
        wanted: Wanted::Proc,
    })?;
    let a1 = signed_word_at(line, 2).ok_or(Bad {
        word: 2,
        wanted: Wanted::Seconds,
    })?;
    ended(line, 3, Operation::Ask(u as u32, a1 as u32))
}

// "end U"
fn end_line(line: &[u8]) -> Result<Option<Operation>, Bad>
    ensures { result ≡ end_line line.now }
{
    let u = decimal_at(line, 1, TOP_32).ok_or(Bad {
        word: 1,
        wanted: Wanted::Proc,
    })?;
    ended(line, 2, Operation::End(u as u32))
}

// What a line says: an operation, or nothing.
pub fn parse(line: &[u8]) -> Result<Option<Operation>, Bad>
    ensures { result ≡ parsed line.now }
{
    if absent_at(line, 0) {
        return Ok(None);
    }
    if same_at(line, 0, b"gap") {
        return gap_line(line);
    }
    if same_at(line, 0, b"ask") {
        return ask_line(line);
    }
    if same_at(line, 0, b"tick") {
        return ended(line, 1, Operation::Tick);
    }
    if same_at(line, 0, b"end") {
        return end_line(line);
    }
    Err(Bad {
        word: 0,
        wanted: Wanted::Verb,
    })
}

// The first line that is not what was expected: its number, where it begins and ends, and what is wrong with it.
#[derive(Clone, Copy, PartialEq, Eq)]
pub struct Wrong {
    pub number: u64,
    pub from: usize,
    pub to: usize,
    pub bad: Bad,
}

// Every line of a text is looked at, up to the first bad one.
pub fn first_bad(text: &[u8]) -> Result<(), Wrong>
    ensures { result ≡ bad_from (length text.now) text.now 0 1 }
{
    let mut at = 0;
    let mut number = 1;
    // A `while`, since a place goes on by a line: that is no index of a list that is there to be walked.
    while at < text.len() {
        let line = line_at(text, at);
        if let Err(bad) = parse(&text[at..line.end]) {
            return Err(Wrong {
                number,
                from: at,
                to: line.end,
                bad,
            });
        }
        at = line.next;
        number += 1;
    }
    Ok(())
}

// "line N: found 'WORD', expected TEXT"
fn complain_word(out: &mut [u8], number: u64, word: &[u8], wanted: Wanted) -> Option<usize>
    ensures { Complains (complaint number word.now (wanted_text wanted)) (around + length (wanted_text wanted)) out.old out.new result }
{
    match wanted {
        Wanted::Verb => complain(out, number, word, b"gap, ask, tick or end"),
        Wanted::Microseconds => complain(
            out,
            number,
            word,
            b"microseconds from 0 to 18446744073709551615",
        ),
        Wanted::Proc => complain(out, number, word, b"a U-proc number from 0 to 4294967295"),
        Wanted::Seconds => complain(out, number, word, b"seconds from -2147483648 to 2147483647"),
        Wanted::NoMore => complain(out, number, word, b"the end of the line"),
    }
}

// The same of a line and the word in it that is not what was expected.
pub fn complain_of(out: &mut [u8], number: u64, line: &[u8], bad: Bad) -> Option<usize>
    ensures { Complains (complaint number (nth line.now bad.word) (wanted_text bad.wanted)) (around + length (wanted_text bad.wanted)) out.old out.new result }
{
    complain_word(out, number, nth_word(line, bad.word), bad.wanted)
}

// The word of what follows.
fn put_follows(out: &mut [u8], at: usize, follows: Follows) -> usize
    requires { at + length (follows_word follows) ≤ length out.old }
    ensures { Puts (follows_word follows) out.old at out.new result }
{
    match follows {
        Follows::Nothing => put_bytes(out, at, b"quiet"),
        Follows::Sleeps => put_bytes(out, at, b"sleep"),
        Follows::Ends => put_bytes(out, at, b"end"),
        Follows::Wakes => put_bytes(out, at, b"wake"),
        Follows::Ended => put_bytes(out, at, b"ended"),
    }
}

// The word of an answer: "none" where it is refused.
fn put_verdict(out: &mut [u8], at: usize, refusal: u8, follows: Follows) -> usize
    requires { at + length (word_of refusal follows) ≤ length out.old }
    ensures { Puts (word_of refusal follows) out.old at out.new result }
{
    match refusal {
        0 => put_follows(out, at, follows),
        _ => put_bytes(out, at, b"none"),
    }
}

// Numbers, each behind a space.
fn put_numbers(out: &mut [u8], at: usize, numbers: &[u32]) -> usize
    requires { at + length (spelt numbers.now) ≤ length out.old }
    ensures { Puts (spelt numbers.now) out.old at out.new result }
{
    let mut next = at;
    for number in numbers {
        next = add_number(out, next, u64::from(*number));
    }
    next
}

// As many bytes as the longest line of an answer has at most.
pub const LONGEST: usize = 47;

// What a line tells of an answer, with a number for its refusal, any byte: "REFUSAL", or 0.
// Kept, a count beside an array: those of the answer.
#[derive(Clone, Copy)]
pub struct Told {
    pub refusal: u8,
    pub follows: Follows,
    pub count: usize,
    pub woken: [u32; PLACES],
}

impl Tell<Told> for Answer {
    ghost told = { told_of };

    fn tell(self) -> Told {
        let woken = self.woken;
        Told {
            refusal: self.refusal.map_or(0, |refusal| refusal.number()),
            follows: self.follows,
            count: self.count,
            woken,
        }
    }
}

// "N REFUSAL WORD [U ..]", and a newline.
fn write_told(out: &mut [u8], number: u64, told: Told) -> Option<usize>
    requires { Tellable told }
    ensures { Complains (told_line number told) longest out.old out.new result }
{
    if out.len() < LONGEST {
        return None;
    }
    let mut at = put_decimal(out, 0, number);
    at = add_number(out, at, told.refusal as u64);
    at = put_byte(out, at, b' ');
    at = put_verdict(out, at, told.refusal, told.follows);
    at = put_numbers(out, at, &told.woken[..told.count]);
    at = put_byte(out, at, b'\n');
    Some(at)
}

// The line of an answer, or of what is told of one: the refusal may be any byte.
pub fn write_answer<A: Tell<Told>>(out: &mut [u8], number: u64, answer: A) -> Option<usize>
    requires { Tellable (A.told answer) }
    ensures { Complains (told_line number (A.told answer)) longest out.old out.new result }
{
    write_told(out, number, answer.tell())
}
