// The pager's text form: a line of the program's input taken apart, and an answer as the line that is written.
#![tactic(auto)]

ghost use Rattle.std.specs.Prelude.{Some, None, ◌≡◌, ◌∷◌, [], ◌+◌, ◌≤◌, ◌<◌, length};
ghost use Rattle.report.specs.Text.{decimal, space};
ghost use Rattle.report.specs.Buffer.{Puts, Writes};
ghost use Rattle.pager_text.specs.Answers;
ghost use Rattle.pager_text.specs.Answers.{name, shown, seen_of, line_of, told_of, told_line};

use pages::{Answer, Word};
use report::{Tell, add_number, put_byte, put_bytes, put_decimal};

// As many bytes as the longest line has at most: that of `report`.
const LONGEST: usize = report::LONGEST;

// What a line tells of an answer, with a number for its refusal, any byte: "refusal or 0".
#[derive(Clone, Copy)]
pub struct Told {
    pub refusal: u8,
    pub word: Word,
}

impl Tell<Told> for Answer {
    ghost told = { told_of };

    fn tell(self) -> Told {
        Told {
            refusal: self.refusal.map_or(0, |refusal| refusal.number()),
            word: self.word,
        }
    }
}

// The parts of an answer behind its word.
#[derive(Clone, Copy)]
pub struct Seen {
    pub u: Option<u8>,
    pub entry: Option<u8>,
    pub frame: Option<u8>,
    pub frames: u16,
}

// The frame of an entry as it stands.
fn frame_in(v: u8) -> Option<u8>
    ensures { result ≡ Answers.frame_in v }
{
    v.checked_sub(1)
}

fn page(u: u8, e: u8, f: Option<u8>) -> Seen
    ensures { result ≡ record { u = Some u; entry = Some e; frame = f; frames = 0 } }
{
    Seen {
        u: Some(u),
        entry: Some(e),
        frame: f,
        frames: 0,
    }
}

fn nothing(u: Option<u8>, frames: u16) -> Seen
    ensures { result ≡ record { u = u; entry = None; frame = None; frames = frames } }
{
    Seen {
        u,
        entry: None,
        frame: None,
        frames,
    }
}

// "U, ENTRY and FRAME are those of the page in question", and the mask of the frames freed.
fn parts_of(w: Word) -> Seen
    ensures { result ≡ seen_of w }
{
    match w {
        Word::None => nothing(None, 0),
        Word::Entry(u, e, v) => page(u, e, frame_in(v)),
        Word::Refresh(u, e, f) => page(u, e, Some(f)),
        Word::Write(f, o, g) => page(o, g, Some(f)),
        Word::Read(f, u, e) => page(u, e, Some(f)),
        Word::Resume(u, e, f) => page(u, e, Some(f)),
        Word::Trap(u) => nothing(Some(u), 0),
        Word::Freed(u, m) => nothing(Some(u), m),
    }
}

// "the word is one of none, entry, refresh, write, read, resume, trap, freed"
fn put_name(out: &mut [u8], at: usize, w: Word) -> usize
    requires { at + length (name w) ≤ length out.old }
    ensures { Puts (name w) out.old at out.new result }
{
    match w {
        Word::None => put_bytes(out, at, b"none"),
        Word::Entry(_, _, _) => put_bytes(out, at, b"entry"),
        Word::Refresh(_, _, _) => put_bytes(out, at, b"refresh"),
        Word::Write(_, _, _) => put_bytes(out, at, b"write"),
        Word::Read(_, _, _) => put_bytes(out, at, b"read"),
        Word::Resume(_, _, _) => put_bytes(out, at, b"resume"),
        Word::Trap(_) => put_bytes(out, at, b"trap"),
        Word::Freed(_, _) => put_bytes(out, at, b"freed"),
    }
}

fn add_name(out: &mut [u8], at: usize, w: Word) -> usize
    requires { at + length (space ∷ name w) ≤ length out.old }
    ensures { Puts (space ∷ name w) out.old at out.new result }
{
    let next = put_byte(out, at, b' ');
    put_name(out, next, w)
}

// A number, or "-" where it is absent.
fn add_shown(out: &mut [u8], at: usize, n: Option<u8>) -> usize
    requires { at + length (space ∷ shown n) ≤ length out.old }
    ensures { Puts (space ∷ shown n) out.old at out.new result }
{
    match n {
        Some(n) => add_number(out, at, n as u64),
        None => put_bytes(out, at, b" -"),
    }
}

// The line of a word and what is seen of it.
fn write_parts(out: &mut [u8], number: u32, refusal: u8, w: Word, seen: Seen) -> Option<usize>
    ensures { Writes (line_of number refusal w seen) out.old out.new result }
{
    if out.len() < LONGEST {
        return None;
    }
    let mut at = put_decimal(out, 0, number as u64);
    at = add_number(out, at, refusal as u64);
    at = add_name(out, at, w);
    at = add_shown(out, at, seen.u);
    at = add_shown(out, at, seen.entry);
    at = add_shown(out, at, seen.frame);
    at = add_number(out, at, seen.frames as u64);
    at = put_byte(out, at, b'\n');
    Some(at)
}

// "N REFUSAL WORD U ENTRY FRAME FRAMES", of an answer, or of what is told of one: the refusal may be any byte.
pub fn write_answer<A: Tell<Told>>(out: &mut [u8], number: u32, answer: A) -> Option<usize>
    ensures { Writes (told_line number (A.told answer)) out.old out.new result }
{
    let told = answer.tell();
    write_parts(out, number, told.refusal, told.word, parts_of(told.word))
}
