// A text taken apart by lines and words, for the programs that read one, and the complaint that such a program
// makes of a bad line. A word that is no number that is allowed says `None`. A line ends at a newline; blanks and tabs
// stand between its words; `#` begins a remark to the line's end. A place is counted in bytes from 0; at or past the end of a text there is nothing more.
#![tactic(auto)]

ghost use Rattle.std.specs.Prelude.{◌≡◌, ℕ, Bool, ◌+◌, ◌≤◌, ◌<◌, eqb, length, drop};
ghost use Rattle.report.specs.Buffer.{Puts};
ghost use Rattle.words.specs.Texts.{blank, content, run, line_at, next_word, word_at, nth, same};
ghost use Rattle.words.specs.Figures.{base_number, digit_of, number_of, decimal_of, hexadecimal_of, signed_word_of};
ghost use Rattle.words.specs.Complaints.{shown, around, complaint, Complains};

use report::{put_byte, put_bytes, put_decimal};

// The line at a place: where what it says ends, before its remark or its newline, and where the next line begins.
#[derive(Clone, Copy)]
pub struct Line {
    pub end: usize,
    pub next: usize,
}

// A word's bytes are those from one place up to another; where there is no word the two are the same.
#[derive(Clone, Copy)]
pub struct Word {
    pub from: usize,
    pub to: usize,
}

// A blank or a tab.
fn is_blank(b: u8) -> bool
    ensures { result ≡ blank b }
{
    matches!(b, b' ' | b'\t')
}

// Neither a newline nor the `#` of a remark.
fn is_content(b: u8) -> bool
    ensures { result ≡ content b }
{
    !matches!(b, b'\n' | b'#')
}

// The place behind the run of bytes that pass a test, from a place on.
fn run<F: Fn(u8) -> bool>(text: &[u8], at: usize, passes: F) -> usize
    requires { F.IsAlwaysCallable passes }
    ensures { (p : ℕ → Bool) → ((b : ℕ) (r : Bool) → F.post passes b r → r ≡ p b) → result ≡ at + run p (drop at text.now) }
{
    // The text is cut first: `skip` would walk over all that is before the place.
    let rest = &text[at.min(text.len())..];
    at + rest.iter().take_while(|b| passes(**b)).count()
}

// The line that begins at a place.
pub fn line_at(text: &[u8], at: usize) -> Line
    ensures { result ≡ line_at text.now at }
{
    let end = run(text, at, is_content);
    let stop = run(text, end, |b| b != b'\n');
    if stop < text.len() {
        return Line {
            end,
            next: stop + 1,
        };
    }
    Line { end, next: stop }
}

// The line at a place: within the text, and the next one begins behind it.
pub fn line_in(text: &[u8], at: usize) -> Line
    requires { at < length text.now }
    ensures within { (at ≤ result.end) × (result.end ≤ length text.now) × (at < result.next) × (result.next ≤ length text.now) }
    ensures place { result ≡ line_at text.now at }
{
    line_at(text, at)
}

// The first word of a line from a place on.
fn next_word(line: &[u8], at: usize) -> Word
    ensures { result ≡ next_word line.now at }
{
    let from = run(line, at, is_blank);
    let to = run(line, from, |b| !is_blank(b));
    Word { from, to }
}

// The word of a line with k words before it.
pub fn word_at(line: &[u8], k: usize) -> Word
    ensures { result ≡ word_at line.now k }
{
    let mut found = next_word(line, 0);
    for _ in 0..k {
        found = next_word(line, found.to);
    }
    found
}

// Its bytes: none where the line has no such word.
pub fn nth_word(line: &[u8], k: usize) -> &[u8]
    ensures { result.now ≡ nth line.now k }
{
    let word = word_at(line, k);
    &line[word.from..word.to]
}

// Two words are the same, byte by byte.
pub fn same(one: &[u8], other: &[u8]) -> bool
    ensures { result ≡ same one.now other.now }
{
    one == other
}

// What a digit stands for.
fn digit_value(b: u8) -> Option<u64>
    ensures { result ≡ digit_of b }
{
    match b {
        b'0'..=b'9' => Some(u64::from(b - b'0')),
        b'A'..=b'F' => Some(u64::from(b - b'A') + 10),
        b'a'..=b'f' => Some(u64::from(b - b'a') + 10),
        _ => None,
    }
}

// What the digits of a number count in.
#[derive(Clone, Copy)]
enum Base {
    Ten,
    Sixteen,
}

impl Base {
    fn number(self) -> u64
        ensures { result ≡ base_number self }
    {
        match self {
            Base::Ten => 10,
            Base::Sixteen => 16,
        }
    }
}

// A number of a base that is not above a limit: at least one digit, and nothing but digits.
fn figures(word: &[u8], base: Base, limit: u64) -> Option<u64>
    ensures { result ≡ number_of (base_number base) limit word.now }
{
    if word.is_empty() {
        return None;
    }
    let number = base.number();
    let mut value: u64 = 0;
    for b in word {
        let digit = digit_value(*b)?;
        if number <= digit {
            return None;
        }
        value = value.checked_mul(number)?.checked_add(digit)?;
        if limit < value {
            return None;
        }
    }
    Some(value)
}

// A decimal number that is not above a limit.
pub fn decimal(word: &[u8], limit: u64) -> Option<u64>
    ensures { result ≡ decimal_of limit word.now }
{
    figures(word, Base::Ten, limit)
}

// A number of base sixteen behind `0x`, not above a limit.
pub fn hexadecimal(word: &[u8], limit: u64) -> Option<u64>
    ensures { result ≡ hexadecimal_of limit word.now }
{
    match word {
        [b'0', b'x', digits @ ..] => figures(digits, Base::Sixteen, limit),
        _ => None,
    }
}

// A signed decimal number of 32 bits, `-` before one below zero, as the word that stands for it: −1 is 4,294,967,295.
pub fn signed_word(word: &[u8]) -> Option<u64>
    ensures { result ≡ signed_word_of word.now }
{
    match word {
        [b'-', digits @ ..] => {
            let size = decimal(digits, 2147483648)?;
            Some((4294967296 - size) % 4294967296)
        }
        _ => decimal(word, 2147483647),
    }
}

// The line has no word with k before it.
pub fn absent_at(line: &[u8], k: usize) -> bool
    ensures { result ≡ eqb (length (nth line.now k)) 0 }
{
    nth_word(line, k).is_empty()
}

// The word with k before it is a given one.
pub fn same_at(line: &[u8], k: usize, text: &[u8]) -> bool
    ensures { result ≡ same (nth line.now k) text.now }
{
    same(nth_word(line, k), text)
}

// The word with k before it as a decimal number.
pub fn decimal_at(line: &[u8], k: usize, limit: u64) -> Option<u64>
    ensures { result ≡ decimal_of limit (nth line.now k) }
{
    decimal(nth_word(line, k), limit)
}

// The word with k before it as a number of base sixteen.
pub fn hexadecimal_at(line: &[u8], k: usize, limit: u64) -> Option<u64>
    ensures { result ≡ hexadecimal_of limit (nth line.now k) }
{
    hexadecimal(nth_word(line, k), limit)
}

// The word with k before it as a signed number of 32 bits.
pub fn signed_word_at(line: &[u8], k: usize) -> Option<u64>
    ensures { result ≡ signed_word_of (nth line.now k) }
{
    signed_word(nth_word(line, k))
}

// As many bytes of a word as a complaint shows.
const SHOWN: usize = 40;

// As many bytes as a complaint has at most beside what was expected.
const AROUND: usize = 87;

fn put_shown(out: &mut [u8], at: usize, word: &[u8]) -> usize
    requires { at + length (shown word.now) ≤ length out.old }
    ensures { Puts (shown word.now) out.old at out.new result }
{
    if word.len() <= SHOWN {
        return put_bytes(out, at, word);
    }
    put_bytes(out, at, &word[..SHOWN])
}

// "line N: found 'WORD', expected TEXT", and a newline: what a program says of a bad line. Refused where the buffer
// has less than `AROUND` bytes beside the text.
pub fn complain(out: &mut [u8], number: u64, word: &[u8], expected: &[u8]) -> Option<usize>
    ensures { Complains (complaint number word.now expected.now) (around + length expected.now) out.old out.new result }
{
    let room = out.len();
    if room < AROUND {
        return None;
    }
    if room - AROUND < expected.len() {
        return None;
    }
    let mut at = put_bytes(out, 0, b"line ");
    at = put_decimal(out, at, number);
    at = put_bytes(out, at, b": found '");
    at = put_shown(out, at, word);
    at = put_bytes(out, at, b"', expected ");
    at = put_bytes(out, at, expected);
    at = put_byte(out, at, b'\n');
    Some(at)
}
