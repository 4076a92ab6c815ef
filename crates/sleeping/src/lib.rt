// The sleepers by value: each operation takes them and hands them back, with the answer beside them. The rules are
// those of crate sleeps.
#![tactic(auto)]

ghost use Rattle.std.specs.Prelude.{IfSome, ◌≡◌, [], ◌+◌, ◌≤◌, ◌<◌, length};
ghost use Rattle.std.specs.List.{position_from, prefix_len};
ghost use Rattle.sleeps.specs.Numbers.{places};
ghost use Rattle.sleeps.specs.Rules.{outside, is, refused, answered, pass, ask, tick, end, step, nobody};
ghost use Rattle.sleeping.specs.Rows.{no_later, numbers_of};
ghost use Rattle.sleeping.specs.Promised.{Good, view, grown, shrunk, Comes};

use sleeps::{Answer, Follows, Operation, PLACES, Refusal, Sleeper, Sleepers, Turn};

// 01: "2 to the 62".
const TIME_LIMIT: u64 = 4611686018427387904;

// "the seconds in microseconds"
const SECOND: u64 = 1000000;

// "a1 is read as signed": from here on it is below zero.
const SIGN: u32 = 2147483648;

// "outside 1 to 8"
const FIRST_PROC: u32 = 1;

const LAST_PROC: u32 = 8;

// A row that is no sleeper's.
const BLANK: Sleeper = Sleeper { wake: 0, number: 0 };

// An answer of which nothing follows.
const QUIET: Answer = Answer {
    refusal: None,
    follows: Follows::Nothing,
    count: 0,
    woken: [0; PLACES],
};

// The first place of a sleeper of that number.
fn place_of(rows: &[Sleeper], number: u32) -> Option<usize>
    ensures first { result ≡ position_from (is number) 0 rows.now }
    ensures within { IfSome result (λ i. i < length rows.now) }
{
    rows.iter().position(|x| x.number == number)
}

// How many, from the first on, wake no later than a time.
fn no_later(rows: &[Sleeper], time: u64) -> usize
    ensures lead { result ≡ prefix_len (no_later time) rows.now }
    ensures within { result ≤ length rows.now }
{
    rows.iter().take_while(|x| x.wake <= time).count()
}

// One more sleeper, at a place: those from there on move back by one.
fn put_in(sleepers: Sleepers, at: usize, x: Sleeper) -> Sleepers
    requires { (at ≤ sleepers.count) × (sleepers.count < places) }
    ensures { result ≡ grown sleepers at x }
{
    let n = sleepers.count;
    let mut rows = sleepers.rows;
    rows.copy_within(at..n, at + 1);
    rows[at] = x;
    Sleepers {
        count: n + 1,
        rows,
        ..sleepers
    }
}

// The sleepers without k of them from a place on: those behind move up, and the freed places are nought.
fn cut_out(sleepers: Sleepers, at: usize, k: usize) -> Sleepers
    requires { (at + k ≤ sleepers.count) × (sleepers.count ≤ places) }
    ensures { result ≡ shrunk sleepers at k }
{
    let n = sleepers.count;
    let mut rows = sleepers.rows;
    rows.copy_within(at + k..n, at);
    rows[n - k..n].fill(BLANK);
    Sleepers {
        count: n - k,
        rows,
        ..sleepers
    }
}

// The numbers of the rows, and noughts behind them.
fn numbers(rows: &[Sleeper]) -> [u32; PLACES]
    requires { length rows.now ≤ places }
    ensures { result ≡ numbers_of rows.now (length rows.now) }
{
    let mut all = [0; PLACES];
    for (i, x) in rows.iter().enumerate() {
        all[i] = x.number;
    }
    all
}

// "a U-proc number outside 1 to 8"
fn is_outside(number: u32) -> bool
    ensures { result ≡ outside number }
{
    !(FIRST_PROC..=LAST_PROC).contains(&number)
}

// A refusal: nothing changes.
// Kept, an early return and no `?`: a refusal is itself an answer, handed back beside the sleepers as any other.
fn refused(sleepers: Sleepers, refusal: Refusal) -> Turn
    requires { Good sleepers }
    ensures { Comes (refused refusal (view sleepers)) result }
{
    let answer = Answer {
        refusal: Some(refusal),
        ..QUIET
    };
    Turn { answer, sleepers }
}

// What follows, with nobody woken.
// Kept, `Good` as a premise here and below: `Sleepers` is a plain struct, whose public fields and operations docs/ names.
pub fn answered(sleepers: Sleepers, follows: Follows) -> Turn
    requires { Good sleepers }
    ensures { Comes (answered follows [] (view sleepers)) result }
{
    let answer = Answer { follows, ..QUIET };
    Turn { answer, sleepers }
}

// Nothing has passed and nobody sleeps.
pub fn fresh() -> Sleepers
    ensures { Good result × (view result ≡ nobody) }
{
    Sleepers {
        sum: 0,
        count: 0,
        rows: [BLANK; PLACES],
    }
}

// A gap passes. One that would bring the sum above its limit is no accepted gap: it is refused, and nothing changes.
pub fn pass(sleepers: Sleepers, gap: u64) -> Turn
    requires { Good sleepers }
    ensures { Comes (pass gap (view sleepers)) result }
{
    let sum = sleepers.sum;
    if TIME_LIMIT - sum < gap {
        return refused(sleepers, Refusal::TimeFull);
    }
    let later = Sleepers {
        sum: sum + gap,
        ..sleepers
    };
    answered(later, Follows::Nothing)
}

// A U-proc asks to sleep a1 seconds. The wake time fits: the sum is at most 2 to the 62, and the most seconds,
// 2,147,483,647, are less than 2 to the 51 microseconds.
pub fn ask(sleepers: Sleepers, number: u32, a1: u32) -> Turn
    requires { Good sleepers }
    ensures { Comes (ask number a1 (view sleepers)) result }
{
    if is_outside(number) {
        return refused(sleepers, Refusal::NoSuchProc);
    }
    let rows = sleepers.rows;
    let line = &rows[..sleepers.count];
    if place_of(line, number).is_some() {
        return refused(sleepers, Refusal::AsleepAlready);
    }
    if SIGN <= a1 {
        return answered(sleepers, Follows::Ends);
    }
    let wake = sleepers.sum + a1 as u64 * SECOND;
    let at = no_later(line, wake);
    let more = put_in(sleepers, at, Sleeper { wake, number });
    answered(more, Follows::Sleeps)
}

// A tick: "just those whose wake time is not above that sum are woken, soonest first".
pub fn tick(sleepers: Sleepers) -> Turn
    requires { Good sleepers }
    ensures { Comes (tick (view sleepers)) result }
{
    let rows = sleepers.rows;
    let k = no_later(&rows[..sleepers.count], sleepers.sum);
    if k == 0 {
        return answered(sleepers, Follows::Nothing);
    }
    let answer = Answer {
        follows: Follows::Wakes,
        count: k,
        woken: numbers(&rows[..k]),
        ..QUIET
    };
    let left = cut_out(sleepers, 0, k);
    Turn {
        answer,
        sleepers: left,
    }
}

// A U-proc has ended: its sleep is over, and nobody else's changes.
pub fn end(sleepers: Sleepers, number: u32) -> Turn
    requires { Good sleepers }
    ensures { Comes (end number (view sleepers)) result }
{
    if is_outside(number) {
        return refused(sleepers, Refusal::NoSuchProc);
    }
    let rows = sleepers.rows;
    let Some(i) = place_of(&rows[..sleepers.count], number) else {
        return answered(sleepers, Follows::Nothing);
    };
    let left = cut_out(sleepers, i, 1);
    answered(left, Follows::Ended)
}

// Whatever may happen.
pub fn step(sleepers: Sleepers, operation: Operation) -> Turn
    requires { Good sleepers }
    ensures { Comes (step operation (view sleepers)) result }
{
    match operation {
        Operation::Gap(gap) => pass(sleepers, gap),
        Operation::Ask(number, a1) => ask(sleepers, number, a1),
        Operation::Tick => tick(sleepers),
        Operation::End(number) => end(sleepers, number),
    }
}
