// The desk with its sleepers: one event takes both and hands both back, with both answers beside them. The rules are in
// specs/Rules.antt, over the desk's own and those of crate sleeps.
#![tactic(auto)]

ghost use Rattle.std.specs.Prelude.{◌≡◌};
ghost use Rattle.events.specs.Promised.{at_processor};
ghost use Rattle.sleeping.specs.Promised.{view, Comes};
ghost use Rattle.sleeping.specs.Promised as sleeping;
ghost use Rattle.sleep_desk.specs.Rules.{goes_up, gap_told, request, tick_told, asked, heard, quiet, through};
ghost use Rattle.sleep_desk.specs.Promised.{Good, Serves, Kept, outcome};

use desk::Machine;
use rules::{Action, Cause, Event};
use sleeps::{Follows, Sleepers, Turn};
use std::num::wrapping_sub_u32;
use verdicts::clock_of;

// The desk's machine and the sleepers.
#[derive(Clone, Copy)]
pub struct Pair {
    pub machine: Machine,
    pub sleepers: Sleepers,
}

// The pair afterwards, the desk's answer, and the sleepers' answer.
#[derive(Clone, Copy)]
pub struct Served {
    pub pair: Pair,
    pub answer: rules::Answer,
    pub slept: sleeps::Answer,
}

// "call 18"
const SLEEP: i32 = 18;

// (xiii): "Sleep is timed by processor 0's gaps alone."
const TIMING: u8 = 0;

// Line 2, the pseudo-clock's.
const TICK: u8 = 2;

// A gap passes, at processor 0.
fn timed(sleepers: Sleepers, processor: u8, gap: u32) -> Turn
    requires { sleeping.Good sleepers }
    ensures { Comes (through (gap_told processor gap) (quiet (view sleepers))) result }
{
    if processor != TIMING {
        return sleeping::answered(sleepers, Follows::Nothing);
    }
    sleeping::pass(sleepers, gap as u64)
}

// The desk passes the event up, to the general exceptions.
fn goes_up(action: Action) -> bool
    ensures { result ≡ goes_up action }
{
    matches!(action, Action::PassUp(_, Cause::General))
}

// "a U-proc asks (call 18, passed up) to sleep a1 seconds"
fn requested(turn: Turn, number: u32, a0: i32, a1: u32, action: Action) -> Turn
    requires { Kept turn }
    ensures { Comes (through (request number a0 a1 action) (outcome turn)) result }
{
    if a0 != SLEEP {
        return turn;
    }
    if !goes_up(action) {
        return turn;
    }
    sleeping::ask(turn.sleepers, number, a1)
}

// "At a tick": line 2, on any processor.
fn ticked(turn: Turn, line: u8) -> Turn
    requires { Kept turn }
    ensures { Comes (through (tick_told line) (outcome turn)) result }
{
    if line != TICK {
        return turn;
    }
    sleeping::tick(turn.sleepers)
}

// What an accepted event asks of the sleepers, its gap passed.
fn asked(turn: Turn, number: u32, e: Event, action: Action) -> Turn
    requires { Kept turn }
    ensures { Comes (through (asked number e action) (outcome turn)) result }
{
    match e {
        Event::Call { a0, a1, .. } => requested(turn, number, a0, a1, action),
        Event::Interrupt { line, .. } => ticked(turn, line),
        Event::Exception { .. } => turn,
    }
}

// What the sleepers make of an event, by its gap and the desk's answer: a refused one tells them nothing.
fn told(
    sleepers: Sleepers,
    number: u32,
    processor: u8,
    e: Event,
    gap: u32,
    answer: rules::Answer,
) -> Turn
    requires { sleeping.Good sleepers }
    ensures { Comes (through (heard number (at_processor processor e) gap answer) (quiet (view sleepers))) result }
{
    if answer.refusal.is_some() {
        return sleeping::answered(sleepers, Follows::Nothing);
    }
    let turn = timed(sleepers, processor, gap);
    asked(turn, number, e, answer.action)
}

// Any event at any processor, and the number of the U-proc that the host names for its caller: any number, 0 where it
// names none. What is asked for another number than 1 to 8 the sleepers refuse with 9.
pub fn event(pair: Pair, processor: u8, e: Event, number: u32) -> Served
    requires { Good pair }
    ensures { Serves number processor e pair result }
{
    let before = pair.machine;
    let last = before.last(processor);
    let gap = wrapping_sub_u32(clock_of(e), last);
    let done = before.event(processor, e);
    let turn = told(pair.sleepers, number, processor, e, gap, done.answer);
    Served {
        pair: Pair {
            machine: done.machine,
            sleepers: turn.sleepers,
        },
        answer: done.answer,
        slept: turn.answer,
    }
}
