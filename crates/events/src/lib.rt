// One event: "tables and one event go in; new tables and the next action come out".
#![tactic(auto)]

ghost use Rattle.std.specs.Prelude.{◌≡◌, false, ◌&&◌, nat_le};
ghost use Rattle.starts.specs.Verdict.{ok_unless};
ghost use Rattle.rules.specs.Tables.{Sound};
ghost use Rattle.rules.specs.Numbers.{base_slots, base_sems, base_customers};
ghost use Rattle.rules.specs.Answers.{refusing, plain};
ghost use Rattle.rules.specs.Machine.{turn};
ghost use Rattle.rules.specs.Rules.{bad_line, needs_runner, perform, refusal, step, nothing_left};
ghost use Rattle.tables.specs.View.{view, Shape, Good};
ghost use Rattle.tables.specs.Promised.{Comes};
ghost use Rattle.events.specs.Promised.{Holds, Answers};

use crate::interrupts::{exception, interrupt};
use answers::refusal;
use calls::call;
use rules::{CUSTOMERS, Event, GAP, Mode, Refusal, SEMAPHORES, Status, TIME};
use std::num::wrapping_sub_u32;
use tables::{Settled, Tables};
use verdicts::{check, clock_of, unmanned};

mod interrupts;

// "The machine afterwards equals the machine before, last clock reading included."
fn refused(t: Tables, why: Refusal) -> Settled
    ensures { (result.tables ≡ t) × (result.answer ≡ refusing why plain) }
{
    Settled {
        tables: t,
        answer: refusal(why),
    }
}

// What an accepted event does, its gap charged.
fn perform(t: Tables, e: Event) -> Settled
    requires { Shape t × (bad_line e ≡ false) × ((needs_runner e && nat_le base_slots t.running) ≡ false) × Sound (view t) }
    ensures { Comes (perform e (view t)) result }
{
    match e {
        Event::Call {
            mode,
            a0,
            a1,
            a2,
            a3,
            ..
        } => call(t, mode, a0, a1, a2, a3),
        Event::Interrupt {
            line,
            first,
            second,
            ..
        } => interrupt(t, line, first, second),
        Event::Exception { code, .. } => exception(t, code),
    }
}

// "The first that applies is given": the rows of the table, in its order.
fn verdict(t: &Tables, e: Event) -> Result<(), Refusal>
    requires { Holds t.now }
    ensures { result ≡ ok_unless tt (refusal (view t.now) e) }
{
    if t.status != Status::On {
        return Err(Refusal::Over);
    }
    check(e)?;
    let gap = wrapping_sub_u32(clock_of(e), t.last);
    if GAP <= gap {
        return Err(Refusal::ClockBack);
    }
    let room = TIME - gap as u64;
    if room < t.total {
        return Err(Refusal::TimeFull);
    }
    if unmanned(e, t.running) {
        return Err(Refusal::NobodyRuns);
    }
    Ok(())
}

// An event at the processor that is here.
fn at_hand(t: Tables, e: Event) -> Settled
    requires { Holds t }
    ensures { Comes (step (view t) e) result }
{
    if let Err(why) = verdict(&t, e) {
        return refused(t, why);
    }
    let m = t.charge(clock_of(e));
    perform(m, e)
}

// Any event at any processor, on any machine that obeys the rule. "A processor number out of range is refused with 7,
// after 1"; else the machine turns to that processor, and back.
pub fn event(t: Tables, processor: u8, e: Event) -> Settled
    requires { Good t }
    ensures { Answers processor e t result }
{
    let k = processor as usize;
    if t.processors <= k {
        if t.status != Status::On {
            return refused(t, Refusal::Over);
        }
        return refused(t, Refusal::NoSuchProcessor);
    }
    let there = t.turn(k);
    let done = at_hand(there, e);
    let m = done.tables;
    Settled {
        tables: m.turn(k),
        answer: done.answer,
    }
}

// The least ceilings allowed; 02, (ii): "ceiling 0 is at least 1".
const LEAST: [u16; CUSTOMERS] = [1, 0, 0, 0, 0, 0, 0, 0, 0];

// "The machine left when the start with the least numbers allowed ends its id 1 at once (call −2, clock unchanged)."
pub fn left() -> Tables
    ensures { (view result ≡ turn 0 (nothing_left base_slots base_sems base_customers)) × Good result }
{
    let t = Tables::begun(0, [0; SEMAPHORES], LEAST, 1);
    let done = at_hand(
        t,
        Event::Call {
            clock: 0,
            mode: Mode::Kernel,
            a0: -2,
            a1: 0,
            a2: 0,
            a3: 0,
        },
    );
    let m = done.tables;
    m.turn(0)
}
