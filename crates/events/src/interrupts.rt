// "Interrupts": line 1 ends a slice, line 2 is the pseudo-clock, lines 3 to 7 are devices.
ghost use Rattle.std.specs.Prelude.{◌≡◌, ◌<◌, false};
ghost use Rattle.rules.specs.Numbers.{base_slots, sub_devices};
ghost use Rattle.rules.specs.declared.Event.TheVariants.{Interrupt};
ghost use Rattle.rules.specs.Rules.{tick, device_done, interrupt, exception, bad_line};
ghost use Rattle.tables.specs.View.{view, Shape};
ghost use Rattle.tables.specs.Promised.{Comes};

use answers::{bare, serves, wakes};
use rules::Cause;
use tables::{FIRST_DEVICE, Settled, Tables};
use verdicts::sub_device;

// Line 2.
fn ticks(t: Tables) -> Settled
    requires { Shape t }
    ensures { Comes (tick (view t)) result }
{
    let w = t.tick();
    let m = w.tables;
    let x = wakes(w.woken);
    m.resume(x)
}

// "The first in that sub-device's line becomes ready. If nobody waits, the interrupt is acknowledged and forgotten."
fn device_done(t: Tables, d: u8) -> Settled
    requires { Shape t × (d < sub_devices) }
    ensures { Comes (device_done d (view t)) result }
{
    let w = t.wake(d + FIRST_DEVICE);
    let m = w.tables;
    let x = serves(d, w.woken);
    m.resume(x)
}

// An interrupt that is not refused.
pub(crate) fn interrupt(t: Tables, line: u8, first: u8, second: u8) -> Settled
    requires { Shape t × (bad_line (Interrupt 0 line first second) ≡ false) × (line ≡ 1 → t.running < base_slots) }
    ensures { Comes (interrupt line first second (view t)) result }
{
    if line == 1 {
        let x = bare();
        return t.back(x);
    }
    if line == 2 {
        return ticks(t);
    }
    let d = sub_device(line, first, second);
    device_done(t, d)
}

// An exception that is not refused: "0-7, 9, 10 and 12-23 are program traps, 24-28 TLB exceptions".
pub(crate) fn exception(t: Tables, code: u8) -> Settled
    requires { Shape t × (t.running < base_slots) }
    ensures { Comes (exception code (view t)) result }
{
    if code < 24 {
        return t.pass_up_or_die(Cause::General);
    }
    t.pass_up_or_die(Cause::Tlb)
}
