// "Calls, kernel mode only": the ten services, each of whoever runs.
#![tactic(auto)]

ghost use Rattle.std.specs.Prelude.{◌≡◌, ◌<◌};
ghost use Rattle.rules.specs.Numbers.{base_slots};
ghost use Rattle.rules.specs.Tables.{Sound};
ghost use Rattle.rules.specs.Rules.{call, create, terminate, passeren, verhogen, do_io, cpu_time, support, identity, carry_on};
ghost use Rattle.answers.specs.Parts.{with_result};
ghost use Rattle.tables.specs.View.{view, row, Shape};
ghost use Rattle.tables.specs.Promised.{Comes};

use answers::{bare, bears, ends, gives, says, serves, wakes};
use kin::{at_ceiling, may_name, parent_of};
use lines::{find_id, lowest_free, power};
use rules::{Cause, DEVICES, Mode, SEMAPHORES, SLOTS, TOP};
use tables::{CLOCK, FIRST_DEVICE, Settled, Tables};
use verdicts::{Service, call_code, child_of, named};

// The running process carries on with a result.
fn replies(t: Tables, res: Option<i64>) -> Settled
    requires { Shape t × (t.running < base_slots) }
    ensures { Comes (carry_on (row t t.running) (with_result res) (view t)) result }
{
    t.carries_on(gives(res))
}

// −1: "The newborn is the caller's child, last in the ready line, time 0": in that of its own priority. A customer
// below its ceiling always finds a free slot: that none is left cannot be.
fn create(mut t: Tables, a2: u32, a3: u32) -> Settled
    requires { Shape t × (t.running < base_slots) × Sound (view t) }
    ensures { Comes (create (row t t.running) 0 a2 a3 (view t)) result }
{
    let at = t.running;
    let id = t.next;
    if TOP < id {
        return replies(t, Some(-1));
    }
    let customer = child_of(t.customers[at], a2);
    if at_ceiling(&t.ids, &t.customers, &t.ceilings, customer) {
        return replies(t, Some(-1));
    }
    let Some(s) = lowest_free(t.taken) else {
        return replies(t, Some(-1));
    };
    let slot = s as u8;
    t.ids[s] = id;
    t.taken = t.taken + power(s);
    t.parents[s] = Some(at as u8);
    t.customers[s] = customer as u8;
    t.priorities[s] = a2;
    t.handles[s] = a3;
    t.next = id + 1;
    let m = t.joins(slot);
    let result = says(id as u64);
    let x = bears(result, slot);
    m.carries_on(x)
}

// −2: "The named process and all descendants end."; 02, (ix): "a surviving caller with a valid target goes to the end
// of its ready line with result 0, then schedule. An id that names nobody still gives −1 and carries on."
fn terminate(t: Tables, a1: u32) -> Settled
    requires { Shape t × (t.running < base_slots) }
    ensures { Comes (terminate (row t t.running) a1 0 0 (view t)) result }
{
    let at = t.running;
    let own = t.ids[at];
    let id = named(a1, own);
    let Some(target) = find_id(&t.ids, id) else {
        return replies(t, Some(-1));
    };
    if !may_name(&t.ids, &t.parents, &t.customers, at, target) {
        return replies(t, Some(-1));
    }
    let k = t.kill(id);
    let m = k.tables;
    if m.running < SLOTS {
        let x = ends(Some(0), k.ended, k.idled);
        return m.back(x);
    }
    let x = ends(None, k.ended, k.idled);
    m.schedule(x)
}

// −3, P: "value above 0 falls by one and the caller carries on; at 0 it joins the end of that line, and schedule".
fn passeren(mut t: Tables, a1: u32) -> Settled
    requires { Shape t × (t.running < base_slots) }
    ensures { Comes (passeren (row t t.running) a1 0 0 (view t)) result }
{
    let k = a1 as usize;
    if SEMAPHORES <= k {
        return t.pass_up_or_die(Cause::General);
    }
    let x = bare();
    let v = t.sems[k];
    if v == 0 {
        return t.block(k as u8 + 1, x);
    }
    t.sems[k] = v - 1;
    t.carries_on(x)
}

// −4, V: "if anyone waits, the first goes to the end of the ready line and the value stays 0; else the value rises by
// one".
fn verhogen(t: Tables, a1: u32) -> Settled
    requires { Shape t × (t.running < base_slots) }
    ensures { Comes (verhogen (row t t.running) a1 0 0 (view t)) result }
{
    let k = a1 as usize;
    if SEMAPHORES <= k {
        return t.pass_up_or_die(Cause::General);
    }
    let v = t.sems[k];
    if TOP <= v {
        return t.pass_up_or_die(Cause::General);
    }
    let w = t.wake(k as u8 + 1);
    let mut m = w.tables;
    let bits = w.woken;
    let x = wakes(bits);
    if bits == 0 {
        m.sems[k] = v + 1;
        return m.carries_on(x);
    }
    m.carries_on(x)
}

// −5: "Always waits there; the answer names the sub-device."
fn do_io(t: Tables, a1: u32) -> Settled
    requires { Shape t × (t.running < base_slots) }
    ensures { Comes (do_io (row t t.running) a1 0 0 (view t)) result }
{
    if DEVICES <= a1 {
        return t.pass_up_or_die(Cause::General);
    }
    let d = a1 as u8;
    let x = serves(d, 0);
    t.block(d + FIRST_DEVICE, x)
}

// −6: "caller's time, this event's gap included".
fn cpu_time(t: Tables) -> Settled
    requires { Shape t × (t.running < base_slots) }
    ensures { Comes (cpu_time (row t t.running) 0 0 0 (view t)) result }
{
    let at = t.running;
    let time = t.times[at];
    let result = says(time);
    replies(t, result)
}

// −8: "support handle or 0".
fn support(t: Tables) -> Settled
    requires { Shape t × (t.running < base_slots) }
    ensures { Comes (support (row t t.running) 0 0 0 (view t)) result }
{
    let at = t.running;
    let handle = t.handles[at];
    let result = says(handle as u64);
    replies(t, result)
}

// −9: "a1 = 0 own id, otherwise the parent's, 0 for id 1".
fn identity(t: Tables, a1: u32) -> Settled
    requires { Shape t × (t.running < base_slots) }
    ensures { Comes (identity (row t t.running) a1 0 0 (view t)) result }
{
    let at = t.running;
    if a1 == 0 {
        let own = t.ids[at];
        let result = says(own as u64);
        return replies(t, result);
    }
    let id = parent_of(&t.ids, &t.parents, at);
    let result = says(id as u64);
    replies(t, result)
}

// A call: a program trap in user mode, for a0 = 0 and below −10; passed up for a0 of 1 or more.
// −7 "waits for the pseudo-clock, always"; −10 goes "to the end of the ready line, then schedule".
pub fn call(t: Tables, mode: Mode, a0: i32, a1: u32, a2: u32, a3: u32) -> Settled
    requires { Shape t × (t.running < base_slots) × Sound (view t) }
    ensures { Comes (call mode a0 a1 a2 a3 (view t)) result }
{
    let Mode::Kernel = mode else {
        return t.pass_up_or_die(Cause::General);
    };
    let Some(service) = call_code(a0) else {
        return t.pass_up_or_die(Cause::General);
    };
    match service {
        Service::Create => create(t, a2, a3),
        Service::Terminate => terminate(t, a1),
        Service::Passeren => passeren(t, a1),
        Service::Verhogen => verhogen(t, a1),
        Service::DoIo => do_io(t, a1),
        Service::CpuTime => cpu_time(t),
        Service::WaitClock => t.block(CLOCK, bare()),
        Service::Support => support(t),
        Service::Identity => identity(t, a1),
        Service::Yield => t.back(bare()),
    }
}
