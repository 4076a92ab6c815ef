// What an event asks, by the event alone: its clock reading, whether any machine takes it, whether somebody must be
// running, which call, whose child, and which sub-device.
#![tactic(auto)]

ghost use Rattle.std.specs.Prelude.{◌≡◌, false, ◌&&◌, ◌<◌, ◌≤◌, eqb, leb, if◌then◌else◌, Ok, Err};
ghost use Rattle.rules.specs.Numbers.{base_slots, sub_devices};
ghost use Rattle.rules.specs.Machine.{child_of};
ghost use Rattle.rules.specs.declared.Event.TheVariants.{Interrupt, Exception};
ghost use Rattle.rules.specs.declared.Refusal.TheVariants.{NoSuchLine, NoSuchCode};
ghost use Rattle.rules.specs.Rules.{clock, bad_line, bad_code, needs_runner, lowest_bit, sub_device};
ghost use Rattle.verdicts.specs.Calls.{call_code};

use rules::{Event, Refusal, SLOTS};

// The ten calls, −1 to −10.
#[derive(Clone, Copy, PartialEq, Eq)]
pub enum Service {
    Create,
    Terminate,
    Passeren,
    Verhogen,
    DoIo,
    CpuTime,
    WaitClock,
    Support,
    Identity,
    Yield,
}

// "Each carries a 32-bit clock reading."
pub fn clock_of(e: Event) -> u32
    ensures { result ≡ clock e }
{
    match e {
        Event::Call { clock, .. }
        | Event::Interrupt { clock, .. }
        | Event::Exception { clock, .. } => clock,
    }
}

// "line not 1 to 7; or line 3 to 6 with first byte zero; or line 7 with both zero"
#[tactic(auto, unfolding(rules::specs::Rules::bad_line))]
fn check_line(line: u8, first: u8, second: u8) -> Result<(), Refusal>
    ensures { result ≡ (if bad_line (Interrupt 0 line first second) then Err NoSuchLine else Ok tt) }
{
    match line {
        1 | 2 => Ok(()),
        3..=6 if first != 0 => Ok(()),
        7 if first != 0 || second != 0 => Ok(()),
        _ => Err(Refusal::NoSuchLine),
    }
}

// "exception code 8, 11 or above 28"
#[tactic(auto, unfolding(rules::specs::Rules::bad_code))]
fn check_code(code: u8) -> Result<(), Refusal>
    ensures { result ≡ (if bad_code (Exception 0 code) then Err NoSuchCode else Ok tt) }
{
    match code {
        8 | 11 | 29.. => Err(Refusal::NoSuchCode),
        _ => Ok(()),
    }
}

// Rows 5 and 6 of the table: what no machine takes.
#[tactic(auto, unfolding(rules::specs::Rules::bad_line, rules::specs::Rules::bad_code))]
pub fn check(e: Event) -> Result<(), Refusal>
    ensures { result ≡ (if bad_line e then Err NoSuchLine else (if bad_code e then Err NoSuchCode else Ok tt)) }
{
    match e {
        Event::Call { .. } => Ok(()),
        Event::Interrupt {
            line,
            first,
            second,
            ..
        } => check_line(line, first, second),
        Event::Exception { code, .. } => check_code(code),
    }
}

// "call, exception or line 1 while nobody is running"
#[tactic(auto, unfolding(rules::specs::Rules::needs_runner))]
pub fn unmanned(e: Event, running: usize) -> bool
    ensures { result ≡ (needs_runner e && leb base_slots running) }
{
    let needs_runner = match e {
        Event::Interrupt { line, .. } => line == 1,
        Event::Call { .. } | Event::Exception { .. } => true,
    };
    needs_runner && SLOTS <= running
}

// "a1 = 0 means the caller, otherwise an id"
pub fn named(a1: u32, own: u32) -> u32
    ensures { result ≡ (if eqb a1 0 then own else a1) }
{
    if a1 == 0 { own } else { a1 }
}

// "a2 / 256 names the child's"
const UNIT: u32 = 256;

// "A child has its parent's customer, but when customer 0 creates, a2 / 256 names the child's."
pub fn child_of(own: u8, a2: u32) -> u32
    ensures { result ≡ child_of own a2 }
{
    if own == 0 { a2 / UNIT } else { own as u32 }
}

// The call that an a0 from −1 to −10 names.
pub fn call_code(a0: i32) -> Option<Service>
    ensures { result ≡ call_code a0 }
{
    match a0 {
        -1 => Some(Service::Create),
        -2 => Some(Service::Terminate),
        -3 => Some(Service::Passeren),
        -4 => Some(Service::Verhogen),
        -5 => Some(Service::DoIo),
        -6 => Some(Service::CpuTime),
        -7 => Some(Service::WaitClock),
        -8 => Some(Service::Support),
        -9 => Some(Service::Identity),
        -10 => Some(Service::Yield),
        _ => None,
    }
}

// The number of the lowest bit set, 8 where none is: kept a number, as the rule's own `lowest_bit` counts so.
#[tactic(auto, using(crate::proofs::Tests::lowest))]
fn lowest_bit(byte: u8) -> u8
    ensures { result ≡ lowest_bit 8 byte }
{
    byte.trailing_zeros() as u8
}

// "The lowest pending device number; on line 7 transmission before receipt of that device."
pub fn sub_device(line: u8, first: u8, second: u8) -> u8
    requires { (3 ≤ line) × (bad_line (Interrupt 0 line first second) ≡ false) }
    ensures { (result ≡ sub_device line first second) × (result < sub_devices) }
{
    let x = lowest_bit(first);
    if line < 7 {
        return (line - 3) * 8 + x;
    }
    let y = lowest_bit(second);
    if x <= y {
        return 32 + x;
    }
    40 + y
}
