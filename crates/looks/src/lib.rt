// What a host sees of a machine's tables. Nothing here changes them: tables are a value, and a look takes a copy.
// Each promise is one equation for the result, for every argument: there is one result and no other. Slots and
// customers are bytes, as in answers. Whether somebody is in a slot is told by the id (0 is nobody's) and by the place;
// the other numbers are 0 where nobody is there: kept so, and no Option, as the definitions that the promises are say
// these zeros (`row_at`, `seat_of`, `value`, `ceiling`).
#![tactic(auto)]

ghost use Rattle.std.specs.Prelude.{◌≡◌, length, ◌+◌, ◌<◌, ◌≤◌, None};
ghost use Rattle.lines.specs.Lines.{entry, first_where, tally};
ghost use Rattle.seats.specs.Seats.{sits_in};
ghost use Rattle.rules.specs.Numbers.{base_slots, most_processors, time_limit};
ghost use Rattle.rules.specs.Rules.{value};
ghost use Rattle.rules.specs.Answers.{mask};
ghost use Rattle.rules.specs.Machine.{living, living_of, ceiling};
ghost use Rattle.tables.specs.Codes.{decode};
ghost use Rattle.tables.specs.View.{view, Good};
ghost use Rattle.looks.specs.Looks.{seat_of, who_runs, place_at, row_at, highs_in_order, lows_in_order, waiting_in_order, sums};

use choices::is_high;
use kin::parent_of;
use lines::living_of;

// Slots in the order in which they stand, and how many they are; the places behind are zero.
pub use lines::Queue as Order;
use rules::{Line, PROCESSORS, SLOTS, Status};
use tables::{CLOCK, FIRST_DEVICE, LAST_SEMAPHORE, Tables};

// Where a process is: "nobody there", running on a processor, in the high or the low ready line, or in a waiting line.
#[derive(Clone, Copy)]
pub enum Place {
    Nowhere,
    Running(u8),
    High,
    Low,
    Waiting(Line),
}

// All that the tables have of the process in a slot: its id, the id of its parent (0 for id 1), its customer, its
// priority (the whole a2 of its birth, of which the rest by 256 is read), its support handle ("0 is none"), its time,
// and where it is.
#[derive(Clone, Copy)]
pub struct Row {
    pub id: u32,
    pub parent: u32,
    pub customer: u8,
    pub priority: u32,
    pub handle: u32,
    pub time: u64,
    pub place: Place,
}

// The sum of the accepted gaps, and the parts of it that no living process has.
#[derive(Clone, Copy)]
pub struct Totals {
    pub gaps: u64,
    pub idle: u64,
    pub ended: u64,
}

// The line that a code stands for.
fn line_of(code: u8) -> Line
    requires { 1 ≤ code }
    ensures { result ≡ decode code }
{
    if code <= LAST_SEMAPHORE {
        let semaphore = code - 1;
        return Line::Semaphore(semaphore as u32);
    }
    if code < CLOCK {
        let device = code - FIRST_DEVICE;
        return Line::Device(device as u32);
    }
    Line::PseudoClock
}

// The slot of whoever runs on a processor, or absent.
pub fn running(t: Tables, processor: u8) -> Option<u8>
    requires { Good t }
    ensures { result ≡ who_runs processor (view t) }
{
    let seat = t.runners.get(processor as usize)?;
    *seat
}

// A processor's last clock reading; 0 where there is no such processor.
pub fn last(t: Tables, processor: u8) -> u32
    requires { Good t }
    ensures { result ≡ (seat_of processor (view t)).last }
{
    t.lasts.get(processor as usize).copied().unwrap_or(0)
}

// A processor's idle time; 0 where there is no such processor.
pub fn idle(t: Tables, processor: u8) -> u64
    requires { Good t }
    ensures { result ≡ (seat_of processor (view t)).idle }
{
    t.idles.get(processor as usize).copied().unwrap_or(0)
}

// The processor that whoever is in a slot runs on.
fn runs_on(runners: &[Option<u8>; PROCESSORS], slot: u8) -> Option<usize>
    requires { length runners.now ≡ most_processors }
    ensures { result ≡ first_where (sits_in slot) 0 runners.now }
{
    runners.iter().position(|&seat| seat == Some(slot))
}

// Idle time of all processors.
fn idle_of(idles: &[u64; PROCESSORS]) -> u64
    requires { (length idles.now ≡ most_processors) × (tally (entry idles.now) most_processors ≤ time_limit) }
    ensures { result ≡ tally (entry idles.now) most_processors }
{
    idles.iter().sum()
}

// The mask of the living, "bit n for slot n".
pub fn alive(t: Tables) -> u64
    requires { Good t }
    ensures { result ≡ mask (living (view t)) }
{
    t.taken
}

// Where the process in a slot is, which runs on no processor.
fn line_in(t: Tables, slot: usize) -> Place
    requires { Good t × (slot < base_slots) × (first_where (sits_in slot) 0 t.runners ≡ None) }
    ensures { result ≡ place_at slot (view t) }
{
    let code = t.lines[slot];
    if code == 0 {
        if t.ids[slot] == 0 {
            return Place::Nowhere;
        }
        if is_high(t.priorities[slot]) {
            return Place::High;
        }
        return Place::Low;
    }
    Place::Waiting(line_of(code))
}

// Where the process in a slot is: each of the living is in one place.
fn place_of(t: Tables, slot: usize) -> Place
    requires { Good t × (slot < base_slots) }
    ensures { result ≡ place_at slot (view t) }
{
    match runs_on(&t.runners, slot as u8) {
        Some(k) => Place::Running(k as u8),
        None => line_in(t, slot),
    }
}

// The whole row of the process in a slot.
pub fn row_in(t: Tables, slot: u8) -> Row
    requires { Good t }
    ensures { result ≡ row_at slot (view t) }
{
    let s = slot as usize;
    if SLOTS <= s {
        return Row {
            id: 0,
            parent: 0,
            customer: 0,
            priority: 0,
            handle: 0,
            time: 0,
            place: Place::Nowhere,
        };
    }
    Row {
        id: t.ids[s],
        parent: parent_of(&t.ids, &t.parents, s),
        customer: t.customers[s],
        priority: t.priorities[s],
        handle: t.handles[s],
        time: t.times[s],
        place: place_of(t, s),
    }
}

// The high ready line, first come first.
pub fn high(t: Tables) -> Order
    requires { Good t }
    ensures { result ≡ highs_in_order (view t) }
{
    t.high
}

// The low ready line, first come first.
pub fn low(t: Tables) -> Order
    requires { Good t }
    ensures { result ≡ lows_in_order (view t) }
{
    t.low
}

// All who wait, in the order in which they came; a row tells the line of each.
pub fn waiting(t: Tables) -> Order
    requires { Good t }
    ensures { result ≡ waiting_in_order (view t) }
{
    t.waits
}

// A semaphore's value; 0 where there is no such semaphore.
pub fn semaphore(t: Tables, number: u8) -> u32
    requires { Good t }
    ensures { result ≡ value number (view t) }
{
    t.sems.get(number as usize).copied().unwrap_or(0)
}

// A customer's ceiling; 0 where there is no such customer.
pub fn ceiling(t: Tables, customer: u8) -> u16
    requires { Good t }
    ensures { result ≡ ceiling customer (view t) }
{
    t.ceilings.get(customer as usize).copied().unwrap_or(0)
}

// A customer's living, running, ready and waiting ones all counted.
pub fn living(t: Tables, customer: u8) -> usize
    requires { Good t }
    ensures { result ≡ living_of customer (view t) }
{
    living_of(&t.ids, &t.customers, customer)
}

// The sum of the accepted gaps, idle time and ended time.
pub fn totals_of(t: Tables) -> Totals
    requires { Good t }
    ensures { result ≡ sums (view t) }
{
    Totals {
        gaps: t.total,
        idle: idle_of(&t.idles),
        ended: t.ended,
    }
}

// Whether the machine runs on, "has halted or panicked".
pub fn status_of(t: Tables) -> Status
    requires { Good t }
    ensures { result ≡ (view t).status }
{
    t.status
}
