// The processors' seats kept in arrays, a place each: who runs there is its slot, or none: nobody, or there is no such
// processor.
#![tactic(auto)]

ghost use Rattle.std.specs.Prelude.{◌≡◌, ◌^◌, ◌≤◌, length, if◌then◌else◌};
ghost use Rattle.rules.specs.Numbers.{base_slots, most_processors};
ghost use Rattle.lines.specs.Lines.{marked, tally};
ghost use Rattle.seats.specs.Seats.{InSeats, IsSeat, held_by, leaving_of, runs_somewhere};

use rules::{PROCESSORS, SLOTS};
use std::array::from_fn;

// Somebody runs there, and is marked.
fn held(seat: Option<u8>, doomed: &[bool; SLOTS]) -> bool
    requires { IsSeat seat }
    ensures { result ≡ held_by doomed.now seat }
{
    match seat {
        Some(s) => doomed[s as usize],
        None => false,
    }
}

// The processors where whoever runs is marked: "a kill that ends a process on another processor leaves that one idle".
pub fn leaving<'a>(
    runners: &'a [Option<u8>; PROCESSORS],
    doomed: &'a [bool; SLOTS],
) -> [bool; PROCESSORS]
    requires { (length runners.now ≡ most_processors) × InSeats runners.now }
    ensures { result ≡ leaving_of doomed.now runners.now }
{
    from_fn(|k| held(runners[k], doomed))
}

// The mask of the marked processors, bit n for processor n.
pub fn mask(marks: &[bool; PROCESSORS]) -> u8
    ensures { result ≡ tally (λ k. if marked marks.now k then 2 ^ k else 0) most_processors }
{
    lines::mask(marks) as u8
}

// "another is running somebody"
pub fn somebody_runs(runners: &[Option<u8>; PROCESSORS]) -> bool
    requires { length runners.now ≡ most_processors }
    ensures { result ≡ runs_somewhere runners.now }
{
    runners.iter().any(|seat| seat.is_some())
}
