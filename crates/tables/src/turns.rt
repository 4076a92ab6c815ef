// "Each event names its processor": the machine turns to it, and back.
ghost use Rattle.std.specs.Prelude.{◌≡◌, ◌<◌, ◌≤◌};
ghost use Rattle.rules.specs.Numbers.{base_slots};
ghost use Rattle.rules.specs.Machine.{turn};
ghost use Rattle.tables.specs.View.{seated, slot_of, view, Shape};
ghost use Rattle.tables.specs.Promised.{Step};

use crate::Tables;
use rules::SLOTS;

// Who runs, as a seat has it.
fn seated(at: usize) -> Option<u8>
    requires { at ≤ base_slots }
    ensures { result ≡ seated at }
{
    (at < SLOTS).then_some(at as u8)
}

// Who runs, as it is here.
fn slot_of(seat: Option<u8>) -> usize
    ensures { result ≡ slot_of seat }
{
    match seat {
        Some(s) => s as usize,
        None => SLOTS,
    }
}

impl Tables {
    // What is here and what is in the seat change places.
    pub fn turn(mut self, k: usize) -> Tables
        requires { Shape self × (k < self.processors) }
        ensures { Step (turn k) self result }
    {
        let seat = self.runners[k];
        let last = self.lasts[k];
        let idle = self.idles[k];
        self.runners[k] = seated(self.running);
        self.lasts[k] = self.last;
        self.idles[k] = self.idle;
        self.running = slot_of(seat);
        self.last = last;
        self.idle = idle;
        self
    }
}
