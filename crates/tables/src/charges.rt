// "A gap is charged, before anything else, to whoever was running, else to idle."
ghost use Rattle.std.specs.Prelude.{◌≡◌, ◌+◌, ◌≤◌};
ghost use Rattle.rules.specs.Machine.{gap, charge};
ghost use Rattle.rules.specs.Numbers.{time_limit};
ghost use Rattle.tables.specs.View.{view, Shape};
ghost use Rattle.tables.specs.Promised.{Step};

use crate::Tables;
use rules::SLOTS;
use std::num::wrapping_sub_u32;

impl Tables {
    pub fn charge(mut self, now: u32) -> Tables
        requires { Shape self × (self.total + gap now (view self) ≤ time_limit) }
        ensures { Step (charge now) self result × (result.running ≡ self.running) }
    {
        let g = wrapping_sub_u32(now, self.last) as u64;
        self.last = now;
        self.total = self.total + g;
        let at = self.running;
        if at < SLOTS {
            self.times[at] = self.times[at] + g;
        } else {
            self.idle = self.idle + g;
        }
        self
    }
}
