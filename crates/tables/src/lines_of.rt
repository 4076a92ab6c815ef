// Who goes where: to the end of a ready line, to the end of a waiting line, and back to a ready line.
ghost use Rattle.std.specs.Prelude.{◌≡◌, ◌<◌, ◌≤◌, [], ◌∷◌};
ghost use Rattle.rules.specs.Numbers.{base_slots};
ghost use Rattle.rules.specs.Machine.{back, block};
ghost use Rattle.rules.specs.Rules.{schedule};
ghost use Rattle.tables.specs.Codes.{decode, last_code};
ghost use Rattle.tables.specs.View.{view, Shape};
ghost use Rattle.tables.specs.Promised.{lined_up, Comes, Wakes, Ticks};

use crate::{CLOCK, Settled, Tables, Woken};
use choices::is_high;
use lines::{marks_at, mask, power, strike};
use rules::{Answer, SLOTS};

impl Tables {
    // 'In 01 "the ready line" becomes the line of the process's own priority': a slot joins it, at its end.
    pub fn joins(mut self, slot: u8) -> Tables
        requires { (slot < base_slots) × (self.high.count < base_slots) × (self.low.count < base_slots) }
        ensures { result ≡ lined_up (slot ∷ []) self }
    {
        if is_high(self.priorities[slot as usize]) {
            self.high.push(slot);
            return self;
        }
        self.low.push(slot);
        self
    }

    // "The running process goes to the end of the ready line, then schedule."
    pub fn back(mut self, x: Answer) -> Settled
        requires { Shape self × (self.running < base_slots) }
        ensures { Comes (schedule x (back (view self))) result }
    {
        let at = self.running;
        self.running = SLOTS;
        let m = self.joins(at as u8);
        m.schedule(x)
    }

    // "It joins the end of that line, and schedule."
    pub fn block(mut self, code: u8, x: Answer) -> Settled
        requires { Shape self × (self.running < base_slots) × (1 ≤ code) × (code ≤ last_code) }
        ensures { Comes (schedule x (block (decode code) (view self))) result }
    {
        let at = self.running;
        self.waits.push(at as u8);
        self.lines[at] = code;
        self.running = SLOTS;
        self.schedule(x)
    }

    // "The first goes to the end of the ready line", where there is one.
    pub fn wake(mut self, code: u8) -> Woken
        requires { Shape self × (1 ≤ code) × (code ≤ last_code) }
        ensures { Wakes (decode code) self result }
    {
        let Some(i) = self.waits.find_between(&self.lines, code, code) else {
            return Woken {
                tables: self,
                woken: 0,
            };
        };
        let slot = self.waits.remove(i);
        let s = slot as usize;
        self.lines[s] = 0;
        let bit = power(s);
        let m = self.joins(slot);
        Woken {
            tables: m,
            woken: bit,
        }
    }

    // "All who wait for the pseudo-clock go to the ready line, first come first": each to the end of its own.
    pub fn tick(mut self) -> Woken
        requires { Shape self }
        ensures { Ticks self result }
    {
        let up = marks_at(&self.lines, CLOCK);
        let bits = mask(&up);
        let old = self.waits;
        let ranks = self.priorities;
        self.high.append_marked(&old, &up, &ranks, true);
        self.low.append_marked(&old, &up, &ranks, false);
        self.waits.drop_marked(&up);
        strike(&mut self.lines, &up, 0);
        Woken {
            tables: self,
            woken: bits,
        }
    }
}
