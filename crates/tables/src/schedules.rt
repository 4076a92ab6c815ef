// "Schedule: first in the ready line runs. If the line is empty: nobody alive, halt; someone waiting on a nucleus line,
// wait; otherwise panic." (xiii): "a processor waits also when another is running somebody". (vi): "choosing the next
// now means first of the high line, or of the low if that is empty, but when four high ones in a row were chosen while
// a low one was waiting, the first low one".
ghost use Rattle.std.specs.Prelude.{◌≡◌, ◌<◌};
ghost use Rattle.rules.specs.Numbers.{base_slots};
ghost use Rattle.rules.specs.Rules.{schedule, nobody_ready, carry_on, resume};
ghost use Rattle.tables.specs.View.{view, row, Shape};
ghost use Rattle.tables.specs.Promised.{run_next, Comes};

use crate::{CLOCK, FIRST_DEVICE, Settled, Tables};
use answers::does;
use choices::{counted, takes_low};
use rules::{Action, Answer, SLOTS, Status};
use seats::somebody_runs;

impl Tables {
    // Nobody is ready, in either line, and nobody runs here: no choice is made, and the count of four stays.
    fn nobody_ready(mut self, x: Answer) -> Settled
        requires { Shape self × (self.running ≡ base_slots) × (self.high.count ≡ 0) × (self.low.count ≡ 0) }
        ensures { Comes (nobody_ready x (view self)) result }
    {
        if somebody_runs(&self.runners) {
            let wait = does(Action::Wait, x);
            return Settled {
                tables: self,
                answer: wait,
            };
        }
        if self.waits.is_empty() {
            self.status = Status::Halted;
            let halt = does(Action::Halt, x);
            return Settled {
                tables: self,
                answer: halt,
            };
        }
        let Some(_) = self.waits.find_between(&self.lines, FIRST_DEVICE, CLOCK) else {
            self.status = Status::Panicked;
            let panic = does(Action::Panic, x);
            return Settled {
                tables: self,
                answer: panic,
            };
        };
        let wait = does(Action::Wait, x);
        Settled {
            tables: self,
            answer: wait,
        }
    }

    // Who was chosen runs, and the choice is counted.
    fn runs(mut self, slot: u8, count: u8, x: Answer) -> Settled
        ensures { result ≡ run_next slot count x self }
    {
        self.running = slot as usize;
        self.four = count;
        let run = does(Action::Run(slot), x);
        Settled {
            tables: self,
            answer: run,
        }
    }

    // The caller has put whoever ran elsewhere.
    pub fn schedule(mut self, x: Answer) -> Settled
        requires { Shape self × (self.running ≡ base_slots) }
        ensures { Comes (schedule x (view self)) result }
    {
        let high = self.high.count;
        let low = self.low.count;
        let count = counted(high, low, self.four);
        if takes_low(high, low, self.four) {
            let slot = self.low.remove(0);
            return self.runs(slot, count, x);
        }
        if self.high.is_empty() {
            return self.nobody_ready(x);
        }
        let slot = self.high.remove(0);
        self.runs(slot, count, x)
    }

    // "Caller carries on."
    pub fn carries_on(self, x: Answer) -> Settled
        requires { Shape self × (self.running < base_slots) }
        ensures { Comes (carry_on (row self self.running) x (view self)) result }
    {
        let at = self.running;
        let on = does(Action::CarryOn(at as u8), x);
        Settled {
            tables: self,
            answer: on,
        }
    }

    // "The running process carries on; with nobody running, schedule."
    pub fn resume(self, x: Answer) -> Settled
        requires { Shape self }
        ensures { Comes (resume x (view self)) result }
    {
        let at = self.running;
        if at < SLOTS {
            return self.carries_on(x);
        }
        self.schedule(x)
    }
}
