// "The named process and all descendants end."
ghost use Rattle.std.specs.Prelude.{◌<◌};
ghost use Rattle.rules.specs.Numbers.{base_slots};
ghost use Rattle.rules.specs.Rules.{pass_up_or_die};
ghost use Rattle.tables.specs.View.{view, row, Shape};
ghost use Rattle.tables.specs.Promised.{Comes, Kills};

use crate::{Killed, Settled, Tables};
use answers::{bare, does, ends};
use kin::family;
use lines::{mask, spared, strike, toll};
use rules::{Action, Cause};
use seats::leaving;

impl Tables {
    // "Ending a process removes it from its line without changing the order of the others or any semaphore's value";
    // "the dead leave theirs in ended time".
    pub fn kill(mut self, id: u32) -> Killed
        requires { Shape self × (self.running < base_slots) × (0 < id) }
        ensures { Kills id self result }
    {
        let doomed = family(&self.ids, &self.parents, id);
        let bits = mask(&doomed);
        let time = toll(&self.times, &doomed);
        self.ended += time;
        self.taken -= bits;
        let at = self.running;
        self.running = spared(at, &doomed);
        strike(&mut self.ids, &doomed, 0);
        strike(&mut self.parents, &doomed, None);
        strike(&mut self.customers, &doomed, 0);
        strike(&mut self.priorities, &doomed, 0);
        strike(&mut self.handles, &doomed, 0);
        strike(&mut self.times, &doomed, 0);
        strike(&mut self.lines, &doomed, 0);
        self.high.drop_marked(&doomed);
        self.low.drop_marked(&doomed);
        self.waits.drop_marked(&doomed);
        let left = leaving(&self.runners, &doomed);
        let idle = seats::mask(&left);
        strike(&mut self.runners, &left, None);
        Killed {
            tables: self,
            ended: bits,
            idled: idle,
        }
    }

    // "With no support handle the running process and its descendants end, and schedule."
    pub fn pass_up_or_die(self, cause: Cause) -> Settled
        requires { Shape self × (self.running < base_slots) }
        ensures { Comes (pass_up_or_die cause (row self self.running) (view self)) result }
    {
        let at = self.running;
        let handle = self.handles[at];
        if handle == 0 {
            let id = self.ids[at];
            let k = self.kill(id);
            let m = k.tables;
            let x = ends(None, k.ended, k.idled);
            return m.schedule(x);
        }
        let slot = at as u8;
        let x = bare();
        let up = does(Action::PassUp(slot, cause), x);
        Settled {
            tables: self,
            answer: up,
        }
    }
}
