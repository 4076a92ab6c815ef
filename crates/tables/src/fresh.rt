// The tables of a fresh machine.
ghost use Rattle.std.specs.Prelude.{◌≡◌, ◌-◌, ◌≤◌};
ghost use Rattle.rules.specs.Numbers.{base_slots, most_processors};
ghost use Rattle.rules.specs.Machine.{fresh};
ghost use Rattle.tables.specs.View.{readings_of, view, Shape};

use crate::Tables;
use lines::Queue;
use rules::{CUSTOMERS, PROCESSORS, SEMAPHORES, SLOTS, Status};

// The readings of the processors' seats: the one of processor 0 is here, the others' are the start's.
fn readings(clock: u32, processors: usize) -> [u32; PROCESSORS]
    requires { (1 ≤ processors) × (processors ≤ most_processors) }
    ensures { result ≡ readings_of clock processors }
{
    let mut lasts = [0; PROCESSORS];
    lasts[1..processors].fill(clock);
    lasts
}

impl Tables {
    // "Id 1 is then running in slot 0, with no parent and no support handle"; "on processor 0, all clocks at the
    // start's": processor 0 is here.
    pub fn begun(
        clock: u32,
        values: [u32; SEMAPHORES],
        ceilings: [u16; CUSTOMERS],
        processors: usize,
    ) -> Tables
        requires { (1 ≤ processors) × (processors ≤ most_processors) }
        ensures { (view result ≡ fresh base_slots (processors - 1) clock values ceilings) × Shape result }
    {
        let lasts = readings(clock, processors);
        let mut ids = [0u32; SLOTS];
        ids[0] = 1;
        Tables {
            ids,
            taken: 1,
            parents: [None; SLOTS],
            customers: [0; SLOTS],
            priorities: [0; SLOTS],
            handles: [0; SLOTS],
            times: [0; SLOTS],
            lines: [0; SLOTS],
            high: Queue::new(),
            low: Queue::new(),
            four: 0,
            waits: Queue::new(),
            running: 0,
            sems: values,
            ceilings,
            next: 2,
            status: Status::On,
            last: clock,
            total: 0,
            idle: 0,
            ended: 0,
            runners: [None; PROCESSORS],
            lasts,
            idles: [0; PROCESSORS],
            processors,
        }
    }
}
