// The tables of a machine, and what happens to them: a gap is charged, somebody runs next, waits, becomes ready or
// ends.
// The fields are public to the product's own crates alone; a host has a machine of crates/desk, whose tables are
// private.
#![tactic(auto)]

use lines::Queue;
use rules::{Answer, CUSTOMERS, DEVICES, PROCESSORS, SEMAPHORES, SLOTS, Status};

mod charges;
mod fresh;
mod kills;
mod lines_of;
mod schedules;
mod turns;

// Codes of lines: first the semaphores', then the sub-devices', then the pseudo-clock's. The nucleus lines are those
// from the first sub-device to the pseudo-clock.
pub const LAST_SEMAPHORE: u8 = SEMAPHORES as u8;

pub const FIRST_DEVICE: u8 = LAST_SEMAPHORE + 1;

pub const CLOCK: u8 = LAST_SEMAPHORE + DEVICES as u8 + 1;

// By slot: ids (0 is free), with the taken slots as a mask beside them; the parent's slot, customers, priorities,
// handles, times, and the code of the line that a slot waits in (0 is none). The high and the low ready line and the
// waiting, slots in order; the count of four. By customer: how many it may have alive. Of the processor whose event is in
// hand: who runs (the number of slots stands for nobody), the last clock reading, idle time. The same by processor, who
// runs being its slot, or none; how many processors there are stands beside who runs, since what lies behind the readings
// is then short enough to be moved without a call. Free rows and unused places are zero, or none.
#[derive(Clone, Copy)]
pub struct Tables {
    pub ids: [u32; SLOTS],
    pub taken: u64,
    pub parents: [Option<u8>; SLOTS],
    pub customers: [u8; SLOTS],
    pub priorities: [u32; SLOTS],
    pub handles: [u32; SLOTS],
    pub times: [u64; SLOTS],
    pub lines: [u8; SLOTS],
    pub high: Queue,
    pub low: Queue,
    pub four: u8,
    pub waits: Queue,
    pub running: usize,
    pub processors: usize,
    pub sems: [u32; SEMAPHORES],
    pub ceilings: [u16; CUSTOMERS],
    pub next: u32,
    pub status: Status,
    pub last: u32,
    pub total: u64,
    pub idle: u64,
    pub ended: u64,
    pub runners: [Option<u8>; PROCESSORS],
    pub lasts: [u32; PROCESSORS],
    pub idles: [u64; PROCESSORS],
}

// The tables handed back, with the answer beside them.
#[derive(Clone, Copy)]
pub struct Settled {
    pub tables: Tables,
    pub answer: Answer,
}

// The tables, and the mask of who became ready.
#[derive(Clone, Copy)]
pub struct Woken {
    pub tables: Tables,
    pub woken: u64,
}

// The tables, the mask of who ended, and that of the processors left idle.
#[derive(Clone, Copy)]
pub struct Killed {
    pub tables: Tables,
    pub ended: u64,
    pub idled: u8,
}
