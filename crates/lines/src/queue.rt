// A line of slots in order: how many they are stands beside them, and the places behind are zero.
// A plain struct, with its facts in the clauses: with an `impl Model` of its own (a list for clauses) a struct that
// holds it, as a machine's tables do, can't be passed by value and used again ("the borrow checker does not cover this
// function yet: an array or a struct is passed by value that is lent").
ghost use Rattle.std.specs.Prelude.{◌≡◌, ◌==◌, ◌<◌, ◌≤◌, ◌+◌, get_or, length};
ghost use Rattle.rules.specs.Words.{those};
ghost use Rattle.rules.specs.Numbers.{base_slots};
ghost use Rattle.lines.specs.Lines.{alive, joining, in_lines, first_where};
ghost use Rattle.lines.specs.Queues.{nobody, items, Slots, pushed, without, only, longer};

use crate::is_joining;
use rules::SLOTS;

#[derive(Clone, Copy)]
pub struct Queue {
    pub slots: [u8; SLOTS],
    pub count: usize,
}

impl Queue {
    // Nobody stands in it.
    pub fn new() -> Queue
        ensures { result ≡ nobody }
    {
        Queue {
            slots: [0; SLOTS],
            count: 0,
        }
    }

    pub fn is_empty(&self) -> bool
        ensures { result ≡ (self.now.count == 0) }
    {
        self.count == 0
    }

    // A slot joins the end: "it joins the end of that line".
    pub fn push(&mut self, slot: u8)
        requires { self.old.count < base_slots }
        ensures { self.new ≡ pushed slot self.old }
    {
        self.slots[self.count] = slot;
        self.count += 1;
    }

    // Who is at a place leaves: those behind it move up, and the last place is zero.
    // "Ending a process removes it from its line without changing the order of the others." A `for` over places: the
    // library's `copy_within` brings both its ways along, so that what calls this is no more a part of its callers.
    pub fn remove(&mut self, at: usize) -> u8
        requires { (at < self.old.count) × (self.old.count ≤ base_slots) }
        ensures { (result ≡ get_or self.old.slots at 0) × (self.new ≡ without at self.old) }
    {
        let slot = self.slots[at];
        let last = self.count - 1;
        for i in at..last {
            self.slots[i] = self.slots[i + 1];
        }
        self.slots[last] = 0;
        self.count = last;
        slot
    }

    // The first place whose slot stands in a line from low to high: "if anyone waits, the first" of one line, and
    // "someone waiting on a nucleus line".
    pub fn find_between<'a>(&'a self, lines: &'a [u8; SLOTS], low: u8, high: u8) -> Option<usize>
        requires { Slots self.now }
        ensures { result ≡ first_where (in_lines lines.now low high) 0 (items self.now) }
    {
        self.slots[..self.count]
            .iter()
            .position(|&s| low <= lines[s as usize] && lines[s as usize] <= high)
    }

    // The slots that are not doomed move up, in their order, and the freed places are zero.
    // "Ending a process removes it from its line without changing the order of the others." Kept, a `for` over places: it
    // writes the array that it reads.
    pub fn drop_marked(&mut self, doomed: &[bool; SLOTS])
        requires { Slots self.old }
        ensures { self.new ≡ only (alive doomed.now) self.old }
    {
        let n = self.count;
        let mut k = 0;
        for i in 0..n {
            let x = self.slots[i];
            let s = x as usize;
            if !doomed[s] {
                self.slots[k] = x;
                k += 1;
            }
        }
        self.slots[k..n].fill(0);
        self.count = k;
    }

    // The marked of another line join this one, the high or the low one, those whose line it is, in their order.
    // "All who wait for the pseudo-clock go to the ready line, first come first."
    pub fn append_marked(
        &mut self,
        old: &Queue,
        marks: &[bool; SLOTS],
        priorities: &[u32; SLOTS],
        high: bool,
    )
        requires { Slots old.now × (self.old.count + length (those (joining marks.now priorities.now high) (items old.now)) ≤ base_slots) }
        ensures { self.new ≡ longer (those (joining marks.now priorities.now high) (items old.now)) self.old }
    {
        for &x in &old.slots[..old.count] {
            let s = x as usize;
            if is_joining(marks[s], high, priorities[s]) {
                self.push(x);
            }
        }
    }
}
