// What may happen to the sleepers, and what is answered. The rules are in specs/Rules.antt.
#![tactic(auto)]

ghost use Rattle.std.specs.Prelude.{◌≡◌};
ghost use Rattle.sleeps.specs.Numbers.{refusal_number};

// "eight at most"
pub const PLACES: usize = 8;

// What may happen: a gap passes, in microseconds; a U-proc asks to sleep, by its number and a1; a tick of the
// pseudo-clock; a U-proc has ended.
#[derive(Clone, Copy)]
pub enum Operation {
    Gap(u64),
    Ask(u32, u32),
    Tick,
    End(u32),
}

// Why an operation is refused.
#[derive(Clone, Copy, PartialEq, Eq)]
pub enum Refusal {
    TimeFull,
    NoSuchProc,
    AsleepAlready,
}

impl Refusal {
    // The number that the rules give it.
    pub fn number(self) -> u8
        ensures { result ≡ refusal_number self }
    {
        match self {
            Refusal::TimeFull => 3,
            Refusal::NoSuchProc => 9,
            Refusal::AsleepAlready => 10,
        }
    }
}

// What follows: the U-proc sleeps; it is to be ended; some are woken; one ended while asleep; or nothing.
#[derive(Clone, Copy)]
pub enum Follows {
    Nothing,
    Sleeps,
    Ends,
    Wakes,
    Ended,
}

// One who sleeps: its wake time, in microseconds of the sum of gaps, and its U-proc number.
#[derive(Clone, Copy)]
pub struct Sleeper {
    pub wake: u64,
    pub number: u32,
}

// The sum of the gaps, and those asleep, by wake time: the first `count` rows. The other rows are nought.
// Kept, a count beside an array: no heap, fixed memory, and hosts read both fields.
#[derive(Clone, Copy)]
pub struct Sleepers {
    pub sum: u64,
    pub count: usize,
    pub rows: [Sleeper; PLACES],
}

// The refusal, if it is one, what follows, and the U-procs woken, soonest first: the first `count` of them. The others are
// nought.
// Kept, a count beside an array: no heap, fixed memory, and hosts read both fields.
#[derive(Clone, Copy)]
pub struct Answer {
    pub refusal: Option<Refusal>,
    pub follows: Follows,
    pub count: usize,
    pub woken: [u32; PLACES],
}

// The answer, and the sleepers afterwards.
#[derive(Clone, Copy)]
pub struct Turn {
    pub answer: Answer,
    pub sleepers: Sleepers,
}
