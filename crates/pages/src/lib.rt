// The pager's words: what an event is, what an answer is, and what the pager keeps. The rules are in specs/Rules.
#![tactic(auto)]

ghost use Rattle.std.specs.Prelude.{◌≡◌};
ghost use Rattle.pages.specs.Numbers.{refusal_number};
ghost use Rattle.pages.specs.Rules.{entry, row, is_free};
ghost use Rattle.pages.specs.Ruled.{Page};

// The numbers that arrays are as long as; specs/Numbers has their sentences.
pub const U_PROCS: usize = 8;

pub const ENTRIES: usize = 32;

pub const FRAMES: usize = 16;

// What an event is refused for.
#[derive(Clone, Copy, PartialEq, Eq)]
pub enum Refusal {
    NoSuchUproc,
    OutOfTurn,
    AtOdds,
}

impl Refusal {
    pub fn number(self) -> u8
        ensures { result ≡ refusal_number self }
    {
        match self {
            Refusal::NoSuchUproc => 9,
            Refusal::OutOfTurn => 11,
            Refusal::AtOdds => 12,
        }
    }
}

// A row of the swap table: whose page is in the frame, and which entry it is. Owner 0 is nobody's: the row is free. It
// is no `Option`, since rows are lent and told as they lie, a free one with whatever its entry says.
#[derive(Clone, Copy)]
pub struct Row {
    pub owner: u8,
    pub page: u8,
}

pub const FREE: Row = Row { owner: 0, page: 0 };

impl Row {
    pub fn is_free(self) -> bool
        ensures { result ≡ is_free self }
    {
        self.owner == 0
    }
}

#[derive(Clone, Copy)]
pub enum Cause {
    Load,
    Store,
    Modification,
}

// A U-proc's number and a page number come as they are asked; the rules say which are refused.
#[derive(Clone, Copy)]
pub enum Event {
    // U-proc, page
    Refill(u32, u32),
    // U-proc, page, cause
    Fault(u32, u32, Cause),
    // done, or failed
    Report(bool),
    // U-proc
    End(u32),
}

// A page table: for each entry 0 where the page is absent, or its frame's number and one. It is no `Option`, since a
// refill answers "the page's entry as it stands", which is this number.
#[derive(Clone, Copy)]
pub struct Table {
    pub entries: [u8; ENTRIES],
}

pub const BLANK: Table = Table {
    entries: [0; ENTRIES],
};

// An entry as it stands.
pub fn entry_at(tables: [Table; U_PROCS], u: usize, e: usize) -> u8
    requires { Page u e }
    ensures { result ≡ entry tables u e }
{
    tables[u - 1].entries[e]
}

// The row of a frame; a free one where there is no such frame.
pub fn row_at(rows: &[Row], f: usize) -> Row
    ensures { result ≡ row rows.now f }
{
    rows.get(f).copied().unwrap_or(FREE)
}

// The open transfer: frame, U-proc and entry that are waited for; of a write also the row of the evicted page. Each rule
// asks for one of the three cases, so an `Option` of two would only be taken apart twice.
#[derive(Clone, Copy)]
pub enum Transfer {
    Closed,
    Writing(u8, u8, u8, Row),
    Reading(u8, u8, u8),
}

// The parts of a word stand apart, here and in `Transfer`: each law of specs/Laws binds frame, U-proc and entry by
// themselves, so a struct of two of them would only be taken apart in each.
#[derive(Clone, Copy)]
pub enum Word {
    None,
    // U-proc, entry, and the entry as it stands
    Entry(u8, u8, u8),
    // U-proc, entry, frame
    Refresh(u8, u8, u8),
    // frame, owner and entry of the evicted page
    Write(u8, u8, u8),
    // frame, U-proc, entry
    Read(u8, u8, u8),
    // U-proc, entry, frame
    Resume(u8, u8, u8),
    // U-proc
    Trap(u8),
    // U-proc, mask of frames
    Freed(u8, u16),
}

#[derive(Clone, Copy)]
pub struct Answer {
    pub refusal: Option<Refusal>,
    pub word: Word,
}

#[derive(Clone, Copy)]
pub struct Pager {
    pub tables: [Table; U_PROCS],
    pub rows: [Row; FRAMES],
    pub hand: usize,
    pub transfer: Transfer,
}

#[derive(Clone, Copy)]
pub struct Turn {
    pub answer: Answer,
    pub pager: Pager,
}
