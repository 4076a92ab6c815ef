// The pager in its last form: "the desk lends the swap table, one row a frame, to be read and changed where it lies".
// What it keeps of its own are the page tables, the hand and the open transfer. Public are `fresh` and `event`.
#![tactic(auto)]

ghost use Rattle.std.specs.Prelude.{◌≡◌};
ghost use Rattle.lent.specs.Lent;
ghost use Rattle.lent.specs.Lent.{Keeping, no_uproc, verdict_of, refusing, after, decided, lent};

use odds::rows_and_tables_agree;
use pages::{
    Answer, BLANK, Event, FRAMES, Pager, Refusal, Row, Table, Transfer, Turn, U_PROCS, Word,
};
use paging::is_uproc;
use swap::{Sheet, read_rows, write_rows};

// What the pager keeps where the swap table is lent. `Keeping` is a premise and no invariant of it, since `lent`
// and its laws (`refused_9`, `refused_long`) are said of any keeper.
#[derive(Clone, Copy)]
pub struct Keeper {
    pub tables: [Table; U_PROCS],
    pub hand: usize,
    pub transfer: Transfer,
}

#[derive(Clone, Copy)]
pub struct Kept {
    pub answer: Answer,
    pub keeper: Keeper,
}

// What an event makes of a sheet of rows.
#[derive(Clone, Copy)]
pub struct Decided {
    pub turn: Kept,
    pub sheet: Sheet,
}

// The event names a U-proc that is none of the eight.
fn names_nobody(v: Event) -> bool
    ensures { result ≡ no_uproc v }
{
    match v {
        Event::Refill(u, _) => !is_uproc(u),
        Event::Fault(u, _, _) => !is_uproc(u),
        Event::Report(_) => false,
        Event::End(u) => !is_uproc(u),
    }
}

// "refused with 12, untouched, after 9 and before 11"
fn verdict(k: Keeper, s: Sheet, v: Event) -> Option<Refusal>
    ensures { result ≡ verdict_of v k s.count s.rows }
{
    if names_nobody(v) {
        return Some(Refusal::NoSuchUproc);
    }
    if s.count == FRAMES && rows_and_tables_agree(k.tables, s.rows, k.transfer) {
        return None;
    }
    Some(Refusal::AtOdds)
}

fn untouched(k: Keeper, s: Sheet, r: Refusal) -> Decided
    ensures { result ≡ record { turn = refusing r k; sheet = s } }
{
    Decided {
        turn: Kept {
            answer: Answer {
                refusal: Some(r),
                word: Word::None,
            },
            keeper: k,
        },
        sheet: s,
    }
}

// The plain pager: what is kept, with the rows of a sheet.
fn joined(k: Keeper, s: Sheet) -> Pager
    ensures { result ≡ Lent.joined k s.rows }
{
    let Keeper {
        tables,
        hand,
        transfer,
    } = k;
    let rows = s.rows;
    Pager {
        tables,
        rows,
        hand,
        transfer,
    }
}

// What the plain pager is after an event, taken apart again.
fn apart(turn: Turn, n: usize) -> Decided
    ensures { result ≡ record { turn = after turn; sheet = record { rows = turn.pager.rows; count = n } } }
{
    let Pager {
        tables,
        rows,
        hand,
        transfer,
    } = turn.pager;
    Decided {
        turn: Kept {
            answer: turn.answer,
            keeper: Keeper {
                tables,
                hand,
                transfer,
            },
        },
        sheet: Sheet { rows, count: n },
    }
}

// The work of `event`, by value.
pub fn decide(s: Sheet, k: Keeper, v: Event) -> Decided
    requires { Keeping k }
    ensures { result ≡ decided v k s }
{
    match verdict(k, s, v) {
        Some(r) => untouched(k, s, r),
        None => {
            let p = joined(k, s);
            apart(paging::event(p, v), s.count)
        }
    }
}

// "free at first, the hand at 0"
pub fn fresh() -> Keeper
    ensures { result ≡ Lent.fresh }
{
    Keeper {
        tables: [BLANK; U_PROCS],
        hand: 0,
        transfer: Transfer::Closed,
    }
}

// One event: the rows are read where they lie, `decide` does the work, and the rows are written where they lie.
pub fn event(rows: &mut [Row], k: Keeper, v: Event) -> Kept
    requires { Keeping k }
    ensures { (result ≡ (lent v k rows.old).turn) × (rows.new ≡ (lent v k rows.old).rows) }
{
    let s = read_rows(rows);
    let d = decide(s, k, v);
    write_rows(rows, d.sheet);
    d.turn
}
