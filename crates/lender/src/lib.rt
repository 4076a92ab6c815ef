// Whoever lends the swap table: it has the rows in an array of its own, lends the first of them to the pager for each
// event, "to be read and changed where it lies", and has the array back. Public are `fresh`, `event`, `resized` and
// `with_row`.
#![tactic(auto)]

ghost use Rattle.std.specs.Prelude.{◌≡◌, ◌++◌, ◌≤◌, take, drop};
ghost use Rattle.lent.specs.Lent.{Keeping, lent};
ghost use Rattle.lender.specs.Lender;
ghost use Rattle.lender.specs.Lender.{room, served, resized_to, with_row_at};

use lent::{Keeper, Kept};
use pages::{Event, FRAMES, FREE, Row};

// As many rows as there is room for; a table of more or fewer than sixteen can be lent, and is refused.
pub const ROOM: usize = 64;

// The swap table as its owner keeps it: the first `count` of the rows. It is no Vec: no heap, fixed memory.
#[derive(Clone, Copy)]
pub struct SwapTable {
    pub rows: [Row; ROOM],
    pub count: usize,
}

// An array whose first rows were lent, as it came back, and what the pager said and keeps.
#[derive(Clone, Copy)]
struct Lending {
    turn: Kept,
    rows: [Row; ROOM],
}

#[derive(Clone, Copy)]
pub struct Served {
    pub turn: Kept,
    pub table: SwapTable,
}

// Sixteen free rows.
pub fn fresh() -> SwapTable
    ensures { result ≡ Lender.fresh }
{
    SwapTable {
        rows: [FREE; ROOM],
        count: FRAMES,
    }
}

// The first n rows are lent for one event.
fn lend(rows: [Row; ROOM], n: usize, k: Keeper, v: Event) -> Lending
    requires { (n ≤ room) × Keeping k }
    ensures { (result.turn ≡ (lent v k (take n rows)).turn) × (result.rows ≡ (lent v k (take n rows)).rows ++ drop n rows) }
{
    let mut rows = rows;
    let turn = lent::event(&mut rows[..n], k, v);
    Lending { turn, rows }
}

// One event over the table, lent.
pub fn event(t: SwapTable, k: Keeper, v: Event) -> Served
    requires { (t.count ≤ room) × Keeping k }
    ensures { (result ≡ served v k t) × Keeping result.turn.keeper }
{
    let count = t.count;
    let Lending { turn, rows } = lend(t.rows, count, k, v);
    Served {
        turn,
        table: SwapTable { rows, count },
    }
}

// The table at another length: rows behind it are gone, and new ones are free.
pub fn resized(t: SwapTable, n: usize) -> SwapTable
    requires { n ≤ room }
    ensures { result ≡ resized_to n t }
{
    let kept = n.min(t.count);
    let mut rows = [FREE; ROOM];
    rows[..kept].copy_from_slice(&t.rows[..kept]);
    SwapTable { rows, count: n }
}

// One row set, where the table has it.
pub fn with_row(t: SwapTable, at: usize, row: Row) -> SwapTable
    requires { t.count ≤ room }
    ensures { result ≡ with_row_at at row t }
{
    let mut next = t;
    if at < t.count {
        next.rows[at] = row;
    }
    next
}
