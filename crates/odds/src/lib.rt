// Do sixteen rows agree with the page tables and the open transfer? Each function tests one kind of thing, by value.
#![tactic(auto)]

ghost use Rattle.std.specs.Prelude.{◌≡◌, ◌<◌, suc};
ghost use Rattle.pages.specs.Numbers.{u_procs, width, frames};
ghost use Rattle.pages.specs.Ruled.{Page};
ghost use Rattle.pages.specs.Rules.{entry, row, is_free};
ghost use Rattle.odds.specs.Odds.{every, row_agrees, entry_agrees, table_agrees, transfer_agrees, agrees};

use pages::{ENTRIES, FRAMES, Row, Table, Transfer, U_PROCS, entry_at, row_at};

// A row is free, or that of a page which is present in its frame.
fn row_agrees(tables: [Table; U_PROCS], f: usize, row: Row) -> bool
    requires { f < frames }
    ensures { result ≡ row_agrees tables f row }
{
    if row.is_free() {
        return true;
    }
    if row.owner > U_PROCS as u8 || row.page >= ENTRIES as u8 {
        return false;
    }
    entry_at(tables, row.owner as usize, row.page as usize) as usize == f + 1
}

fn rows_agree(tables: [Table; U_PROCS], rows: [Row; FRAMES]) -> bool
    ensures { result ≡ every (row_agrees tables) 0 rows }
{
    for (f, row) in rows.iter().enumerate() {
        if !row_agrees(tables, f, *row) {
            return false;
        }
    }
    true
}

// An entry is absent, or its frame's row is that of its page.
fn entry_agrees(rows: [Row; FRAMES], u: u8, e: u8, v: u8) -> bool
    ensures { result ≡ entry_agrees rows u e v }
{
    if v == 0 {
        return true;
    }
    let row = row_at(&rows, v as usize - 1);
    row.owner == u && row.page == e
}

fn entries_agree(rows: [Row; FRAMES], u: u8, t: Table) -> bool
    ensures { result ≡ every (entry_agrees rows u) 0 t.entries }
{
    for (e, v) in t.entries.iter().enumerate() {
        if !entry_agrees(rows, u, e as u8, *v) {
            return false;
        }
    }
    true
}

fn tables_agree(rows: [Row; FRAMES], tables: [Table; U_PROCS]) -> bool
    ensures { result ≡ every (table_agrees rows) 0 tables }
{
    for (i, t) in tables.iter().enumerate() {
        if !entries_agree(rows, i as u8 + 1, *t) {
            return false;
        }
    }
    true
}

fn frame_is_free(rows: [Row; FRAMES], f: u8) -> bool
    ensures { result ≡ is_free (row rows f) }
{
    row_at(&rows, f as usize).is_free()
}

// "a frame in transfer having a free row"
fn transfer_agrees(rows: [Row; FRAMES], t: Transfer) -> bool
    ensures { result ≡ transfer_agrees rows t }
{
    match t {
        Transfer::Closed => true,
        Transfer::Writing(f, _, _, _) => frame_is_free(rows, f),
        Transfer::Reading(f, _, _) => frame_is_free(rows, f),
    }
}

#[tactic(auto, unfolding(crate::specs::Odds::agrees))]
pub fn rows_and_tables_agree(tables: [Table; U_PROCS], rows: [Row; FRAMES], t: Transfer) -> bool
    ensures { result ≡ agrees tables rows t }
{
    rows_agree(tables, rows) && tables_agree(rows, tables) && transfer_agrees(rows, t)
}
