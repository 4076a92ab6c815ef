// The pool by value: sixteen rows, one a frame. What is found in them, and what an end makes of them.
#![tactic(auto)]

ghost use Rattle.std.specs.Prelude.{◌≡◌, map, take};
ghost use Rattle.rules.specs.Words.{count};
ghost use Rattle.pages.specs.Rules.{lowest_free, first_frame, names, mask, is_of, freed};

use pages::{FRAMES, FREE, Row};
use std::array::from_fn;

// Is it the row of this owner and entry? A free row is the row of owner 0, whatever its entry says.
fn is_named(row: Row, owner: u8, page: u8) -> bool
    ensures { result ≡ names owner page row }
{
    row.owner == owner && (owner == 0 || row.page == page)
}

// The first of the first n rows that is so named.
pub fn first_named(rows: &[Row], n: usize, owner: u8, page: u8) -> Option<usize>
    ensures { result ≡ first_frame (names owner page) 0 (take n rows.now) }
{
    let i = rows
        .iter()
        .take(n)
        .position(|row| is_named(*row, owner, page))?;
    Some(i)
}

// "the lowest free frame"
pub fn lowest_free(rows: [Row; FRAMES]) -> Option<usize>
    ensures { result ≡ lowest_free rows }
{
    first_named(&rows, FRAMES, 0, 0)
}

// The mask of a U-proc's frames.
pub fn frames_of(rows: [Row; FRAMES], u: u8) -> u16
    ensures { result ≡ mask (is_of u) rows }
{
    let mut m: u16 = 0;
    for (f, row) in rows.iter().enumerate() {
        if row.owner == u {
            m += 1 << f;
        }
    }
    m
}

// A row after the end of a U-proc.
fn freed_row(row: Row, u: u8) -> Row
    ensures { result ≡ freed u row }
{
    if row.owner == u { FREE } else { row }
}

pub fn freed_rows(rows: [Row; FRAMES], u: u8) -> [Row; FRAMES]
    ensures { result ≡ map (freed u) rows }
{
    from_fn(|f| freed_row(rows[f], u))
}
