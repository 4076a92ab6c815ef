// The swap table as the desk lends it: "one row a frame, to be read and changed where it lies". Functions over such a
// slice are few and thin: each reads or writes rows where they lie, and leaves the work to a function over a sheet,
// which holds sixteen rows by value.
#![tactic(auto)]

ghost use Rattle.std.specs.Prelude.{◌≡◌, [], ◌+◌, ◌<◌, ◌^◌, length, take, set};
ghost use Rattle.pages.specs.Numbers.{frames};
ghost use Rattle.pages.specs.Rules.{names, first_frame};
ghost use Rattle.swap.specs.Sheets.{sheet_of, put, row_at, up_to_16, over};

use pages::{FRAMES, FREE, Row, row_at};
use pool::first_named;

// Sixteen rows, and how many were lent. It is no slice: no heap, fixed memory, and the work is done by value.
#[derive(Clone, Copy)]
pub struct Sheet {
    pub rows: [Row; FRAMES],
    pub count: usize,
}

// One row more. A seventeenth is counted and not kept.
pub fn with_row(s: Sheet, row: Row) -> Sheet
    requires { s.count + 1 < 2 ^ 64 }
    ensures { result ≡ put row s }
{
    let mut next = Sheet {
        count: s.count + 1,
        ..s
    };
    if s.count < FRAMES {
        next.rows[s.count] = row;
    }
    next
}

// A sheet with no rows yet.
pub fn blank() -> Sheet
    ensures { result ≡ sheet_of [] }
{
    Sheet {
        rows: [FREE; FRAMES],
        count: 0,
    }
}

// The lent rows, read where they lie.
pub fn read_rows(rows: &[Row]) -> Sheet
    ensures { result ≡ sheet_of rows.now }
{
    let mut s = blank();
    for row in rows {
        s = with_row(s, *row);
    }
    s
}

// The first row of the sheet that is of this owner and entry.
pub fn named_in(s: Sheet, owner: u8, page: u8) -> Option<usize>
    ensures { result ≡ first_frame (names owner page) 0 (take s.count s.rows) }
{
    first_named(&s.rows, s.count, owner, page)
}

// The first lent row that is of this owner and entry, among sixteen. A free row is that of owner 0.
pub fn find(rows: &[Row], owner: u8, page: u8) -> Option<usize>
    ensures { result ≡ first_frame (names owner page) 0 (take frames rows.now) }
{
    first_named(rows, FRAMES, owner, page)
}

// One lent row is set where it lies.
pub fn set_row(rows: &mut [Row], at: usize, row: Row)
    requires { at < length rows.old }
    ensures { rows.new ≡ set rows.old at row }
{
    rows[at] = row;
}

// How many of n rows a sheet holds.
pub fn up_to_16(n: usize) -> usize
    ensures { result ≡ up_to_16 n }
{
    n.min(FRAMES)
}

// A row of the sheet, or a free one.
pub fn row_of(s: Sheet, at: usize) -> Row
    ensures { result ≡ row_at s at }
{
    row_at(&s.rows, at)
}

// The lent rows, written where they lie: as many as there are, up to sixteen. Row by row, each by `set_row`: so what that
// promises holds what an event writes.
pub fn write_rows(rows: &mut [Row], s: Sheet)
    ensures { rows.new ≡ over rows.old s.rows }
{
    let n = up_to_16(rows.len());
    for i in 0..n {
        set_row(rows, i, row_of(s, i));
    }
}
