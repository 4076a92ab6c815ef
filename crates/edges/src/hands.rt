// "Hands off other customers": whom a terminate may name, and that all others live on.

use std::io;
use std::io::Stdout;

// "only the caller itself or its own descendants"
fn own_family(out: &mut Stdout) -> io::Result<()> {
    play::play(
        out,
        b"# another than customer 0 names itself: by 0, and by its own id
start 1000
ceilings 1 2
kernel 1100 -1 0 256
again 1
kernel 1200 -10
kernel 1300 -2 0
kernel 1400 -2 3
kernel 1500 -1 0 256

# another than customer 0 names its descendants: a grandchild, then a child with all below it
start 1000
ceilings 1 4
kernel 1100 -1 0 256 ; id 2
kernel 1200 -10
kernel 1300 -1 ; its child, id 3
kernel 1400 -10
kernel 1500 -7
kernel 1600 -1 ; its grandchildren, ids 4 and 5
kernel 1700 -1
kernel 1800 -10
kernel 1900 -2 4
kernel 2000 -10
kernel 2100 -10
kernel 2200 -2 3
kernel 2300 -6

",
    )
}

// "Any other id gives −1": ended is nobody, whatever line the named one stands in
fn all_others(out: &mut Stdout) -> io::Result<()> {
    play::play(
        out,
        b"# hands off: those above and beside the caller, another customer's, customer 0's; all live on
start 1000
ceilings 2 6 1
kernel 1100 -1 0 256 ; ids 2 and 3, customer 1
kernel 1200 -1 0 256
kernel 1300 -1 0 512 ; id 4, customer 2
kernel 1400 -1 0 0 ; id 5, customer 0
kernel 1500 -7
kernel 1600 -1 ; ids 6 and 7, by id 2
kernel 1700 -1
kernel 1800 -10
kernel 1900 -1 ; id 8, by id 3
kernel 2000 -5 9
kernel 2100 -5 9
kernel 2200 -5 9
kernel 2300 -2 1 ; id 6 names an ancestor of customer 0
kernel 2300 -2 2 ; its parent, of its own customer
kernel 2300 -2 7 ; its sibling
kernel 2300 -2 3 ; its parent's sibling
kernel 2300 -2 8 ; its cousin
kernel 2300 -2 4 ; customer 2's
kernel 2300 -2 5 ; customer 0's
kernel 2400 -6
kernel 2500 -10
kernel 2600 -10
kernel 2700 -10
interrupt 2800 4 2 0
interrupt 2900 4 2 0
interrupt 3000 4 2 0
interrupt 3100 2 0 0

",
    )
}

// "customer 0 may still name anyone": it is the caller's customer that is asked, and not that of the named one
fn customer_0(out: &mut Stdout) -> io::Result<()> {
    play::play(
        out,
        b"# customer 0 names anyone: other customers' beside it, its sibling, and its own parent
start 1000
ceilings 5 3
kernel 1100 -1 0 0 ; id 2, customer 0
kernel 1200 -10
kernel 1300 -1 0 0 ; its children: ids 3 and 4, customer 0
kernel 1400 -1 0 0
kernel 1500 -1 0 256 ; and id 5, customer 1
kernel 1600 -10
kernel 1700 -1 0 256 ; id 6, customer 1, by id 1
kernel 1800 -10
kernel 1900 -2 6 ; by id 3: its parent's sibling
kernel 2000 -2 5 ; by id 4: its sibling, customer 1
kernel 2100 -10
kernel 2200 -10
kernel 2300 -2 4 ; by id 3: its sibling, customer 0
kernel 2400 -10
kernel 2500 -10
kernel 2600 -2 2 ; by id 3: its parent, and both end
kernel 2700 -9 0

",
    )
}

// What a terminate that gives −1 leaves as it was, and what (xi) leaves alone.
fn nobody_ends(out: &mut Stdout) -> io::Result<()> {
    play::play(
        out,
        b"# hands off: no place is given back; the dead, the unborn and the impossible are -1 as ever
start 1000
ceilings 1 2
kernel 1100 -1 0 256
again 1
kernel 1200 -10
kernel 1300 -2 3 ; its sibling lives
kernel 1400 -1 ; and holds its place
kernel 1500 -2 0
kernel 1600 -2 2
kernel 1700 -2 4
kernel 1800 -2 2147483651
kernel 1900 -1
kernel 2000 -2 4 ; now its child

# dying of a trap is no terminate: the process and all below it end, and nobody else
start 1000
ceilings 1 4
kernel 1100 -1 0 256
again 1
kernel 1200 -10
kernel 1300 -1
exception 1400 0
user 1500 -2 1

",
    )
}

pub(crate) fn all(out: &mut Stdout) -> io::Result<()> {
    own_family(out)?;
    all_others(out)?;
    customer_0(out)?;
    nobody_ends(out)
}
