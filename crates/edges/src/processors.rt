// Several processors: whose event it is, whose clock, and what a kill leaves behind elsewhere.

use std::io;
use std::io::Stdout;

// "A processor number out of range is refused with 7, after 1"
fn out_of_range(out: &mut Stdout) -> io::Result<()> {
    play::play(
        out,
        b"# 7: processor 2 of two, before 5, 6 and 2; after 1
start 1000
processors 2
on 2
kernel 1100 -6
interrupt 1100 0 0 0
exception 1100 8
kernel 900 -6
on 0
kernel 1100 -2 0
on 2
kernel 1200 -6

",
    )
}

// "each has its own last clock reading"; "refusals 2 and 4 speak of the named processor"
fn own_clocks(out: &mut Stdout) -> io::Result<()> {
    play::play(
        out,
        b"# each processor's gaps are its own: 2 is asked of its own last reading
start 1000
processors 2
kernel 5000 -6
on 1
interrupt 1500 2 0 0
interrupt 1400 2 0 0
on 0
kernel 4999 -6
kernel 5000 -6

# 4: a call, an exception and line 1 at an idle processor, while another runs
start 1000
processors 2
on 1
kernel 1100 -6
exception 1100 24
interrupt 1100 1 0 0
user 1100 1

",
    )
}

// "A wake on one processor doesn't start an idle one; an interrupt of lines 2 to 7 there does."
fn idle_ones(out: &mut Stdout) -> io::Result<()> {
    play::play(
        out,
        b"# a wake elsewhere starts nobody here; an interrupt here does
start 1000
processors 2
kernel 1100 -1
on 1
interrupt 1200 2 0 0
kernel 1300 -3 0
on 0
kernel 1400 -4 0
on 1
interrupt 1500 3 1 0
kernel 1600 -6 ; 100 before it waited, and 100 since: the gap between was idle

# panic needs that nobody runs anywhere
start 1000
processors 2
kernel 1100 -1
on 1
interrupt 1200 2 0 0
kernel 1300 -3 0 ; processor 0 still runs id 1
on 0
kernel 1400 -3 0
on 1
interrupt 1500 2 0 0

",
    )
}

// "A kill that ends a process on another processor leaves that one idle and names it in a new mask"
fn kills_elsewhere(out: &mut Stdout) -> io::Result<()> {
    play::play(
        out,
        b"# a kill names the processor that it leaves idle, and not those that go on
start 1000
processors 3
kernel 1100 -1
kernel 1100 -1
on 1
interrupt 1200 2 0 0
on 2
interrupt 1200 2 0 0
on 0
kernel 1300 -2 2
on 1
kernel 1400 -6
interrupt 1500 2 0 0
on 2
kernel 1600 -2 0 ; it ends itself: its own processor is not named
on 0
kernel 1700 -2 0

# a child ends its parent and itself: the parent's processor is named, beside halt
start 1000
processors 2
kernel 1100 -1
on 1
interrupt 1200 2 0 0
kernel 1300 -2 1

# dying of a trap ends a child on another processor
start 1000
processors 2
kernel 1100 -1
on 1
interrupt 1200 2 0 0
on 0
exception 1300 10

",
    )
}

pub(crate) fn all(out: &mut Stdout) -> io::Result<()> {
    out_of_range(out)?;
    own_clocks(out)?;
    idle_ones(out)?;
    kills_elsewhere(out)
}
