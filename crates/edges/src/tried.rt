// The whole example, and "Edges to try" of the rules.

use std::io;
use std::io::Stdout;

// "Whole example"
fn example(out: &mut Stdout) -> io::Result<()> {
    play::play(
        out,
        b"# the whole example
start 1000 0 1
kernel 1500 -1
kernel 1600 -3 0
kernel 1700 -3 0
kernel 1800 -6
kernel 1900 -4 0
kernel 2000 -5 32 7
kernel 1990 -6
interrupt 2100 7 1 0
kernel 2200 -2 0

",
    )
}

// "Create with 19 alive, with 20 (−1), with 20 then a childless one killed", where customer 0 has all places, which are
// 64 with (v)
fn creates(out: &mut Stdout) -> io::Result<()> {
    play::play(
        out,
        b"# create with 63 alive
start 1000
kernel 1100 -1
again 62

# create with 64 alive; then a childless one is killed: that slot again, a new id; all 64 end with id 1
start 1000
kernel 1100 -1
again 62
kernel 1200 -1
kernel 1300 -2 7
kernel 1400 -1
kernel 1500 -1
kernel 1600 -2 1

",
    )
}

// "Gap 2,147,483,647, 2,147,483,648", "Clock from 4,294,967,295 to 4"
fn gaps(out: &mut Stdout) -> io::Result<()> {
    play::play(
        out,
        b"# gap 2147483647
start 1000
kernel 2147484647 -6

# gap 2147483648: the clock went back; the last reading stays 1000
start 1000
kernel 2147484648 -6
kernel 1007 -6

# clock from 4294967295 to 4: gap 5
start 4294967295
kernel 4 -6

",
    )
}

// "P at 1, at 0 alone", "V with a waiter", "V at the top, no handle", "Line 7, bytes 2 and 1"
fn values(out: &mut Stdout) -> io::Result<()> {
    play::play(
        out,
        b"# P at 1; the value is 0 after it
start 1000 5 1
kernel 1100 -3 5
kernel 1200 -3 5

# P at 0 alone: panic
start 1000
kernel 1100 -3 5
kernel 1200 -4 5

# V with a waiter: it becomes ready and the value stays 0
start 1000
kernel 1100 -1
kernel 1200 -3 9
kernel 1300 -4 9
kernel 1400 -3 9
kernel 1500 -4 9

# V at the top, no handle: the process dies
start 1000 31 2147483647
kernel 1100 -4 31

# line 7, bytes 2 and 1: receipt of device 0
start 1000
interrupt 1100 7 2 1

",
    )
}

// "Kill by a child of its parent", where the child is customer 0
fn kills(out: &mut Stdout) -> io::Result<()> {
    play::play(
        out,
        b"# kill by a child of its parent, customer 0: both end
start 1000
kernel 1100 -1
kernel 1200 -10
kernel 1300 -2 1

# kill by a child of its parent, customer 0: the grandparent lives on
start 1000
kernel 1100 -1
kernel 1200 -10
kernel 1300 -1
kernel 1400 -10
kernel 1500 -10
kernel 1600 -2 2

",
    )
}

// 02, (xi): "now gives −1 and ends nobody, unless the child is customer 0"
fn denied_kills(out: &mut Stdout) -> io::Result<()> {
    play::play(
        out,
        b"# kill by a child of its parent, the child customer 1: -1, and nobody ends
start 1000
ceilings 1 1
kernel 1100 -1 0 256
kernel 1200 -10
kernel 1300 -2 1
kernel 1400 -9 1
kernel 1500 -10

# kill by a child of its parent, both customer 1: -1, and nobody ends
start 1000
ceilings 1 2
kernel 1100 -1 0 256
kernel 1200 -10
kernel 1300 -1
kernel 1400 -10
kernel 1500 -10
kernel 1600 -2 2
kernel 1700 -10
kernel 1800 -2 0

",
    )
}

// "Kill of a waiter, then V"
fn killed_waiter(out: &mut Stdout) -> io::Result<()> {
    play::play(
        out,
        b"# kill of a waiter, then V: the value rises
start 1000
kernel 1100 -1
kernel 1200 -10
kernel 1300 -3 4
kernel 1400 -2 2
kernel 1500 -4 4
kernel 1600 -3 4
kernel 1700 -3 4

",
    )
}

// "Tick with nobody waiting", "Any event after halt"
fn quiet(out: &mut Stdout) -> io::Result<()> {
    play::play(
        out,
        b"# tick with nobody waiting, and no permit is kept
start 1000
interrupt 1100 2 0 0
kernel 1200 -7
interrupt 1300 2 0 0

# any event after halt
start 1000
kernel 1100 -2 0
kernel 1200 -6
user 1300 1
interrupt 1400 1 0 0
interrupt 1500 2 0 0
interrupt 1600 7 1 0
exception 1700 24

# any event after panic, whatever else is wrong with it
start 1000
kernel 1100 -3 0
kernel 1200 -6
interrupt 1200 0 0 0
interrupt 1200 3 0 1
exception 1200 8
exception 1200 255
kernel 1050 -6
interrupt 1050 9 0 0
exception 1050 11

",
    )
}

pub(crate) fn all(out: &mut Stdout) -> io::Result<()> {
    example(out)?;
    creates(out)?;
    gaps(out)?;
    values(out)?;
    kills(out)?;
    denied_kills(out)?;
    killed_waiter(out)?;
    quiet(out)
}
