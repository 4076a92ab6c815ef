// When the desk says no: 1, 5, 6, 2 and 4, and their order. (Refusal 3 needs gaps that sum above 2 to the 62. A log of
// 65,536 bytes has fewer than 8,200 events, and each gap is below 2 to the 31: no log reaches it, and the proofs alone
// show it.)

use std::io;
use std::io::Stdout;

// "line not 1 to 7; or line 3 to 6 with first byte zero; or line 7 with both zero"
fn lines(out: &mut Stdout) -> io::Result<()> {
    play::play(
        out,
        b"# refusal 5: line not 1 to 7
start 1000
interrupt 1100 0 1 1
interrupt 1200 8 1 1
interrupt 1300 255 1 1
kernel 1400 -6

# refusal 5: lines 3 to 6 with first byte zero, line 7 with both zero
start 1000
interrupt 1100 3 0 255
interrupt 1100 4 0 255
interrupt 1100 5 0 1
interrupt 1100 6 0 128
interrupt 1100 7 0 0
kernel 1200 -6

# no refusal 5: lines 1 and 2 with any bytes, 3 to 6 with the first, 7 with either
start 1000
interrupt 1100 1 0 0
interrupt 1200 1 255 255
interrupt 1300 2 0 0
interrupt 1400 2 255 255
interrupt 1500 3 128 1
interrupt 1600 6 1 0
interrupt 1700 7 128 0
interrupt 1800 7 0 128

",
    )
}

// "exception code 8, 11 or above 28"; "the clock went back"
fn codes_and_clock(out: &mut Stdout) -> io::Result<()> {
    play::play(
        out,
        b"# refusal 6: exception code 8, 11 or above 28
start 1000
exception 1100 8
exception 1200 11
exception 1300 29
exception 1400 255
kernel 1500 -6

# refusal 2: the clock went back, for each kind of event; gap 0 did not
start 1000
kernel 999 -6
interrupt 999 2 0 0
interrupt 2147484648 1 0 0
exception 999 24
kernel 1000 -6

",
    )
}

// "call, exception or line 1 while nobody is running"; "Checked in the order of the rows"
fn nobody_and_order(out: &mut Stdout) -> io::Result<()> {
    play::play(
        out,
        b"# refusal 4: call, exception or line 1 while nobody is running; it moves no clock
start 1000
kernel 1100 -7
kernel 1200 -6
user 1200 1
exception 1200 0
exception 1200 24
interrupt 1200 1 0 0
interrupt 1150 2 0 0
kernel 1160 -6

# the order of refusals: 5 and 6 before 2, 2 before 4, 6 before 4
start 1000
interrupt 999 0 0 0
interrupt 999 7 0 0
exception 999 8
kernel 1100 -7
exception 1200 8
exception 1099 29
interrupt 1099 9 0 0
kernel 1099 -6
exception 1099 0
interrupt 1099 1 0 0
kernel 1100 -6

",
    )
}

pub(crate) fn all(out: &mut Stdout) -> io::Result<()> {
    lines(out)?;
    codes_and_clock(out)?;
    nobody_and_order(out)
}
