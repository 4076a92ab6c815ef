// Devices, the clock lines, and who is served.

use std::io;
use std::io::Stdout;

// −5, and "device lines never store a permit"
fn device_calls(out: &mut Stdout) -> io::Result<()> {
    play::play(
        out,
        b"# I/O: sub-devices 0 and 47; 48 and above: a program trap, nothing commanded
start 1000
kernel 1100 -1 0 0 5
kernel 1200 -5 47 9
kernel 1300 -5 48 9
kernel 1400 -5 4294967295 9
kernel 1500 -5 0 9
interrupt 1600 7 0 128
interrupt 1700 3 1 0
kernel 1800 -5 48 9

# a device interrupt that nobody waits for stores no permit
start 1000
interrupt 1100 4 2 0
kernel 1200 -5 9
interrupt 1300 4 2 0

# an interrupt that wakes nobody while nobody runs: wait again
start 1000
kernel 1100 -5 9
interrupt 1200 4 1 0
interrupt 1300 2 0 0
interrupt 1400 4 3 0
interrupt 1500 4 2 0

",
    )
}

// "The first in that sub-device's line becomes ready."
fn device_lines(out: &mut Stdout) -> io::Result<()> {
    play::play(
        out,
        b"# a device line: first come, first woken, one at a time
start 1000
kernel 1100 -1
again 1
kernel 1200 -5 10
again 2
interrupt 1300 4 4 0
again 3

# line 7, bytes 2 and 1, with waiters for 33 and 40
start 1000
kernel 1100 -1
again 1
kernel 1200 -5 33
kernel 1300 -5 40
interrupt 1400 7 2 1
interrupt 1500 7 2 1
interrupt 1600 7 2 0

",
    )
}

// "the lowest pending device number; on line 7 transmission before receipt of that device"
fn sub_devices(out: &mut Stdout) -> io::Result<()> {
    play::play(
        out,
        b"# sub-devices: the lowest pending device of lines 3 to 6
start 1000
interrupt 1100 3 1 0
interrupt 1100 3 255 255
interrupt 1100 3 128 0
interrupt 1100 4 1 0
interrupt 1100 4 96 0
interrupt 1100 5 8 1
interrupt 1100 5 192 0
interrupt 1100 6 20 0
interrupt 1100 6 128 0

# sub-devices of line 7: the lowest device, transmission before receipt
start 1000
interrupt 1100 7 1 0
interrupt 1100 7 1 1
interrupt 1100 7 0 1
interrupt 1100 7 1 2
interrupt 1100 7 128 64
interrupt 1100 7 64 128
interrupt 1100 7 128 128
interrupt 1100 7 255 255
interrupt 1100 7 24 20

",
    )
}

// Lines 1 and 2, −7 and −10
fn clock_lines(out: &mut Stdout) -> io::Result<()> {
    play::play(
        out,
        b"# line 1 and yield: to the end of the ready line
start 1000
kernel 1100 -1
again 1
interrupt 1200 1 0 0
interrupt 1300 1 0 0
kernel 1400 -10
interrupt 1500 1 0 0

# line 1 and yield with nobody else ready: run, the same slot
start 1000
kernel 1100 -10
interrupt 1200 1 0 0

# line 2: all who wait for the pseudo-clock, first come first, and nobody else
start 1000
kernel 1100 -1
again 3
kernel 1200 -10
kernel 1300 -7
kernel 1400 -3 0
kernel 1500 -5 5
interrupt 1600 1 0 0
kernel 1700 -7
interrupt 1800 2 0 0
kernel 1900 -10
again 2

",
    )
}

// "all who wait for the pseudo-clock go to the ready line, first come first"
fn a_full_clock_line(out: &mut Stdout) -> io::Result<()> {
    play::play(
        out,
        b"# 20 wait for the pseudo-clock: one tick wakes them all
start 1000
kernel 1100 -1
again 18
kernel 1200 -7
again 19
interrupt 1300 2 0 0
kernel 1400 -7

",
    )
}

pub(crate) fn all(out: &mut Stdout) -> io::Result<()> {
    device_calls(out)?;
    device_lines(out)?;
    sub_devices(out)?;
    clock_lines(out)?;
    a_full_clock_line(out)
}
