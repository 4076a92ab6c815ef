// "The edges of (ii) are tried again with 63 and 64 alive": a table that is full, of one customer, of a broad family
// and of a deep one.

use std::io;
use std::io::Stdout;

// Who fills the table, and what is free again.
fn filled(out: &mut Stdout) -> io::Result<()> {
    play::play(
        out,
        b"# creates with 62, 63 and 64 alive, one customer with all the places
start 1000
kernel 1100 -1
again 60
kernel 1200 -1 ; with 62 alive
kernel 1300 -1 ; with 63
kernel 1400 -1 ; with 64

# customer 1 with 63 places: it fills them by itself; then neither it nor customer 0 gets one more
start 1000
ceilings 1 63
kernel 1100 -1 0 256
kernel 1200 -10
kernel 1300 -1
again 61
kernel 1400 -1
kernel 1500 -10
kernel 1600 -1 0 256
kernel 1700 -1 0 0

# slot 63 is freed, and then slot 31: the next newborn has it again, with a new id
start 1000
kernel 1100 -1
again 62
kernel 1200 -2 64
kernel 1300 -1
kernel 1400 -2 32
kernel 1500 -1
kernel 1600 -1

# slots 63 and 31 are freed: the lower one is taken first
start 1000
kernel 1100 -1
again 62
kernel 1200 -2 64
kernel 1300 -2 32
kernel 1400 -1
kernel 1500 -1
kernel 1600 -1

",
    )
}

// "All who wait for the pseudo-clock go to the ready line, first come first."
fn ticks(out: &mut Stdout) -> io::Result<()> {
    play::play(
        out,
        b"# a tick wakes 63, all but slot 0, which runs on; then the first that came
start 1000
kernel 1100 -1
again 62
kernel 1200 -10
kernel 1300 -7
again 62
interrupt 1400 2 0 0
kernel 1500 -10
kernel 1600 -10

# a tick wakes all 64
start 1000
kernel 1100 -1
again 62
kernel 1200 -7
again 63
interrupt 1300 2 0 0
kernel 1400 -10

",
    )
}

// "The named process and all descendants end."
fn kills(out: &mut Stdout) -> io::Result<()> {
    play::play(
        out,
        b"# the whole table ends: slot 63's process, of customer 0, ends id 1; any event after that
start 1000
kernel 1100 -1
again 62
kernel 1200 -10
again 62
kernel 1300 -2 1
kernel 1400 -1

# the whole table ends by a trap of id 1: halt with 64
start 1000
kernel 1100 -1
again 62
exception 1200 0

# a broad family of 63 ends, and its places are free from the lowest on
start 1000
kernel 1100 -1
kernel 1200 -10
kernel 1300 -1
again 61
kernel 1400 -10
kernel 1500 -2 2
kernel 1600 -1
kernel 1700 -1

",
    )
}

// A chain of 64, each the child of the one before and waiting on semaphore 0, but for the last.
fn chains(out: &mut Stdout) -> io::Result<()> {
    play::play(
        out,
        b"# a deep family: the last of 64 ends id 2, and with it all but id 1, which waits on: panic
start 1000
kernel 1100 -1
kernel 1200 -3 0
kernel 1300 -1
kernel 1400 -3 0
kernel 1500 -1
kernel 1600 -3 0
kernel 1700 -1
kernel 1800 -3 0
kernel 1900 -1
kernel 2000 -3 0
kernel 2100 -1
kernel 2200 -3 0
kernel 2300 -1
kernel 2400 -3 0
kernel 2500 -1
kernel 2600 -3 0
kernel 2700 -1
kernel 2800 -3 0
kernel 2900 -1
kernel 3000 -3 0
kernel 3100 -1
kernel 3200 -3 0
kernel 3300 -1
kernel 3400 -3 0
kernel 3500 -1
kernel 3600 -3 0
kernel 3700 -1
kernel 3800 -3 0
kernel 3900 -1
kernel 4000 -3 0
kernel 4100 -1
kernel 4200 -3 0
kernel 4300 -1
kernel 4400 -3 0
kernel 4500 -1
kernel 4600 -3 0
kernel 4700 -1
kernel 4800 -3 0
kernel 4900 -1
kernel 5000 -3 0
kernel 5100 -1
kernel 5200 -3 0
kernel 5300 -1
kernel 5400 -3 0
kernel 5500 -1
kernel 5600 -3 0
kernel 5700 -1
kernel 5800 -3 0
kernel 5900 -1
kernel 6000 -3 0
kernel 6100 -1
kernel 6200 -3 0
kernel 6300 -1
kernel 6400 -3 0
kernel 6500 -1
kernel 6600 -3 0
kernel 6700 -1
kernel 6800 -3 0
kernel 6900 -1
kernel 7000 -3 0
kernel 7100 -1
kernel 7200 -3 0
kernel 7300 -1
kernel 7400 -3 0
kernel 7500 -1
kernel 7600 -3 0
kernel 7700 -1
kernel 7800 -3 0
kernel 7900 -1
kernel 8000 -3 0
kernel 8100 -1
kernel 8200 -3 0
kernel 8300 -1
kernel 8400 -3 0
kernel 8500 -1
kernel 8600 -3 0
kernel 8700 -1
kernel 8800 -3 0
kernel 8900 -1
kernel 9000 -3 0
kernel 9100 -1
kernel 9200 -3 0
kernel 9300 -1
kernel 9400 -3 0
kernel 9500 -1
kernel 9600 -3 0
kernel 9700 -1
kernel 9800 -3 0
kernel 9900 -1
kernel 10000 -3 0
kernel 10100 -1
kernel 10200 -3 0
kernel 10300 -1
kernel 10400 -3 0
kernel 10500 -1
kernel 10600 -3 0
kernel 10700 -1
kernel 10800 -3 0
kernel 10900 -1
kernel 11000 -3 0
kernel 11100 -1
kernel 11200 -3 0
kernel 11300 -1
kernel 11400 -3 0
kernel 11500 -1
kernel 11600 -3 0
kernel 11700 -1
kernel 11800 -3 0
kernel 11900 -1
kernel 12000 -3 0
kernel 12100 -1
kernel 12200 -3 0
kernel 12300 -1
kernel 12400 -3 0
kernel 12500 -1
kernel 12600 -3 0
kernel 12700 -1
kernel 12800 -3 0
kernel 12900 -1
kernel 13000 -3 0
kernel 13100 -1
kernel 13200 -3 0
kernel 13300 -1
kernel 13400 -3 0
kernel 13500 -1
kernel 13600 -3 0
kernel 13700 -2 2
kernel 13800 -1

# everyone waits on a semaphore: panic with 64
start 1000
kernel 1100 -1
again 62
kernel 1200 -3 0
again 63
kernel 1300 -4 0

",
    )
}

pub(crate) fn all(out: &mut Stdout) -> io::Result<()> {
    filled(out)?;
    ticks(out)?;
    kills(out)?;
    chains(out)
}
