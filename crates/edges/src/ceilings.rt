// "A ceiling for each customer": who is granted a create, who is denied it, and what a kill gives back.

use std::io;
use std::io::Stdout;

// "the child's customer is at its ceiling"
fn own_ceilings(out: &mut Stdout) -> io::Result<()> {
    play::play(
        out,
        b"# each customer to its own ceiling, whatever the others hold; a denied create takes no id
start 1000
ceilings 2 2 1
kernel 1100 -1 0 256 ; customer 1
kernel 1200 -1 0 511 ; customer 1, priority 255
kernel 1300 -1 0 256
kernel 1400 -1 0 512 ; customer 2
kernel 1500 -1 0 512
kernel 1600 -1 0 768 ; customer 3, whose ceiling is 0
kernel 1700 -1 0 0 ; customer 0
kernel 1800 -1 0 255

# the least ceilings: id 1 is all there is, and a denied create is charged
start 1000
ceilings 1
kernel 1100 -1
kernel 1200 -1 0 256
kernel 1300 -6

",
    )
}

// "ceilings may sum to 64": the table is full where each customer is at its ceiling
fn all_places(out: &mut Stdout) -> io::Result<()> {
    play::play(
        out,
        b"# all 64 places, among nine customers, each to its last place: the sixty-fourth is granted, and nobody more
start 1000
ceilings 8 7 7 7 7 7 7 7 7
kernel 1100 -1 0 0
again 6
kernel 1200 -1 0 256
again 6
kernel 1300 -1 0 512
again 6
kernel 1400 -1 0 768
again 6
kernel 1500 -1 0 1024
again 6
kernel 1600 -1 0 1280
again 6
kernel 1700 -1 0 1536
again 6
kernel 1800 -1 0 1792
again 6
kernel 1900 -1 0 2048
again 6
kernel 2000 -1 0 0
kernel 2100 -1 0 256
kernel 2200 -1 0 512
kernel 2300 -1 0 768
kernel 2400 -1 0 1024
kernel 2500 -1 0 1280
kernel 2600 -1 0 1536
kernel 2700 -1 0 1792
kernel 2800 -1 0 2048

",
    )
}

// "when customer 0 creates, a2 / 256 names the child's"; "the named customer is above 8"
fn named(out: &mut Stdout) -> io::Result<()> {
    play::play(
        out,
        b"# a named customer above 8 is denied, by all 24 bits of a2 / 256
start 1000
ceilings 4 2 2 2 2 2 2 2 2
kernel 1100 -1 0 2304 ; 9
kernel 1200 -1 0 65280 ; 255
kernel 1300 -1 0 65536 ; 256
kernel 1400 -1 0 65792 ; 257
kernel 1500 -1 0 67584 ; 264
kernel 1600 -1 0 16777216 ; 65536
kernel 1700 -1 0 4294967295 ; 16777215
kernel 1800 -1 0 2303 ; 8, priority 255

",
    )
}

// "A child has its parent's customer"
fn inherited(out: &mut Stdout) -> io::Result<()> {
    play::play(
        out,
        b"# what another than customer 0 names is not looked at: the child is its parent's customer
start 1000
ceilings 1 4 2
kernel 1100 -1 0 256
kernel 1200 -10
kernel 1300 -1 0 512 ; customer 1 names 2
kernel 1400 -1 0 0 ; and 0, which is at its ceiling
kernel 1500 -1 0 4294967295 ; and one above 8
kernel 1600 -1 0 512 ; customer 1 is at its ceiling, 2 has room
kernel 1700 -10
kernel 1800 -1 0 512 ; customer 0 names 2: nobody of it lives yet
kernel 1900 -1 0 512
kernel 2000 -1 0 512

# grandchildren count for their customer
start 1000
ceilings 1 3
kernel 1100 -1 0 256
kernel 1200 -10
kernel 1300 -1
kernel 1400 -10
kernel 1500 -10
kernel 1600 -1
kernel 1700 -1
kernel 1800 -10
kernel 1900 -1

",
    )
}

// The living of a customer are all that have not ended.
fn living(out: &mut Stdout) -> io::Result<()> {
    play::play(
        out,
        b"# the running, the ready and the waiting count; a killed waiter does not
start 1000
ceilings 1 4
kernel 1100 -1 0 256
again 3
kernel 1200 -1 0 256 ; all four are ready
kernel 1300 -7
kernel 1400 -3 0 ; id 2 waits on a semaphore
kernel 1500 -5 9 ; id 3 waits at a device
kernel 1600 -1 ; id 4 runs, id 5 is ready
interrupt 1700 2 0 0
kernel 1800 -10
kernel 1900 -10
kernel 2000 -2 2 ; id 1 ends id 2
kernel 2100 -1 ; id 4 has its place
kernel 2200 -1

# a death by a trap gives its place back
start 1000
ceilings 1 1
kernel 1100 -1 0 256
kernel 1200 -1 0 256
kernel 1300 -10
exception 1400 0
kernel 1500 -1 0 256

",
    )
}

// A place that a kill gives back is that of the dead one's customer.
fn given_back(out: &mut Stdout) -> io::Result<()> {
    play::play(
        out,
        b"# a kill gives a place back, to the customer of the dead alone
start 1000
ceilings 1 2 2
kernel 1100 -1 0 256
again 1
kernel 1200 -1 0 512
again 1
kernel 1300 -2 3 ; one of customer 1
kernel 1400 -10
kernel 1500 -1 ; by customer 2
kernel 1600 -10
kernel 1700 -10
kernel 1800 -1 0 512 ; by customer 0 for customer 2
kernel 1900 -1 0 256 ; and for customer 1: that slot again, a new id
kernel 2000 -1 0 256

",
    )
}

// "The named process and all descendants end."
fn family(out: &mut Stdout) -> io::Result<()> {
    play::play(
        out,
        b"# a killed family gives back the places of each customer in it
start 1000
ceilings 2 2 1
kernel 1100 -1 0 0
kernel 1200 -10
kernel 1300 -1 0 256
kernel 1400 -1 0 512
kernel 1500 -10
kernel 1600 -1 0 512
kernel 1700 -1 0 0
kernel 1800 -2 2
kernel 1900 -1 0 512
kernel 2000 -1 0 0
kernel 2100 -1 0 256
kernel 2200 -1 0 256
kernel 2300 -1 0 256

",
    )
}

pub(crate) fn all(out: &mut Stdout) -> io::Result<()> {
    own_ceilings(out)?;
    all_places(out)?;
    named(out)?;
    inherited(out)?;
    living(out)?;
    given_back(out)?;
    family(out)
}
