// Alarms first: who is high, who is chosen, and the count of four.

use std::io;
use std::io::Stdout;

// "a2 mod 256 equal to 1 is high, all else low"
fn priorities(out: &mut Stdout) -> io::Result<()> {
    play::play(
        out,
        b"# of priorities 0, 1, 2, 255, 256 and 257 the second and the last are high; a tick puts each in its own line
start 1000
ceilings 6 4
kernel 1100 -1 0 0
kernel 1100 -1 0 1
kernel 1100 -1 0 2
kernel 1100 -1 0 255
kernel 1100 -1 0 256 ; customer 1, low
kernel 1100 -1 0 257 ; customer 1, high
kernel 1200 -7
again 6
interrupt 1300 2 0 0
kernel 1400 -7
kernel 1500 -7 ; id 1 came first of the low ones

# 257 is customer 1 and high where customer 0 creates; where customer 2 does, it is high and customer 2
start 1000
ceilings 2 2 3
kernel 1100 -1 0 512 ; customer 2, low
kernel 1200 -1 0 256 ; customer 1, low
kernel 1300 -1 0 257 ; customer 1, high
kernel 1400 -1 0 257 ; customer 1 is at its ceiling
kernel 1500 -10
kernel 1600 -7
kernel 1700 -1 0 257 ; customer 2's
kernel 1800 -1 0 2305 ; and 9 * 256 + 1, which names nobody here
kernel 1900 -1 0 0 ; customer 2 is at its ceiling
kernel 2000 -10
kernel 2100 -7
kernel 2200 -7

",
    )
}

// "when four high ones in a row were chosen while a low one was waiting, the first low one"
fn four_in_a_row(out: &mut Stdout) -> io::Result<()> {
    play::play(
        out,
        b"# five high ones and a low one: the fifth choice is the low one
start 1000
kernel 1100 -1 0 1
again 4
kernel 1200 -1 0 0
kernel 1300 -7
again 5

# the count returns to nought when a low one is chosen: four more come before the next low one
start 1000
kernel 1100 -1 0 1
again 1
kernel 1200 -1 0 0
again 1
kernel 1300 -7
kernel 1400 -10
again 8

# a high one that yields alone before a low one runs again, until it was chosen four times
start 1000
kernel 1100 -1 0 1
kernel 1200 -1 0 0
kernel 1300 -7
kernel 1400 -10
again 4

",
    )
}

// "The count of four returns to nought .. at a choice made with the low line empty."
fn low_line_empty(out: &mut Stdout) -> io::Result<()> {
    play::play(
        out,
        b"# the low line is emptied and filled again: high ones that were chosen meanwhile are not counted
start 1000
kernel 1100 -1 0 1
again 1
kernel 1200 -1 0 0
kernel 1300 -7
kernel 1400 -10
again 3
kernel 1500 -3 0 ; the low one waits on semaphore 0, and no low one is ready
kernel 1600 -10
again 3
kernel 1700 -4 0 ; it is ready again
kernel 1800 -10
again 4

# the only low one is killed while four are counted: a high one runs, and four more come before the next low one
start 1000
kernel 1100 -1 0 1
kernel 1200 -7
kernel 1300 -1 0 0
kernel 1400 -10
again 3
kernel 1500 -2 3
kernel 1600 -1 0 0
kernel 1700 -10
again 4

# the first of two low ones is killed while four are counted: the other runs
start 1000
kernel 1100 -1 0 1
kernel 1200 -7
kernel 1300 -1 0 0
again 1
kernel 1400 -10
again 3
kernel 1500 -2 3
kernel 1600 -10

",
    )
}

// A schedule that finds both lines empty chooses nobody: "A choice is an answer whose action is run."
fn over_a_wait(out: &mut Stdout) -> io::Result<()> {
    play::play(
        out,
        b"# four are counted, and stay so over a wait: of a low and a high one woken together the low one runs
start 1000
kernel 1100 -1 0 1
again 1
kernel 1200 -7
kernel 1300 -1 0 0 ; id 2 has a low child
kernel 1400 -10
kernel 1500 -7 ; id 3 waits for the pseudo-clock, as id 1 does
kernel 1600 -10
again 1
kernel 1700 -2 0 ; id 2 ends, and its child: nobody is ready
interrupt 1800 3 1 0
interrupt 1900 2 0 0
kernel 2000 -10

# three are counted, and stay so over a wait: the high one is the fourth
start 1000
kernel 1100 -1 0 1
again 1
kernel 1200 -7
kernel 1300 -1 0 0
kernel 1400 -10
kernel 1500 -7
kernel 1600 -10
kernel 1700 -2 0
interrupt 1800 2 0 0
kernel 1900 -10

",
    )
}

// 'In 01 "the ready line" becomes the line of the process's own priority'
fn own_lines(out: &mut Stdout) -> io::Result<()> {
    play::play(
        out,
        b"# id 1 is low: where its slice ends it goes behind the low ones, and high ones run before them
start 1000
kernel 1100 -1 0 0
kernel 1200 -1 0 1
again 1
interrupt 1300 1 0 0
interrupt 1400 1 0 0
kernel 1500 -7
kernel 1600 -7
interrupt 1700 1 0 0

# nobody is preempted: a high one that is woken runs at the next choice, before the low ones
start 1000
kernel 1100 -1 0 1
kernel 1200 -1 0 0
kernel 1300 -10
kernel 1400 -5 0
interrupt 1500 3 1 0
kernel 1600 -6
kernel 1700 -10

",
    )
}

// "a surviving caller .. goes to the end of its ready line with result 0, then schedule"
fn killers(out: &mut Stdout) -> io::Result<()> {
    play::play(
        out,
        b"# a high killer that survives goes behind the high ones, and runs before low ones until four are counted
start 1000
kernel 1100 -1 0 0
again 1
kernel 1200 -1 0 1
again 1
kernel 1300 -10
kernel 1400 -2 2
kernel 1500 -7
kernel 1600 -2 3 ; alone in its line
kernel 1700 -2 5 ; four are counted: id 1 runs, and the result is the killer's
kernel 1800 -2 9

# a low killer that survives: a high one runs
start 1000
kernel 1100 -1 0 0
kernel 1200 -1 0 1
kernel 1300 -2 2
kernel 1400 -7

",
    )
}

// The lines and the count are the machine's, whatever the processor.
fn one_count(out: &mut Stdout) -> io::Result<()> {
    play::play(
        out,
        b"# four high ones chosen on three processors: the fifth choice is the low one, wherever it is made
start 1000
processors 3
kernel 1100 -1 0 1
again 4
kernel 1200 -1 0 0
on 1
interrupt 1300 2 0 0
on 2
interrupt 1300 2 0 0
on 1
kernel 1400 -7
on 0
kernel 1400 -7
on 2
kernel 1400 -7
on 1
kernel 1500 -7 ; no low one is ready
on 2
interrupt 1600 2 0 0 ; a tick: id 1 is ready, and three high ones
on 0
kernel 1700 -10

",
    )
}

pub(crate) fn all(out: &mut Stdout) -> io::Result<()> {
    priorities(out)?;
    four_in_a_row(out)?;
    low_line_empty(out)?;
    over_a_wait(out)?;
    own_lines(out)?;
    killers(out)?;
    one_count(out)
}
