// The ten calls, what is passed up, and what ends.

use std::io;
use std::io::Stdout;

// −1 and −8
fn create(out: &mut Stdout) -> io::Result<()> {
    play::play(
        out,
        b"# create: last in the low line, for priorities 0, 2 and 255; a1 is not looked at
start 1000
kernel 1100 -1 0 0 0
kernel 1200 -1 5 2 0
kernel 1300 -1 4294967295 255 0
kernel 1400 -10
kernel 1500 -10
kernel 1600 -10
kernel 1700 -10

# support handle: -8 tells it, 0 is none, and no child inherits it
start 1000
kernel 1100 -1 0 0 4294967295
kernel 1200 -8
kernel 1300 -10
kernel 1400 -8
kernel 1500 -1
kernel 1600 -10
kernel 1700 -10
kernel 1800 -8

# an id is never given again, its slot is
start 1000
kernel 1100 -1
kernel 1200 -2 2
kernel 1300 -1
kernel 1400 -2 2
kernel 1500 -2 3
kernel 1600 -1

",
    )
}

// −2
fn terminate(out: &mut Stdout) -> io::Result<()> {
    play::play(
        out,
        b"# terminate: an id that names nobody alive
start 1000
kernel 1100 -1
kernel 1200 -2 3
kernel 1300 -2 258
kernel 1400 -2 2147483650
kernel 1500 -2 4294967295
kernel 1600 -2 2
kernel 1700 -2 2
kernel 1800 -6

# terminate of the caller: by 0 and by its own id
start 1000
kernel 1100 -1
kernel 1200 -1
kernel 1300 -10
kernel 1400 -2 0
kernel 1500 -2 3
kernel 1600 -2 1

# a killed parent's grandchild leaves its waiting line
start 1000
kernel 1100 -1
kernel 1200 -10
kernel 1300 -1
kernel 1400 -10
kernel 1500 -10
kernel 1600 -5 5
kernel 1700 -10
kernel 1800 -2 2
kernel 1900 -3 0

",
    )
}

// "a surviving caller with a valid target goes to the end of its ready line with result 0, then schedule"
fn killers(out: &mut Stdout) -> io::Result<()> {
    play::play(
        out,
        b"# a killer that survives goes behind the ready ones; its result is told although another runs
start 1000
kernel 1100 -1
again 2
kernel 1200 -2 3
kernel 1300 -10
kernel 1400 -10
kernel 1500 -6
kernel 1600 -10

# a killer that survives with nobody else ready runs again
start 1000
kernel 1100 -1
kernel 1200 -2 2
kernel 1300 -10
kernel 1400 -6

# a killer that survives runs again where the others wait; it is not among the woken
start 1000
kernel 1100 -1
again 1
kernel 1200 -10
kernel 1300 -7
kernel 1400 -5 3
kernel 1500 -2 2
interrupt 1600 2 0 0
interrupt 1700 3 8 0
kernel 1800 -10

",
    )
}

// "An id that names nobody still gives −1 and carries on."
fn killers_in_turn(out: &mut Stdout) -> io::Result<()> {
    play::play(
        out,
        b"# an id that names nobody: -1, and the caller carries on before the ready ones
start 1000
kernel 1100 -1
again 1
kernel 1200 -2 4
kernel 1300 -2 2147483650
kernel 1400 -2 2
kernel 1500 -2 2
kernel 1600 -10
kernel 1700 -10

# killers in turn: each goes behind those before it, and a newborn stands where it was born
start 1000
kernel 1100 -1
again 4
kernel 1200 -2 2
kernel 1300 -2 6
kernel 1400 -1
kernel 1500 -2 5
kernel 1600 -10
again 3
kernel 2000 -2 4
kernel 2100 -10

",
    )
}

// "The named process and all descendants end."
fn family(out: &mut Stdout) -> io::Result<()> {
    play::play(
        out,
        b"# terminate of a family: ready and waiting ones end, the others keep their order
start 1000
kernel 1100 -1
kernel 1200 -1
kernel 1300 -10
kernel 1400 -1
kernel 1500 -1
kernel 1600 -10
kernel 1700 -3 0
kernel 1800 -10
kernel 1900 -3 0
kernel 2000 -1
kernel 2100 -5 0
kernel 2200 -10
kernel 2300 -2 2
interrupt 2400 3 1 0
kernel 2500 -4 0
kernel 2600 -4 0
kernel 2700 -1
kernel 2800 -1
kernel 2900 -10

",
    )
}

// −3 and −4 at the edges of their numbers and values
fn semaphores(out: &mut Stdout) -> io::Result<()> {
    play::play(
        out,
        b"# P and V on 31, and on 32 and above: a program trap
start 1000 31 1
kernel 1100 -1 0 0 5
kernel 1200 -10
kernel 1300 -3 31
kernel 1400 -4 31
kernel 1500 -3 32
kernel 1600 -4 32
kernel 1700 -3 4294967295
kernel 1800 -4 4294967295
kernel 1900 -10
kernel 2000 -3 32

# V at the top with a handle: passed up, and not carried out
start 1000 31 2147483647
kernel 1100 -1 0 0 5
kernel 1200 -10
kernel 1300 -4 31
kernel 1400 -3 31
kernel 1500 -4 31
kernel 1600 -4 31

",
    )
}

// "at 0 it joins the end of that line"; "the first goes to the end of the ready line"
fn served(out: &mut Stdout) -> io::Result<()> {
    play::play(
        out,
        b"# semaphores: first come, first woken
start 1000
kernel 1100 -1
again 2
kernel 1200 -3 7
kernel 1300 -3 7
kernel 1400 -4 7
kernel 1500 -4 7
kernel 1600 -4 7
kernel 1700 -3 7
kernel 1800 -10
again 3

",
    )
}

// "If the line is empty: nobody alive, halt; someone waiting on a nucleus line, wait; otherwise panic."
fn nobody_ready(out: &mut Stdout) -> io::Result<()> {
    play::play(
        out,
        b"# everybody waits on a semaphore: panic
start 1000
kernel 1100 -1
kernel 1200 -3 0
kernel 1300 -3 1

# the last one not waiting on a semaphore ends: panic
start 1000
kernel 1100 -1
kernel 1200 -3 0
kernel 1300 -2 0

# somebody waits on a nucleus line: wait
start 1000
kernel 1100 -1
kernel 1200 -7
kernel 1300 -3 0
interrupt 1400 2 0 0
kernel 1500 -2 2
kernel 1600 -5 20

",
    )
}

// −6 and −9
fn times_and_ids(out: &mut Stdout) -> io::Result<()> {
    play::play(
        out,
        b"# -6: the caller's own time, this event's gap included; waiting is idle time
start 1000
kernel 1100 -6
kernel 1250 -1
kernel 1300 -10
kernel 1310 -6
kernel 1320 -7
kernel 1325 -7
interrupt 1425 2 0 0
kernel 1430 -6
kernel 1430 -10
kernel 1431 -6

# -6 is not cut to 32 bits
start 0
kernel 2147483647 -6
kernel 4294967294 -6
kernel 2147483645 -6

# -9: own id, the parent's, 0 for id 1
start 1000
kernel 1100 -9 0
kernel 1200 -9 1
kernel 1300 -1
kernel 1400 -10
kernel 1500 -1
kernel 1600 -10
kernel 1700 -10
kernel 1800 -9 0
kernel 1900 -9 1
kernel 2000 -9 4294967295

",
    )
}

// "a0 of 1 or more, and program traps: pass up 1"
fn passed_up(out: &mut Stdout) -> io::Result<()> {
    play::play(
        out,
        b"# with a handle: a0 of 1 or more is passed up in either mode
start 1000
kernel 1100 -1 0 0 9
kernel 1200 -10
kernel 1300 1
user 1400 1
kernel 1500 2147483647
user 1600 2147483647
kernel 1700 -6

# with a handle: program traps by call
start 1000
kernel 1100 -1 0 0 9
kernel 1200 -10
user 1300 -1
user 1300 -2
user 1300 -3
user 1300 -4
user 1300 -5
user 1300 -6
user 1300 -7
user 1300 -8
user 1300 -9
user 1300 -10
user 1300 -11
user 1300 0
kernel 1300 0
kernel 1300 -11
kernel 1300 -2147483648
kernel 1400 -9 1

",
    )
}

// "TLB exceptions: pass up 0"
fn exceptions(out: &mut Stdout) -> io::Result<()> {
    play::play(
        out,
        b"# with a handle: exception codes at the edges of their kinds
start 1000
kernel 1100 -1 0 0 9
kernel 1200 -10
exception 1300 0
exception 1300 7
exception 1300 8
exception 1300 9
exception 1300 10
exception 1300 11
exception 1300 12
exception 1300 23
exception 1300 24
exception 1300 28
exception 1300 29

",
    )
}

// "with no support handle the running process and its descendants end, and schedule"
fn deaths(out: &mut Stdout) -> io::Result<()> {
    play::play(
        out,
        b"# no handle: each way to die by a call
start 1000
kernel 1100 -1
again 3
kernel 1200 -10
user 1300 1
kernel 1400 0
kernel 1500 -11
user 1600 -6
kernel 1700 -4 32

# no handle: an exception ends the process and its descendants
start 1000
kernel 1100 -1
kernel 1200 -10
kernel 1300 -1 0 0 9
exception 1400 24
exception 1500 0

",
    )
}

pub(crate) fn all(out: &mut Stdout) -> io::Result<()> {
    create(out)?;
    terminate(out)?;
    killers(out)?;
    killers_in_turn(out)?;
    family(out)?;
    semaphores(out)?;
    served(out)?;
    nobody_ready(out)?;
    times_and_ids(out)?;
    passed_up(out)?;
    exceptions(out)?;
    deaths(out)
}
