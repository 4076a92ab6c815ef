// The demonstration of source document 004 (section 4.7.2): main_body starts two workers, and each signals when it has
// counted.

use std::io;
use std::io::Stdout;

// A worker carries on after its signal, since nobody is preempted: it ends before main_body goes on.
pub(crate) fn demonstration(out: &mut Stdout) -> io::Result<()> {
    play::play(
        out,
        b"# document 004, its demonstration: two workers count, one after the other
start 1000 ; semaphore 0 is end_count, made with value 0
kernel 1100 -1 0 1 ; main_body starts the first worker
kernel 1200 -3 0 ; and waits for its signal
kernel 1700 -4 0 ; it has counted to 500 and signals
kernel 1800 -2 0 ; and ends
kernel 1900 -1 0 1 ; the second worker: the first one's slot, a new id
kernel 2000 -3 0
kernel 2500 -4 0 ; it has counted to 1000
kernel 2600 -2 0
kernel 2700 -6 ; 200 before the first wait, 200 before the second, 100 since
kernel 2800 -2 0 ; main_body ends, and nobody is alive

# document 004 with its first process: main starts main_body and waits for its end
start 1000 ; semaphore 0 is end_count, 1 tells main
kernel 1010 -1 0 2 ; main starts main_body
kernel 1020 -3 1
kernel 1030 -1 0 1 ; the first worker
kernel 1040 -3 0
kernel 1540 -4 0
kernel 1550 -2 0
kernel 1560 -1 0 1 ; the second worker
kernel 1570 -3 0
kernel 2070 -4 0
kernel 2080 -2 0
kernel 2090 -6 ; five steps of 10
kernel 2100 -4 1
kernel 2110 -2 0
kernel 2120 -2 0

",
    )
}

// "The named process and all descendants end"
pub(crate) fn difference(out: &mut Stdout) -> io::Result<()> {
    play::play(
        out,
        b"# where 004 differs: its main ends at once and main_body lives on; here a child ends with its parent
start 1000
kernel 1010 -1 0 2
kernel 1020 -2 0

",
    )
}
