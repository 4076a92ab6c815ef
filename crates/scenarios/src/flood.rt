// The day of the accident, with a ceiling for each customer. All its processes are low.

use std::io;
use std::io::Stdout;

// One customer's flood is denied at its own ceiling; the other customer's alarm gets its process in the same breath.
pub(crate) fn accident(out: &mut Stdout) -> io::Result<()> {
    play::play(
        out,
        b"# the day of the accident: a flood of creates, and an alarm that is sent
start 1000
ceilings 2 10 8 ; the gateway's own, the customer that floods, the customer whose bearing cracks
kernel 1100 -1 0 256 0 ; the gateway starts customer 1's process, id 2
kernel 1200 -1 0 512 7 ; and customer 2's alarm service, id 3
kernel 1300 -7 ; the gateway waits for the pseudo-clock
interrupt 1400 1 0 0 ; customer 1's slice ends
kernel 1500 -5 40 ; the alarm service waits at a terminal
interrupt 1600 7 0 1 ; the alarm: its service is ready
kernel 1700 -1 ; customer 1's flood: ids 4 to 12, and ten of it are alive
again 8
kernel 1800 -1 ; one more is denied
interrupt 1800 1 0 0 ; its slice ends
kernel 1800 -1 0 0 7 ; the alarm's process is granted, in the same breath: id 13
kernel 1900 -5 40 ; the alarm service waits again
kernel 2000 -1 ; the first of the flood is denied as well
kernel 2100 -3 5 ; each of the flood waits on semaphore 5
again 8
kernel 2200 -1 ; the waiting count: customer 1's process is denied again
interrupt 2300 1 0 0 ; its slice ends
kernel 2400 -9 0 ; the alarm's process runs: its id
kernel 2500 -5 33 ; it sends the alarm by another terminal
kernel 2600 -2 9 ; customer 1's process kills one of its flood, id 9 in slot 8
kernel 2700 -1 ; and has the place again: id 14
interrupt 2800 7 2 0 ; the alarm is sent
interrupt 2900 2 0 0 ; a tick: the gateway is ready
interrupt 3000 1 0 0 ; customer 1's slice ends
kernel 3100 -10 ; id 14 yields
kernel 3200 -2 0 ; the alarm's process ends
kernel 3300 -2 2 ; the gateway ends customer 1's process with all of its flood
kernel 3400 -1 0 256 ; there is room for it from slot 1 on

",
    )
}

// The same day where all 64 places are taken: the flood to its ceiling, the other customer to its own, the gateway to
// the last.
pub(crate) fn larger(out: &mut Stdout) -> io::Result<()> {
    play::play(
        out,
        b"# the day of the accident on a gateway of 64 places: the flood holds 40 of them, and the alarm is sent
start 1000
ceilings 2 40 22 ; the gateway's own, the customer that floods, the customer whose bearing cracks
kernel 1100 -1 0 256 0 ; the gateway starts customer 1's process, id 2
kernel 1200 -1 0 512 7 ; and customer 2's alarm service, id 3
kernel 1300 -7 ; the gateway waits for the pseudo-clock
kernel 1400 -1 ; customer 1's flood: ids 4 to 42, and forty of it are alive
again 38
kernel 1500 -1 ; one more is denied
interrupt 1600 1 0 0 ; its slice ends
kernel 1700 -1 0 0 7 ; the alarm's process is granted: id 43
kernel 1800 -1 ; and twenty more, ids 44 to 63: customer 2 has its 22
again 19
kernel 1900 -1 ; one more is denied
kernel 2000 -5 40 ; the alarm service waits at a terminal
kernel 2100 -1 ; the first of the flood is denied as well
interrupt 2200 2 0 0 ; a tick: the gateway is ready
kernel 2300 -3 5 ; each of the flood waits on semaphore 5
again 38
kernel 2400 -1 ; the waiting count: customer 1's process is denied again
kernel 2500 -3 5 ; it waits too
kernel 2600 -5 33 ; the alarm's process sends the alarm by another terminal
kernel 2700 -7 ; the twenty wait for the pseudo-clock
again 19
kernel 2800 -1 0 0 ; the gateway has a place of its own left, the last of the table: id 64 in slot 63
kernel 2900 -1 0 0 ; now all 64 are taken
kernel 3000 -1 0 512
interrupt 3100 7 2 0 ; the alarm is sent
interrupt 3200 2 0 0 ; a tick wakes the twenty
kernel 3300 -2 2 ; the gateway ends customer 1's process with all of its flood; slot 63 runs
kernel 3400 -1 0 256 ; there is room for customer 1 from slot 1 on: id 65
kernel 3500 -10
kernel 3600 -2 0 ; the alarm's process ends
kernel 3700 -2 1 ; one of the twenty may not name the gateway's process
interrupt 3800 1 0 0

",
    )
}
