// The day of the alarm, with alarms first.

use std::io;
use std::io::Stdout;

// The alarm's processes are high: each is chosen before the flood of low ones, which still gets its turn after four.
pub(crate) fn first(out: &mut Stdout) -> io::Result<()> {
    play::play(
        out,
        b"# the day of the alarm: its processes are chosen before a flood of low ones, which is not forgotten
start 1000
ceilings 2 10 4 ; the gateway's own, the customer that floods, the customer whose bearing cracks
kernel 1100 -1 0 256 0 ; the gateway starts customer 1's process, id 2, low
kernel 1200 -1 0 513 7 ; and customer 2's alarm service, id 3, high
kernel 1300 -7 ; the gateway waits for the pseudo-clock: the alarm service runs, though it was born later
kernel 1400 -5 40 ; it waits at a terminal
kernel 1500 -1 ; customer 1's flood, all low: ids 4 to 12, and ten of it are alive
again 8
kernel 1600 -1 ; one more is denied
interrupt 1700 7 0 1 ; the alarm: its service is ready
kernel 1800 -6 ; nobody is preempted: customer 1's process carries on
interrupt 1900 1 0 0 ; its slice ends: the alarm service runs before the nine of the flood
kernel 2000 -1 0 1 7 ; it creates the alarm's process, high: id 13
kernel 2100 -5 40 ; and waits again: the alarm's process is chosen before the flood
kernel 2200 -9 0 ; its id
kernel 2300 -5 33 ; it sends the alarm by another terminal, and the first of the flood runs
kernel 2400 -10 ; the flood takes turns
interrupt 2500 7 2 0 ; the alarm is sent
kernel 2600 -10 ; the alarm's process runs again before the flood
kernel 2700 -2 0 ; and ends
interrupt 2800 7 0 1 ; another alarm
kernel 2900 -10 ; its service runs
kernel 3000 -10 ; it yields, and is chosen before the flood, four times in all
again 2
kernel 3100 -10 ; then the next of the flood is
kernel 3200 -10 ; and the service again
kernel 3300 -5 40 ; it waits
interrupt 3400 2 0 0 ; a tick: the gateway is ready

",
    )
}
