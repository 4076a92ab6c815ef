// A day with three processors under one set of lines.

use std::io;
use std::io::Stdout;

// A kill leaves another processor idle while someone is ready; only that processor's next interrupt starts one.
pub(crate) fn processors(out: &mut Stdout) -> io::Result<()> {
    play::play(
        out,
        b"# the day of three processors: a kill leaves one idle while someone is ready, until its next interrupt
start 1000
ceilings 2 6 4 ; the gateway's own, the customer with the tools, the customer with the recorder
processors 3
kernel 1100 -1 0 256 ; the gateway, on processor 0, starts customer 1's shell, id 2
kernel 1200 -1 0 512 ; and customer 2's recorder, id 3
on 1
interrupt 1300 2 0 0 ; a tick on processor 1: it was idle, and takes the shell
on 2
interrupt 1300 2 0 0 ; a tick on processor 2: it takes the recorder
on 1
kernel 1400 -1 ; the shell starts its first tool, id 4
kernel 1450 -1 ; and its second, id 5
on 2
kernel 1500 -5 12 ; the recorder waits at a device, and processor 2 takes the first tool
on 0
interrupt 1600 4 16 0 ; a reading, told to processor 0: the recorder is ready, behind the second tool
on 1
kernel 1700 -2 4 ; the shell ends its first tool, which runs on processor 2: that one is left idle
on 0
kernel 1800 -6 ; the gateway ran all the while on processor 0
on 2
kernel 1900 -6 ; nobody runs on processor 2, though the recorder is ready
interrupt 2000 2 0 0 ; its next interrupt: now it takes the recorder
kernel 2100 -6 ; whose time is 200 before it waited, and 100 since
on 3
kernel 2200 -6 ; there is no processor 3
on 0
kernel 2300 -2 2 ; the gateway ends the shell, which is ready, and the second tool, on processor 1
kernel 2400 -2 3 ; and the recorder, on processor 2
kernel 2500 -2 0 ; and itself: nobody is alive

",
    )
}
