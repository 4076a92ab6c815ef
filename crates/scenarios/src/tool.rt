// The day on which a tool killed another customer's process, with hands off other customers.

use std::io;
use std::io::Stdout;

// The tool's call gives −1, and the other customer's process lives on; its own worker the tool may end.
pub(crate) fn kept_off(out: &mut Stdout) -> io::Result<()> {
    play::play(
        out,
        b"# the day of the tool: it names another customer's process, gets -1, and the process lives on
start 1000
ceilings 2 4 4 ; the gateway's own, the customer with the tool, the other customer
kernel 1100 -1 0 256 ; the gateway starts customer 1's shell, id 2
kernel 1200 -1 0 512 7 ; and customer 2's recorder, id 3
kernel 1300 -7 ; the gateway waits for the pseudo-clock
kernel 1400 -1 ; the shell starts its tool, id 4
kernel 1500 -3 0 ; and waits for it on semaphore 0
kernel 1600 -5 12 ; the recorder waits at a device
kernel 1700 -1 ; the tool starts a worker, id 5
kernel 1800 -2 3 ; the tool names the recorder
kernel 1900 -2 1 ; it names the gateway's own process
kernel 2000 -2 2 ; and the shell that started it
kernel 2100 -2 5 ; its own worker it may end
interrupt 2200 4 16 0 ; a reading: the recorder is ready
kernel 2300 -4 0 ; the tool signals the shell
kernel 2400 -2 0 ; and ends
kernel 2500 -9 0 ; the recorder runs: its id
kernel 2600 -5 12 ; it waits for the next reading
interrupt 2700 2 0 0 ; a tick: the gateway is ready
kernel 2800 -10 ; the shell yields
kernel 2900 -2 3 ; the gateway, customer 0, may end the recorder
kernel 3000 -2 0 ; the shell ends
kernel 3100 -2 0 ; the gateway ends, and nobody is alive

",
    )
}
