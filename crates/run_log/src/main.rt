// The program: "reads a log on standard input and writes a line an event". What it says of itself goes to standard
// error: that, and not its status, tells what went wrong.
#![tactic(auto)]

use std::io;
use std::process::ExitCode;
use streams::{READER_GONE, is_reader_gone};

// One byte more than a log may have: enough to know that it has "more than 65,536 bytes".
const ENOUGH: usize = 65537;

fn main(rt: HostRuntime) -> io::Result<ExitCode> {
    let mut log = [0u8; ENOUGH];
    let Ok(n) = console::read(&mut rt.stdin(), &mut log) else {
        eprintln!(rt; "the log can't be read")?;
        return Ok(ExitCode::SUCCESS);
    };
    match console::answer(&mut rt.stdout(), &log[..n]) {
        Ok(()) => Ok(ExitCode::SUCCESS),
        Err(error) if is_reader_gone(&error) => Ok(ExitCode::from(READER_GONE)),
        Err(_) => {
            eprintln!(rt; "the lines can't be written")?;
            Ok(ExitCode::SUCCESS)
        }
    }
}
