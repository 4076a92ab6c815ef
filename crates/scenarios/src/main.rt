// The demonstration of source document 004, the day of the accident, on a larger gateway too, the day of the tool, the
// day of three processors and the day of the alarm, played: what it writes is held to `stdout`, which was written by
// hand from the rules.
#![tactic(auto)]

mod alarm;
mod counting;
mod flood;
mod three;
mod tool;

use std::io;
use std::io::Stdout;
use std::process::ExitCode;
use streams::{READER_GONE, is_reader_gone};

fn every_day(out: &mut Stdout) -> io::Result<()> {
    counting::demonstration(out)?;
    counting::difference(out)?;
    flood::accident(out)?;
    flood::larger(out)?;
    tool::kept_off(out)?;
    three::processors(out)?;
    alarm::first(out)
}

fn main(rt: HostRuntime) -> io::Result<ExitCode> {
    match every_day(&mut rt.stdout()) {
        Ok(()) => Ok(ExitCode::SUCCESS),
        Err(error) if is_reader_gone(&error) => Ok(ExitCode::from(READER_GONE)),
        Err(error) => Err(error),
    }
}
