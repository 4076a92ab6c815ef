// Every edge of the rules, played: what it writes is held to `stdout`, which was written by hand from the rules.
#![tactic(auto)]

mod alarms;
mod ceilings;
mod fields;
mod full;
mod hands;
mod interrupts;
mod processors;
mod refusals;
mod services;
mod tried;

use std::io;
use std::io::Stdout;
use std::process::ExitCode;
use streams::{READER_GONE, is_reader_gone};

fn every_edge(out: &mut Stdout) -> io::Result<()> {
    tried::all(out)?;
    refusals::all(out)?;
    services::all(out)?;
    ceilings::all(out)?;
    full::all(out)?;
    hands::all(out)?;
    interrupts::all(out)?;
    processors::all(out)?;
    alarms::all(out)?;
    fields::all(out)
}

fn main(rt: HostRuntime) -> io::Result<ExitCode> {
    match every_edge(&mut rt.stdout()) {
        Ok(()) => Ok(ExitCode::SUCCESS),
        Err(error) if is_reader_gone(&error) => Ok(ExitCode::from(READER_GONE)),
        Err(error) => Err(error),
    }
}
