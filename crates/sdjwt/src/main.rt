//! The program `sdjwt`: it takes its words, the files, the clock and the standard streams from the
//! runtime, and runs one command over them.
#![tactic(auto)]

use cli_parts::{Ending, exit_code, seconds, words};
use sd_outside::{HostCabinet, HostSink, Status};
use sdjwt_cli::run;
use std::process::ExitCode;

// The command of the words, over the files and the standard streams of the host.
fn status(rt: &HostRuntime) -> Result<Status, Ending> {
    let words = words(rt)?;
    let now = seconds(rt)?;
    let mut cabinet = HostCabinet::new(rt);
    let mut out = HostSink::new(rt.stdout());
    let mut err = HostSink::new(rt.stderr());
    Ok(run(
        rt.alloc(),
        words.as_slice(),
        &mut cabinet,
        now,
        &mut out,
        &mut err,
    ))
}

fn main(rt: HostRuntime) -> ExitCode {
    exit_code(status(&rt), &mut HostSink::new(rt.stderr()))
}
