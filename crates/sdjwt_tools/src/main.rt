//! The program `sdjwt_tools`: it takes its words, the files, the clock and the standard streams
//! from the runtime, and runs one tool over them.
#![tactic(auto)]

use cli_parts::{Ending, exit_code, seconds, words};
use sd_outside::{HostCabinet, HostSink, HostSource, Status};
use std::process::ExitCode;
use tools_cli::run_tools;

// The tool of the words, over the files and the standard streams of the host.
fn status(rt: &HostRuntime) -> Result<Status, Ending> {
    let words = words(rt)?;
    let now = seconds(rt)?;
    let mut cabinet = HostCabinet::new(rt);
    let mut source = HostSource::new(rt.stdin());
    let mut out = HostSink::new(rt.stdout());
    let mut err = HostSink::new(rt.stderr());
    Ok(run_tools(
        rt.alloc(),
        words.as_slice(),
        &mut cabinet,
        &mut source,
        now,
        &mut out,
        &mut err,
    ))
}

fn main(rt: HostRuntime) -> ExitCode {
    exit_code(status(&rt), &mut HostSink::new(rt.stderr()))
}
