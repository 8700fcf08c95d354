// What a run leaves where a file or a stream fails, and that the same objects
// serve the same run again.
use crate::counted::{cabinet, words_of};
use sd_outside::{MemCabinet, MemSink, NoMemory};
use sdjwt_cli::run;
use std::alloc::Global;

// A sink of which this call fails.
fn sink(alloc: Global, fails: Option<u64>) -> Result<MemSink, NoMemory> {
    let mut sink = MemSink::new(alloc, 100)?;
    if let Some(call) = fails {
        sink.fail_at(call)?;
    }
    Ok(sink)
}

// A cabinet of which this call fails.
fn failing(alloc: Global, fails: Option<u64>) -> Result<MemCabinet, NoMemory> {
    let mut cabinet = cabinet(alloc)?;
    if let Some(call) = fails {
        cabinet.fail_at(call)?;
    }
    Ok(cabinet)
}

// The numbers of the statuses of two runs of these words.
fn run_twice(
    alloc: Global,
    words: &str,
    cabinet: &mut MemCabinet,
    out: &mut MemSink,
    err: &mut MemSink,
) -> Result<[u8; 2], NoMemory> {
    let words = words_of(alloc, words)?;
    let words = words.as_slice();
    let first = run(alloc, words, cabinet, 0, out, err).number();
    let again = run(alloc, words, cabinet, 0, out, err).number();
    Ok([first, again])
}

const VERIFY: &str = "verify policy token";

// The call that is to fail, of the cabinet, of the output and of the lines of errors.
type Calls = [Option<u64>; 3];

const FETCH_0: Calls = [Some(0), None, None];

const FETCH_1: Calls = [Some(1), None, None];

const FETCH_2: Calls = [Some(2), None, None];

const OUTPUT_0: Calls = [None, Some(0), None];

const OUTPUT_1: Calls = [None, Some(1), None];

const LINE_0: Calls = [None, None, Some(0)];

// What both runs leave: their statuses, what stands on both streams, and the failed calls.
type Left = ([u8; 2], [&'static str; 2], [u64; 3]);

// Whether two runs of these words leave this, where these calls fail.
fn is_left(alloc: Global, fails: Calls, words: &str, left: Left) -> Result<bool, NoMemory> {
    let (statuses, [told, lines], failures) = left;
    let mut cabinet = failing(alloc, fails[0])?;
    let mut out = sink(alloc, fails[1])?;
    let mut err = sink(alloc, fails[2])?;
    let came = run_twice(alloc, words, &mut cabinet, &mut out, &mut err)?;
    let failed = [cabinet.failures(), out.failures(), err.failures()];
    let is_told = out.written() == told.as_bytes() && err.written() == lines.as_bytes();
    Ok(is_told && came == statuses && failed == failures)
}

#[test]
fn a_failure_has_its_status_and_the_objects_serve_again(rt: HostRuntime) {
    for (fails, words, left) in [
        (FETCH_0, VERIFY, ([3, 0], ["{}\n", "unread 1\n"], [1, 0, 0])),
        (FETCH_1, VERIFY, ([3, 0], ["{}\n", "unread 2\n"], [1, 0, 0])),
        (
            OUTPUT_0,
            VERIFY,
            ([4, 0], ["{}\n", "unwritten\n"], [0, 1, 0]),
        ),
        (
            LINE_0,
            "split bad",
            ([1, 1], ["", "refused 2 form at 0\n"], [0, 0, 1]),
        ),
        // calls that the first run does not make
        (FETCH_2, VERIFY, ([0, 3], ["{}\n", "unread 1\n"], [1, 0, 0])),
        (
            OUTPUT_1,
            VERIFY,
            ([0, 4], ["{}\n", "unwritten\n"], [0, 1, 0]),
        ),
        (LINE_0, VERIFY, ([0, 0], ["{}\n{}\n", ""], [0, 0, 0])),
    ] {
        assert!(rt;
            is_left(rt.alloc(), fails, words, left) == Ok(true),
            "{words}"
        );
    }
}
