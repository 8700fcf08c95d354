// What each command asks of its cabinet and of its source, and in how many pieces it answers.
ghost use Rattle.std.specs.Prelude.{◌≡◌, IfOk};

use crate::counted::{Pieces, Pulled, Recorded, cabinet, words_of};
use sd_outside::{MemSink, MemSource, NoMemory, Sink};
use sdjwt_cli::run;
use std::alloc::Global;
use tools_cli::run_tools;

// The number of the status of the program that has these words.
fn status_of<O: Sink>(
    alloc: Global,
    words: &[String],
    cabinet: &mut Recorded,
    source: &mut Pulled,
    out: &mut O,
    err: &mut Pieces,
) -> u8
    requires { source.old.source.taken ≡ 0 }
{
    match words.first().map(|word| word.as_str()) {
        Some("audit" | "wallet" | "feed") => {
            run_tools(alloc, words, cabinet, source, 0, out, err).number()
        }
        _ => run(alloc, words, cabinet, 0, out, err).number(),
    }
}

// Two lines, of which a pull gives one.
fn two_lines(alloc: Global) -> Result<MemSource, NoMemory>
    ensures { IfOk result (λ source. source.taken ≡ 0) }
{
    MemSource::new(alloc, b"a\nb\n", 2)
}

// What a run of these words leaves: its status, how often it put a piece on `err`, how often it
// asked the source, and what it asked for of the cabinet.
fn left_by<O: Sink>(
    alloc: Global,
    words: &str,
    source: MemSource,
    out: &mut O,
) -> Result<String, NoMemory>
    requires { source.taken ≡ 0 }
{
    let mut pulled = Pulled { source, pulls: 0 };
    let mut recorded = Recorded {
        files: cabinet(alloc)?,
        asked: String::new(alloc),
    };
    let words = words_of(alloc, words)?;
    let words = words.as_slice();
    let mut err = Pieces(0);
    let status = status_of(alloc, words, &mut recorded, &mut pulled, out, &mut err);
    let (pulls, asked) = (pulled.pulls, recorded.asked.as_str());
    Ok(format!(in alloc; "{status} {} {pulls}{asked}", err.0)?)
}

// Words, how often a run of them puts a piece on `out`, and what else it leaves.
const ROWS: [(&str, u64, &str); 31] = [
    ("split token", 1, "0 0 0 token 16777217"),
    ("show token", 1, "0 0 0 token 16777217"),
    (
        "verify policy token",
        1,
        "0 0 0 policy 16777217 token 16777217",
    ),
    ("issue order seed", 1, "0 0 0 order 16777217 seed 32"),
    (
        "present policy token",
        1,
        "0 0 0 policy 16777217 token 16777217",
    ),
    ("convert flat token", 1, "0 0 0 token 16777217"),
    // a file that is refused is asked for no second time, and the next one
    // is asked for all the same
    ("split bad", 0, "1 1 0 bad 16777217"),
    ("show bad", 0, "1 1 0 bad 16777217"),
    ("verify bad token", 0, "6 1 0 bad 16777217 token 16777217"),
    ("issue bad seed", 0, "6 1 0 bad 16777217 seed 32"),
    ("present bad token", 0, "6 1 0 bad 16777217 token 16777217"),
    ("convert flat bad", 0, "1 1 0 bad 16777217"),
    // behind one that is missing none is asked for
    ("verify absent token", 0, "3 1 0 absent 16777217"),
    ("issue order absent", 0, "3 1 0 order 16777217 absent 32"),
    ("present absent absent", 0, "3 1 0 absent 16777217"),
    ("convert flat absent", 0, "3 1 0 absent 16777217"),
    ("verify token", 0, "2 1 0"),
    // the tools
    (
        "audit order token",
        0,
        "1 1 0 order 16777217 token 16777217",
    ),
    ("audit bad token", 0, "6 1 0 bad 16777217 token 16777217"),
    ("audit absent token", 0, "3 1 0 absent 16777217"),
    (
        "wallet policy token token",
        1,
        "0 0 0 policy 16777217 token 16777217 token 16777217",
    ),
    (
        "wallet policy token absent",
        0,
        "3 1 0 policy 16777217 token 16777217 absent 16777217",
    ),
    (
        "wallet bad token token",
        0,
        "6 1 0 bad 16777217 token 16777217 token 16777217",
    ),
    ("feed policy 100", 3, "0 0 3 policy 16777217"),
    ("feed policy 4", 3, "0 0 3 policy 16777217"),
    ("feed policy 3", 1, "1 1 3 policy 16777217"),
    ("feed policy 1", 0, "1 1 2 policy 16777217"),
    ("feed policy 0", 0, "2 1 0"),
    ("feed bad 100", 0, "6 1 0 bad 16777217"),
    ("feed absent 100", 0, "3 1 0 absent 16777217"),
    ("feed policy", 0, "2 1 0"),
];

// Whether a run of the words of a row leaves the rest of it.
fn is_left(alloc: Global, row: (&str, u64, &str)) -> Result<bool, NoMemory> {
    let (words, pieces, wanted) = row;
    let mut out = Pieces(0);
    let left = left_by(alloc, words, two_lines(alloc)?, &mut out)?;
    Ok(left.as_str() == wanted && out.0 == pieces)
}

#[test]
fn each_file_is_fetched_once_and_the_source_is_asked_as_long_as_there_is_more(rt: HostRuntime) {
    for row in ROWS {
        assert!(rt; is_left(rt.alloc(), row) == Ok(true), "{}", row.0);
    }
}

const FEED: &str = "feed policy 100";

// Whether a feed whose second pull fails leaves this, and puts one piece on `out`.
fn is_broken(alloc: Global, wanted: &str) -> Result<bool, NoMemory> {
    let mut source = two_lines(alloc)?;
    source.fail_at(1)?;
    let mut out = Pieces(0);
    let left = left_by(alloc, FEED, source, &mut out)?;
    Ok(left.as_str() == wanted && out.0 == 1)
}

// Whether a feed that can write 3 bytes leaves this.
fn is_full(alloc: Global, wanted: &str) -> Result<bool, NoMemory> {
    let mut out = MemSink::new(alloc, 3)?;
    let left = left_by(alloc, FEED, two_lines(alloc)?, &mut out)?;
    Ok(left.as_str() == wanted)
}

// Where an answer can't be written, or the source fails, it is asked no more.
#[test]
fn a_feed_that_is_over_asks_for_nothing(rt: HostRuntime) {
    assert!(rt; is_full(rt.alloc(), "4 1 1 policy 16777217") == Ok(true));
    assert!(rt; is_broken(rt.alloc(), "3 1 2 policy 16777217") == Ok(true));
}
