//! Runs every row of the tables that lie in the folder that it is run in, and
//! tells which ones leave something else than they say.
//!
//! A table is a file whose name ends in `.rows`; the file `names.txt` has names for all tables.
//! `README.md` beside them has the language. With words, just the tables of these names are run.
#![tactic(auto)]

use std::process::ExitCode;
use std::{env, fs, io};
use table_rows::{Count, Report, run_table};

/// The file with the names for all tables.
const NAMES: &str = "names.txt";

// The tables of the folder, in the order of their names.
fn tables(rt: &HostRuntime) -> io::Result<Vec<String>> {
    let mut tables = Vec::new(rt.alloc());
    for entry in fs::read_dir(rt, ".")? {
        let entry = entry?;
        if entry.file_name().ends_with(".rows") {
            tables.push(String::from_str(rt.alloc(), entry.file_name())?)?;
        }
    }
    tables.sort()?;
    Ok(tables)
}

// The tables that the words name, or all where there are no words.
fn chosen(rt: &HostRuntime) -> io::Result<Vec<String>> {
    let words: Vec<String> = env::args(rt)?.skip(1).collect(rt.alloc())?;
    if words.is_empty() {
        tables(rt)
    } else {
        Ok(words)
    }
}

// Tells what is wrong with a table, in which the names of another one hold.
fn tell(rt: &HostRuntime, shared: &str, file: &str, text: &str) -> io::Result<Count> {
    let Ok(Report { told, count }) = run_table(rt.alloc(), shared, file, text) else {
        return Err(io::Error::from(io::ErrorKind::OutOfMemory));
    };
    print!(rt; "{}", told.as_str())?;
    Ok(count)
}

fn run_all(rt: &HostRuntime) -> io::Result<Count> {
    let names = fs::read_to_string(rt, NAMES)?;
    let mut all = tell(rt, "", NAMES, names.as_str())?;
    for file in chosen(rt)?.iter() {
        let text = fs::read_to_string(rt, file.as_str())?;
        let count = tell(rt, names.as_str(), file.as_str(), text.as_str())?;
        all.rows = all.rows.saturating_add(count.rows);
        all.differing = all.differing.saturating_add(count.differing);
    }
    Ok(all)
}

fn main(rt: HostRuntime) -> io::Result<ExitCode> {
    let Count { rows, differing } = run_all(&rt)?;
    println!(rt; "{rows} rows, {differing} differ")?;
    Ok(ExitCode::from(if differing == 0 { 0 } else { 1 }))
}
