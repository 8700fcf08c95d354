//! A table of rows: a file with a run of the program on each line.

use crate::bench::Bench;
use crate::names::Names;
use crate::spelling::spelled;
use crate::trouble::Trouble;
use sd_outside::NoMemory;
use std::alloc::Global;

/// How many rows were run, and how many of them left something else than they say.
#[derive(Clone, Copy)]
pub struct Count {
    pub rows: u64,
    pub differing: u64,
}

impl Count {
    fn add(&mut self, differs: bool) {
        self.rows = self.rows.saturating_add(1);
        if differs {
            self.differing = self.differing.saturating_add(1);
        }
    }
}

/// What became of a table.
#[derive(Drop)]
pub struct Report {
    /// What is wrong with its lines, each with the name of the file and its number.
    pub told: String,
    /// Its rows. A line that can't be read is one of them, and differs.
    pub count: Count,
}

/// The most characters of what came and of what was due that a report shows.
const SHOWN: usize = 400;

// The front of a text on one line.
fn shortened(alloc: Global, text: &str) -> Result<String, Trouble> {
    let mut short = String::new(alloc);
    for c in text.chars().take(SHOWN) {
        short.push(if c == '\n' { '|' } else { c })?;
    }
    if short.len() < text.len() {
        short.push_str(" ..")?;
    }
    Ok(short)
}

// What a row says that its last run leaves.
#[derive(Drop)]
enum Due<'a> {
    // The number of the status, and what stands on standard output and on standard error.
    Outcome(&'a str),
    // Status 0, with what the file of this name holds and a line end on standard output.
    File(&'a str),
}

// The steps of a row, and what is due of them.
fn parts_of(row: &str) -> Result<(&str, Due<'_>), Trouble> {
    if let Some((steps, due)) = row.split_once(" = ") {
        return Ok((steps, Due::Outcome(due)));
    }
    match row.split_once(" == ") {
        Some((steps, file)) => Ok((steps, Due::File(file))),
        None => Err(Trouble::Unread("a row has no =")),
    }
}

// What came and what was due, where the last run of a row leaves something else than the row says.
fn difference(alloc: Global, row: &str) -> Result<Option<String>, Trouble> {
    let (steps, due) = parts_of(row)?;
    let mut bench = Bench::new(alloc);
    for step in steps.split("; ") {
        bench.step(step)?;
    }
    let due = match due {
        Due::Outcome(due) => String::from_str(alloc, due)?,
        Due::File(file) => bench.answer_of(file)?,
    };
    if bench.left() == due.as_str() {
        return Ok(None);
    }
    let came = shortened(alloc, bench.left())?;
    let due = shortened(alloc, due.as_str())?;
    let (came, due) = (came.as_str(), due.as_str());
    Ok(Some(format!(in alloc; "came {came}\n    due {due}")?))
}

// The names and the first steps that hold for the next line of a table.
#[derive(Drop)]
struct Table<'a> {
    alloc: Global,
    names: &'a mut Names,
    first: String,
}

impl<'a> Table<'a> {
    fn new(alloc: Global, names: &'a mut Names) -> Table<'a> {
        Table {
            alloc,
            names,
            first: String::new(alloc),
        }
    }

    // The name and its text, with what stands in it written out.
    fn define(&mut self, definition: &str) -> Result<(), Trouble> {
        let (name, text) = definition
            .split_once(" = ")
            .ok_or(Trouble::Unread("a name has no = "))?;
        let text = spelled(self.alloc, self.names, text)?;
        self.names.add(name, text)
    }

    fn row(&self, row: &str) -> Result<Option<String>, Trouble> {
        let first = self.first.as_str();
        let whole = format!(in self.alloc; "{first}{row}")?;
        let whole = spelled(self.alloc, self.names, whole.as_str())?;
        let whole = whole.as_str().replace(self.alloc, '|', "\n")?;
        difference(self.alloc, whole.as_str())
    }

    // Does what a line says. A row that leaves something else is told, and counted.
    fn line(&mut self, line: &str, count: &mut Count) -> Result<Option<String>, Trouble> {
        if line.is_empty() || line.starts_with('#') {
            return Ok(None);
        }
        if let Some(definition) = line.strip_prefix("let ") {
            self.define(definition)?;
            return Ok(None);
        }
        if let Some(first) = line.strip_prefix("first ") {
            self.first = format!(in self.alloc; "{first}; ")?;
            return Ok(None);
        }
        let told = self.row(line)?;
        count.add(told.is_some());
        Ok(told)
    }

    // The same, where a line that can't be read is told, too.
    fn told(&mut self, line: &str, count: &mut Count) -> Result<Option<String>, NoMemory> {
        match self.line(line, count) {
            Ok(told) => Ok(told),
            Err(Trouble::Memory) => Err(NoMemory),
            Err(Trouble::Unread(why)) => {
                count.add(true);
                Ok(Some(format!(in self.alloc; "can't be read: {why}")?))
            }
        }
    }
}

// What is wrong with the lines of a table, each with the name of its file and
// its number. The names that they define are added.
fn read(alloc: Global, names: &mut Names, file: &str, text: &str) -> Result<Report, NoMemory> {
    let mut told = String::new(alloc);
    let mut count = Count {
        rows: 0,
        differing: 0,
    };
    let mut table = Table::new(alloc, names);
    for (i, line) in text.split('\n').enumerate() {
        if let Some(fault) = table.told(line, &mut count)? {
            let number = i.saturating_add(1);
            let fault = fault.as_str();
            told.push_str(format!(in alloc; "{file}:{number}: {fault}\n")?.as_str())?;
        }
    }
    Ok(Report { told, count })
}

/// Runs every row of the table that the text of a file is. The names of another
/// table, `shared`, hold in it.
///
/// What is wrong with the lines of `shared` is not told: run it as a table for that.
pub fn run_table(alloc: Global, shared: &str, file: &str, text: &str) -> Result<Report, NoMemory> {
    let mut names = Names::new(alloc);
    let _ = read(alloc, &mut names, file, shared)?;
    read(alloc, &mut names, file, text)
}
