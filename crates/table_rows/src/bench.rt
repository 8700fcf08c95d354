//! What the runs of a row work on.

use crate::names::Names;
use crate::token::{binding, flattened, token};
use crate::trouble::Trouble;
use sd_outside::{MemCabinet, MemSink, MemSource, NoMemory, Status};
use sdjwt_cli::run;
use std::alloc::Global;
use tools_cli::run_tools;

/// The moment of a run where a row sets none, in seconds since 1970.
const NOW: u64 = 1_700_000_000;

/// The room on standard output where a row sets none, in bytes.
const ROOM: usize = 17_000_000;

/// The room for a line on standard error, in bytes.
const LINE_ROOM: usize = 1_000;

/// The most bytes that standard input gives at once where a row sets none.
const STEP: usize = 65_536;

// A step of a row.
#[derive(Drop)]
enum Step<'a> {
    // A file, or the moment or the room.
    File { name: &'a str, text: &'a str },
    // A file with the token of these words.
    Token { name: &'a str, words: &'a str },
    // A key binding token behind what the file has.
    Binding { name: &'a str, words: &'a str },
    // The token that the file has in its flattened form, with more members in its header.
    Header { name: &'a str, members: &'a str },
    // A run of these words, whose answer goes into a file.
    Run { words: &'a str, file: &'a str },
}

fn step_of(text: &str) -> Step<'_> {
    let (name, rest) = text.split_once(' ').unwrap_or((text, ""));
    if let Some(name) = name.strip_suffix(':') {
        return Step::File { name, text: rest };
    }
    if let Some(words) = rest.strip_prefix(":= ") {
        return Step::Token { name, words };
    }
    if let Some(words) = rest.strip_prefix("+= ") {
        return Step::Binding { name, words };
    }
    if let Some(members) = rest.strip_prefix("~= ") {
        return Step::Header { name, members };
    }
    let (words, file) = text.split_once(" > ").unwrap_or((text, "out"));
    Step::Run { words, file }
}

fn words_of(alloc: Global, words: &str) -> Result<Vec<String>, Trouble> {
    let mut list = Vec::new(alloc);
    for word in words.split_whitespace() {
        list.push(String::from_str(alloc, word)?)?;
    }
    Ok(list)
}

// The text of these bytes, which are what a sink took.
fn text_of(bytes: &[u8]) -> Result<&str, Trouble> {
    std::str::from_utf8(bytes).map_err(|_| Trouble::Unread("what was written is not UTF-8"))
}

// What a run left, as a row says it: the number of the status, what stands on
// standard output, and what stands on standard error.
fn outcome(alloc: Global, status: u8, out: &str, err: &str) -> Result<String, Trouble> {
    let mut text = format!(in alloc; "{status}")?;
    if !out.is_empty() {
        text.push(' ')?;
        text.push_str(out)?;
    }
    if !err.is_empty() {
        text.push_str(" 2> ")?;
        text.push_str(err)?;
    }
    Ok(text)
}

// The number that a text says.
fn number_of(text: &str) -> Result<u64, Trouble> {
    text.parse()
        .map_err(|_| Trouble::Unread("what is to be a number is none"))
}

// Standard input, from which a feed reads.
#[derive(Drop)]
struct Input {
    text: String,
    // the most bytes that it gives at once
    step: usize,
    // the number of the read that fails, counted from 0
    fails_at: Option<u64>,
}

impl Input {
    fn source(&self, alloc: Global) -> Result<MemSource, NoMemory> {
        let mut source = MemSource::new(alloc, self.text.as_bytes(), self.step.max(1))?;
        if let Some(call) = self.fails_at {
            source.fail_at(call)?;
        }
        Ok(source)
    }
}

/// The files, the moment, the room and standard input of a row, and what its last run left.
#[derive(Drop)]
pub(crate) struct Bench {
    alloc: Global,
    cabinet: MemCabinet,
    // what the cabinet holds
    files: Names,
    now: u64,
    room: usize,
    input: Input,
    left: String,
}

impl Bench {
    pub(crate) fn new(alloc: Global) -> Bench {
        Bench {
            alloc,
            cabinet: MemCabinet::new(alloc),
            files: Names::new(alloc),
            now: NOW,
            room: ROOM,
            input: Input {
                text: String::new(alloc),
                step: STEP,
                fails_at: None,
            },
            left: String::new(alloc),
        }
    }

    /// What the last run left.
    pub(crate) fn left(&self) -> &str {
        self.left.as_str()
    }

    /// What a run leaves that answers what a file holds.
    pub(crate) fn answer_of(&self, file: &str) -> Result<String, Trouble> {
        let held = self.files.find(file);
        let held = held.ok_or(Trouble::Unread("there is no file to compare with"))?;
        Ok(format!(in self.alloc; "0 {held}\n")?)
    }

    fn hold(&mut self, name: &str, text: &str) -> Result<(), Trouble> {
        self.cabinet.add(name, text.as_bytes())?;
        let text = String::from_str(self.alloc, text)?;
        self.files.add(name, text)
    }

    fn put(&mut self, name: &str, text: &str) -> Result<(), Trouble> {
        match name {
            "now" => self.now = number_of(text)?,
            "room" => self.room = number_of(text)? as usize,
            "source" => self.input.text = String::from_str(self.alloc, text)?,
            "step" => self.input.step = number_of(text)? as usize,
            "fail" => self.input.fails_at = Some(number_of(text)?),
            _ => self.hold(name, text)?,
        }
        Ok(())
    }

    // The token that the file of this name holds.
    fn token_in(&self, name: &str) -> Result<&str, Trouble> {
        let held = self.files.find(name);
        held.ok_or(Trouble::Unread("there is no token"))
    }

    fn flatten(&mut self, name: &str, members: &str) -> Result<(), Trouble> {
        let text = flattened(self.alloc, self.token_in(name)?, members)?;
        self.hold(name, text.as_str())
    }

    fn bind(&mut self, name: &str, words: &str) -> Result<(), Trouble> {
        let mut whole = String::from_str(self.alloc, self.token_in(name)?)?;
        whole.push_str(binding(self.alloc, &self.files, words)?.as_str())?;
        self.hold(name, whole.as_str())
    }

    // How the program ends that has these words: `sdjwt_tools` has those of its tools.
    fn status(
        &mut self,
        words: &[String],
        out: &mut MemSink,
        err: &mut MemSink,
    ) -> Result<Status, Trouble> {
        let (alloc, now) = (self.alloc, self.now);
        let cabinet = &mut self.cabinet;
        match words.first().map(|word| word.as_str()) {
            Some("audit" | "wallet" | "feed") => {
                let mut source = self.input.source(alloc)?;
                Ok(run_tools(alloc, words, cabinet, &mut source, now, out, err))
            }
            _ => Ok(run(alloc, words, cabinet, now, out, err)),
        }
    }

    fn run(&mut self, words: &str, file: &str) -> Result<(), Trouble> {
        let words = words_of(self.alloc, words)?;
        let mut out = MemSink::new(self.alloc, self.room)?;
        let mut err = MemSink::new(self.alloc, LINE_ROOM)?;
        let status = self.status(words.as_slice(), &mut out, &mut err)?;
        let answer = text_of(out.written())?;
        self.left = outcome(self.alloc, status.number(), answer, text_of(err.written())?)?;
        self.hold(file, answer)
    }

    /// Does a step of a row.
    pub(crate) fn step(&mut self, text: &str) -> Result<(), Trouble> {
        match step_of(text) {
            Step::File { name, text } => self.put(name, text),
            Step::Token { name, words } => {
                let token = token(self.alloc, &self.files, words)?;
                self.hold(name, token.as_str())
            }
            Step::Binding { name, words } => self.bind(name, words),
            Step::Header { name, members } => self.flatten(name, members),
            Step::Run { words, file } => self.run(words, file),
        }
    }
}
