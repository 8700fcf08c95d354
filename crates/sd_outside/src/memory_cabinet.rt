// A cabinet in memory, whose calls fail where they are told to.
ghost use Rattle.std.specs.Prelude.{◌≡◌, ◌≢◌, ◌≤◌, ◌⊎◌, List, ℕ, Option, None, Some, [], length, take, OnOk, OnErr, IfOk, IfSome, IsErrOf, IsSomeAnd, MatchOption};
ghost use Rattle.std.specs.Option.{option_copied};
ghost use Rattle.sd_outside.specs.Causes.{Rose};
ghost use Rattle.sd_outside.specs.Memory.{content_of, one_more, IsPositionOf, IsToFail, after_call, failing_at, no_calls};

use crate::call_plan::CallPlan;
use crate::{ByteBox, Cabinet, FetchError, NoMemory, TextBox};
use std::alloc::Global;
use std::marker::Model;

/// A cabinet in memory, which tells what it holds. A fetch fails where the name is not held.
#[derive(Debug, Drop)]
pub struct MemCabinet {
    alloc: Global,
    files: Vec<(TextBox, ByteBox)>,
    faults: u64,
    missed: Option<TextBox>,
    calls: CallPlan,
}

impl Model for MemCabinet {
    ghost use Rattle.sd_outside.specs.Memory.{CabinetState};

    ghost Value = { CabinetState };

    ghost view = { λ c.
        record { files = c.files.items; faults = c.faults; missed = c.missed; calls = c.calls } };
}

impl MemCabinet {
    /// A cabinet that holds nothing.
    pub fn new(alloc: Global) -> MemCabinet
        ensures { result ≡ record { files = []; faults = 0; missed = None; calls = no_calls } }
    {
        MemCabinet {
            alloc,
            files: Vec::new(alloc),
            faults: 0,
            missed: None,
            calls: CallPlan::new(alloc),
        }
    }

    /// Holds this content under the name, in place of what was there.
    pub fn add(&mut self, name: &str, content: &[u8]) -> Result<(), NoMemory>
        ensures stored { OnOk result (content_of self.new.files name.now ≡ Some content.now) }
        ensures others { (other : List ℕ) → other ≢ name.now
            → content_of self.new.files other ≡ content_of self.old.files other }
        ensures err { OnErr result (self.new.files ≡ self.old.files) }
        ensures faults { self.new.faults ≡ self.old.faults }
        ensures missed { self.new.missed ≡ self.old.missed }
        ensures calls { self.new.calls ≡ self.old.calls }
    {
        store(self.alloc, &mut self.files, name, content)
    }

    /// Lets the fetch of this number fail, counted from 0, whatever is held.
    pub fn fail_at(&mut self, call: u64) -> Result<(), NoMemory>
        ensures listed { OnOk result (self.new.calls ≡ failing_at self.old.calls call) }
        ensures same_files { self.new.files ≡ self.old.files }
        ensures same_count { self.new.faults ≡ self.old.faults }
        ensures same_names { self.new.missed ≡ self.old.missed }
        ensures err { OnErr result (self.new ≡ self.old) }
    {
        self.calls.fail_at(call)
    }

    /// The number of fetches that failed.
    pub fn failures(&self) -> u64
        ensures { result ≡ self.now.faults }
    {
        self.faults
    }
}

// Where the name stands first.
fn place_of(files: &[(TextBox, ByteBox)], name: &str) -> Option<usize>
    ensures { MatchOption result (content_of files.now name.now ≡ None)
        (IsPositionOf files.now name.now) }
{
    for (i, file) in files.iter().enumerate() {
        if file.0.as_str() == name {
            return Some(i);
        }
    }
    None
}

fn store(
    alloc: Global,
    files: &mut Vec<(TextBox, ByteBox)>,
    name: &str,
    content: &[u8],
) -> Result<(), NoMemory>
    ensures stored { OnOk result (content_of files.new.items name.now ≡ Some content.now) }
    ensures others { (other : List ℕ) → other ≢ name.now
        → content_of files.new.items other ≡ content_of files.old.items other }
    ensures err { OnErr result (files.new.items ≡ files.old.items) }
{
    let mut copy = ByteBox::new(alloc);
    copy.append(content)?;
    let file = (TextBox::make(alloc, name)?, copy);
    match place_of(files.as_slice(), name) {
        Some(i) => files[i] = file,
        None => files.push(file)?,
    }
    Ok(())
}

// The content under a name.
fn find<'a>(files: &'a [(TextBox, ByteBox)], name: &str) -> Option<&'a ByteBox>
    ensures { option_copied result ≡ content_of files.now name.now }
{
    for file in files {
        if file.0.as_str() == name {
            return Some(&file.1);
        }
    }
    None
}

// A copy of the first `most` bytes.
fn front(alloc: Global, content: &ByteBox, most: usize) -> Result<ByteBox, NoMemory>
    ensures { IfOk result (λ bytes. bytes ≡ take most content.now) }
{
    let bytes = content.bytes();
    let mut copy = ByteBox::new(alloc);
    copy.append(&bytes[..most.min(bytes.len())])?;
    Ok(copy)
}

impl Cabinet for MemCabinet {
    ghost holds = { λ c name. content_of c.files name };

    ghost faults = { λ c. c.faults };

    ghost missed = { λ c. c.missed };

    fn fetch(&mut self, alloc: Global, name: &str, most: usize) -> Result<ByteBox, FetchError>
        // the clauses of the trait
        ensures content { IfOk result
            (λ bytes.
            IfSome (content_of self.old.files name.now) (λ file. bytes ≡ take most file)) }
        ensures within { IfOk result (λ bytes. length bytes ≤ most) }
        ensures failed { IsErrOf result FetchError.Failed → Rose self.old.faults self.new.faults }
        ensures names { IsErrOf result FetchError.Failed → self.new.missed ≡ Some name.now }
        ensures same_names { (result ≢ Err FetchError.Failed) → self.new.missed ≡ self.old.missed }
        ensures same_holds { (other : List ℕ)
            → content_of self.new.files other ≡ content_of self.old.files other }
        ensures later { self.old.faults ≤ self.new.faults }

        // it fails exactly at a call that is to fail and where the name is not
        // held, and just then it counts
        ensures asked { IfOk result (λ _. IsToFail self.old.calls → ⊥) }
        ensures held { IfOk result
            (λ bytes.
            IsSomeAnd (content_of self.old.files name.now) (λ file. bytes ≡ take most file)) }
        ensures cause { IsErrOf result FetchError.Failed
            → IsToFail self.old.calls ⊎ (content_of self.old.files name.now ≡ None) }
        ensures counts { IsErrOf result FetchError.Failed
            → self.new.faults ≡ one_more self.old.faults }
        ensures same_count { (result ≢ Err FetchError.Failed) → self.new.faults ≡ self.old.faults }
        ensures calls { self.new.calls ≡ after_call self.old.calls }
    {
        let fails = self.calls.next_fails();
        let missing = TextBox::make(alloc, name)?;
        match find(self.files.as_slice(), name) {
            Some(content) if !fails => Ok(front(alloc, content, most)?),
            _ => {
                self.faults = self.faults.saturating_add(1);
                self.missed = Some(missing);
                Err(FetchError::Failed)
            }
        }
    }
}
