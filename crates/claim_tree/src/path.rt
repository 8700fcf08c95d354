// Paths into trees: lists of steps, each a text.
ghost use Rattle.std.specs.Prelude.{◌≡◌, ◌↔◌, ◌<◌, ◌≤◌, ◌-◌, ◌^◌, ◌++◌, List, ℕ, [], ◌∷◌, length, reverse, take, decimal, IfOk, OnOk, OnErr, slice_get, slice_index, Some, IsTrue, drop, option_map};
ghost use Rattle.std.specs.Str.Iter.{LacksByte};
ghost use Rattle.claim_tree.specs.Path.{is_front, pointer_text};
ghost use Rattle.claim_tree.specs.Steps.{steps_between, slashes_from, StartsWithSlash, AreEnds};

use itoa::Buffer;
use sd_outside::{ListOf, NoMemory, TextBox};
use std::alloc::Global;
use std::marker::Model;

/// The way from a JSON value to one inside it, step by step: in an object the name of a member, in
/// a list the digits of a position. Contracts see the list of the steps.
///
/// The steps stand in one text, each behind a slash, so that a path takes two pieces of memory and
/// not one a step, and a pointer without escapes is its text.
#[derive(Debug, Drop)]
pub struct Path {
    text: String,
    // Where each step ends in the text.
    ends: Vec<usize>,
}

impl Model for Path {
    ghost use Rattle.std.specs.Prelude.{List, ℕ, string_bytes};
    ghost use Rattle.claim_tree.specs.Steps.{steps_between, AreEnds};

    ghost Value = { List (List ℕ) };

    ghost view = { λ p. steps_between 0 p.ends.items (string_bytes p.text) };

    ghost invariant = { λ p. AreEnds 0 p.ends.items (string_bytes p.text) };
}

impl Path {
    /// The path to the whole value. It takes no memory.
    pub fn new(alloc: Global) -> Path
        ensures { result ≡ [] }
    {
        Path {
            text: String::new(alloc),
            ends: Vec::new(alloc),
        }
    }

    // The same, with memory for so many steps, and for so many bytes of their texts.
    pub(crate) fn with_capacity(alloc: Global, steps: usize, bytes: usize) -> Result<Path, NoMemory>
        ensures { IfOk result (λ path. path ≡ []) }
    {
        let text = String::with_capacity(alloc, bytes)?;
        let ends = Vec::with_capacity(alloc, steps)?;
        Ok(Path { text, ends })
    }

    // The path whose pointer the text is, where it has a step and no escape.
    pub(crate) fn of_plain(alloc: Global, pointer: &str) -> Result<Path, NoMemory>
        requires slash { StartsWithSlash pointer.now }
        requires plain { LacksByte 126 pointer.now }
        ensures { IfOk result (λ path. pointer.now ≡ pointer_text path) }
    {
        let text = String::from_str(alloc, pointer)?;
        let ends = plain_ends(alloc, pointer)?;
        Ok(Path { text, ends })
    }

    /// The path of steps that are given from the last to the first.
    pub fn from_last(alloc: Global, steps: &[TextBox]) -> Result<Path, NoMemory>
        ensures { IfOk result (λ path. path ≡ reverse steps.now) }
    {
        let mut path = Path::new(alloc);
        for step in steps.iter().rev() {
            path.push(step.as_str())?;
        }
        Ok(path)
    }

    /// Adds a step at the end.
    pub fn push(&mut self, step: &str) -> Result<(), NoMemory>
        ensures ok { OnOk result (self.new ≡ self.old ++ step.now ∷ []) }
        ensures err { OnErr result (self.new ≡ self.old) }
    {
        self.text.reserve(step.len() + 1)?;
        self.ends.reserve(1)?;
        self.text.push_str("/")?;
        self.text.push_str(step)?;
        self.ends.push(self.text.len())?;
        Ok(())
    }

    /// Drops the last step, where there is one.
    pub fn pop(&mut self)
        ensures { self.new ≡ take (length self.old - 1) self.old }
    {
        let _last = self.ends.pop();
        let end = start_at(self.ends.as_slice(), self.ends.len());
        self.text.truncate(end);
    }

    /// The number of steps.
    pub fn len(&self) -> usize
        ensures { result ≡ length self.now }
    {
        self.ends.len()
    }

    /// The step at a position, counted from 0.
    pub fn at(&self, i: usize) -> Option<&str>
        ensures { option_map (λ step. step.now) result ≡ slice_get self.now i }
    {
        if i < self.ends.len() {
            Some(step_at(self.text.as_str(), self.ends.as_slice(), i))
        } else {
            None
        }
    }

    /// The steps, from the first to the last.
    pub fn steps(&self) -> Steps
        ensures steps { result ≡ self.now }
        ensures countable { length result < 2 ^ 64 }
    {
        self.steps_behind(0)
    }

    // The steps behind so many, of which there may be fewer.
    pub(crate) fn steps_behind(&self, count: usize) -> Steps
        ensures steps { result ≡ drop count self.now }
        ensures countable { length result < 2 ^ 64 }
    {
        let all = self.ends.as_slice();
        let count = count.min(all.len());
        let (_passed, ends) = all.split_at(count);
        Steps {
            text: self.text.as_str(),
            start: start_at(all, count),
            ends,
        }
    }

    /// Whether the other path has the same steps.
    pub fn is_same(&self, other: &Path) -> bool
        ensures { IsTrue result ↔ (self.now ≡ other.now) }
    {
        self.ends == other.ends && self.text == other.text
    }

    /// A copy of the path.
    pub fn copy(&self, alloc: Global) -> Result<Path, NoMemory>
        ensures { IfOk result (λ copy. copy ≡ self.now) }
    {
        let text = String::from_str(alloc, self.text.as_str())?;
        let mut ends = Vec::with_capacity(alloc, self.ends.len())?;
        ends.extend_from_slice(self.ends.as_slice())?;
        Ok(Path { text, ends })
    }
}

// Where the steps of a pointer without escapes end.
fn plain_ends(alloc: Global, pointer: &str) -> Result<Vec<usize>, NoMemory>
    ensures { IfOk result
        (λ ends. ends.items ≡ slashes_from 1 (drop 1 pointer.now) ++ length pointer.now ∷ []) }
{
    let bytes = pointer.as_bytes();
    let mut ends = Vec::with_capacity(alloc, slashes(pointer))?;
    for i in 1..bytes.len() {
        if bytes[i] == b'/' {
            ends.push(i)?;
        }
    }
    ends.push(bytes.len())?;
    Ok(ends)
}

// How many slashes are in a text.
pub(crate) fn slashes(text: &str) -> usize {
    text.as_bytes().iter().filter(|byte| **byte == b'/').count()
}

// Where the slash in front of a step stands, by the ends of the steps. At the
// number of the steps it is where the last ends.
fn start_at(ends: &[usize], i: usize) -> usize
    requires { i ≤ length ends.now }
    ensures { result ≡ slice_index (0 ∷ ends.now) i }
{
    if i == 0 { 0 } else { ends[i - 1] }
}

// The step at a position.
fn step_at<'a>(text: &'a str, ends: &[usize], i: usize) -> &'a str
    requires ends { AreEnds 0 ends.now text.now }
    requires within { i < length ends.now }
    ensures { slice_get (steps_between 0 ends.now text.now) i ≡ Some result.now }
{
    &text[start_at(ends, i) + 1..ends[i]]
}

/// The steps of a path that are still to come. Contracts see the list of them.
#[derive(Debug, Drop)]
pub struct Steps<'a> {
    text: &'a str,
    // Where the slash in front of the next step stands.
    start: usize,
    // Where each ends.
    ends: &'a [usize],
}

impl<'a> Model for Steps<'a> {
    ghost use Rattle.std.specs.Prelude.{List, ℕ};
    ghost use Rattle.claim_tree.specs.Steps.{steps_between, AreEnds};

    ghost Value = { List (List ℕ) };

    ghost view = { λ s. steps_between s.start s.ends.now s.text.now };

    ghost invariant = { λ s. AreEnds s.start s.ends.now s.text.now };
}

impl<'a> Iterator for Steps<'a> {
    ghost use Rattle.std.specs.Prelude.{List, ℕ};
    ghost use Rattle.std.specs.Iterator.{YieldsFirstRef, item_count};

    type Item = &'a str;

    ghost next_gives = { YieldsFirstRef (λ (s : List (List ℕ)). s) };

    ghost remaining = { item_count (λ (s : List (List ℕ)). s) };

    fn next(&mut self) -> Option<&'a str> {
        let (end, ends) = self.ends.split_first()?;
        let step = &self.text[self.start + 1..*end];
        self.start = *end;
        self.ends = ends;
        Some(step)
    }
}

/// Whether the first path is a front of the second. A path is a front of itself.
pub fn is_prefix(front: &Path, whole: &Path) -> bool
    ensures { result ≡ is_front front.now whole.now }
{
    whole.ends.starts_with(front.ends.as_slice())
        && whole.text.as_bytes().starts_with(front.text.as_bytes())
}

/// Paths in order. Contracts see the list of them.
pub type PathList = ListOf<Path>;

/// A copy of paths.
pub fn copy_paths(alloc: Global, paths: &PathList) -> Result<PathList, NoMemory>
    ensures { IfOk result (λ copies. copies ≡ paths.now) }
{
    let mut copies = PathList::new(alloc);
    for path in paths.elements() {
        copies.push(path.copy(alloc)?)?;
    }
    Ok(copies)
}

/// The decimal digits of a position: the step to it.
pub fn digits(alloc: Global, i: usize) -> Result<TextBox, NoMemory>
    ensures { IfOk result (λ text. text ≡ decimal i) }
{
    let mut digits = Buffer::new();
    TextBox::make(alloc, digits.format(i))
}
