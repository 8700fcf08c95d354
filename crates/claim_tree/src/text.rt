// JSON texts, read and written.
ghost use Rattle.std.specs.Prelude.{◌≡◌, ◌≤◌, [], true, Some, map, option_map, IfOk, IfErr, IsUtf8};
ghost use Rattle.json.specs.Print.{print};
ghost use Rattle.serde_json.specs.Read.{read as value_of_text};
ghost use Rattle.sd_outside.specs.Limits.{json_depth_max};
ghost use Rattle.claim_tree.specs.Tree.{IsOrdered, depth as depth_of, array};
ghost use Rattle.claim_tree.specs.View.{tree_of};
ghost use Rattle.claim_tree.specs.JsonText.{Reads, data_of, json_text};
ghost use Rattle.claim_tree.specs.Kept.{ReadsKept};
ghost use Rattle.claim_tree.specs.Passes.{is_later, ReadsBy};
ghost use Rattle.claim_tree.specs.JsonRefusals.{IsReadRefused};
ghost use Rattle.claim_tree.specs.declared.text.ReadError.{ReadError};
ghost use Rattle.claim_tree.specs.ListTails.{ReadsTail, kept_tree, short_list};

use crate::Tree;
use crate::build::{BuildError, build_again, build_text};
use crate::judge::judge_text;
use crate::pass::{Pass, Wanted};
use crate::tail::{TailOrTree, build_tail};
use crate::tokens::{put_texts, put_tree};
use json::{Scratch, Writer};
use sd_outside::{NoMemory, TextBox};
use std::alloc::Global;
use std::str;

/// Why a text is not read.
#[derive(Clone, Copy, Debug, PartialEq, Eq)]
pub enum ReadError {
    /// There was no memory for the tree.
    Memory,
    /// The bytes are not UTF-8, or no JSON text, or nest deeper than 127, or a
    /// number is too great for a float.
    NotJson,
    /// A number has a fraction or an exponent, is `-0`, or is out of the range of 64 bits.
    NotWhole,
}

impl From<NoMemory> for ReadError {
    ghost from_gives = { λ _ e. e ≡ ReadError.Memory };

    fn from(_: NoMemory) -> Self {
        ReadError::Memory
    }
}

/// What reads JSON texts. One that is kept reads many texts in the same memory.
#[derive(Drop)]
pub struct JsonReader {
    scratch: Scratch,
}

impl JsonReader {
    /// A reader that has read nothing yet.
    pub fn new(alloc: Global) -> JsonReader {
        JsonReader {
            scratch: Scratch::new(alloc),
        }
    }

    /// The tree of a JSON text (RFC 8259). Of two members of one name the last is kept.
    pub fn read(&mut self, alloc: Global, bytes: &[u8]) -> Result<Tree, ReadError>
        ensures ok { IfOk result (λ t. Reads bytes.now (tree_of t)) }
        ensures ordered { IfOk result (λ t. IsOrdered (tree_of t)) }
        ensures depth { IfOk result (λ t. depth_of (tree_of t) ≤ json_depth_max) }
        ensures unread { IfErr result (IsReadRefused bytes.now) }
    {
        let Ok(text) = str::from_utf8(bytes) else {
            return Err(ReadError::NotJson);
        };
        let tree = match build_text(alloc, &mut self.scratch, text) {
            Ok(tree) => tree,
            Err(BuildError::Memory) => return Err(ReadError::Memory),
            Err(BuildError::NoTree) => read_again(alloc, &mut self.scratch, text)?,
        };
        tree.invariant();
        Ok(tree)
    }

    /// The same, but of each object only the members with these names are kept, and of them the one
    /// named `whole` as it stands. The others are judged as well, and no tree is made of them.
    pub fn read_named(
        &mut self,
        alloc: Global,
        bytes: &[u8],
        names: &[&str],
        whole: &str,
    ) -> Result<Tree, ReadError>
        ensures ok { IfOk result
            (λ t. ReadsKept (map (λ n. n.now) names.now) whole.now bytes.now (tree_of t)) }
        ensures ordered { IfOk result (λ t. IsOrdered (tree_of t)) }
        ensures depth { IfOk result (λ t. depth_of (tree_of t) ≤ json_depth_max) }
        ensures unread { IfErr result (IsReadRefused bytes.now) }
    {
        let Ok(text) = str::from_utf8(bytes) else {
            return Err(ReadError::NotJson);
        };
        let pass = Pass::Named(Wanted { names, whole });
        let tree = read_judged(alloc, &mut self.scratch, text, pass)?;
        tree.invariant();
        Ok(tree)
    }

    /// The same, but the text that a list of two or three begins with is read and not kept.
    pub fn read_tail(&mut self, alloc: Global, bytes: &[u8]) -> Result<TailOrTree, ReadError>
        ensures ok { IfOk result (ReadsTail bytes.now) }
        ensures ordered { IfOk result (λ found. IsOrdered (kept_tree found)) }
        ensures depth { IfOk result (λ found. depth_of (kept_tree found) ≤ json_depth_max) }
        ensures unread { IfErr result (IsReadRefused bytes.now) }
    {
        let Ok(text) = str::from_utf8(bytes) else {
            return Err(ReadError::NotJson);
        };
        match build_tail(alloc, &mut self.scratch, text) {
            Ok(tail) => {
                tail.second.invariant();
                if let Some(third) = &tail.third {
                    third.invariant();
                }
                Ok(TailOrTree::Tail(tail))
            }
            Err(BuildError::Memory) => Err(ReadError::Memory),
            Err(BuildError::NoTree) => Ok(TailOrTree::Tree(self.read(alloc, bytes)?)),
        }
    }
}

/// The same, of one text.
pub fn read(alloc: Global, bytes: &[u8]) -> Result<Tree, ReadError>
    ensures ok { IfOk result (λ t. Reads bytes.now (tree_of t)) }
    ensures ordered { IfOk result (λ t. IsOrdered (tree_of t)) }
    ensures depth { IfOk result (λ t. depth_of (tree_of t) ≤ json_depth_max) }
    ensures unread { IfErr result (IsReadRefused bytes.now) }
{
    JsonReader::new(alloc).read(alloc, bytes)
}

// The tree of a text that was not read at once, or why it has none.
fn read_again(alloc: Global, scratch: &mut Scratch, text: &str) -> Result<Tree, ReadError>
    ensures ok { IfOk result (λ t. value_of_text text.now ≡ Some (data_of (tree_of t))) }
    ensures unread { IsUtf8 text.now → IfErr result (IsReadRefused text.now) }
{
    read_judged(alloc, scratch, text, Pass::Again)
}

// What a later pass sees of a text, or why it has no tree. It is judged first,
// so nothing is kept of one that has none.
fn read_judged(
    alloc: Global,
    scratch: &mut Scratch,
    text: &str,
    pass: Pass<'_>,
) -> Result<Tree, ReadError>
    requires { is_later pass ≡ true }
    ensures ok { IfOk result (λ t. ReadsBy pass.entry text.now (tree_of t)) }
    ensures unread { IsUtf8 text.now → IfErr result (IsReadRefused text.now) }
{
    match judge_text(alloc, scratch, text) {
        Ok(false) => (),
        Ok(true) => return Err(ReadError::NotWhole),
        Err(BuildError::NoTree) => return Err(ReadError::NotJson),
        Err(BuildError::Memory) => return Err(ReadError::Memory),
    }
    match build_again(alloc, scratch, text, pass) {
        Ok(tree) => Ok(tree),
        Err(BuildError::NoTree) => unreachable!(),
        Err(BuildError::Memory) => Err(ReadError::Memory),
    }
}

// The bytes that a written text takes memory for at first.
const ROOM: usize = 128;

fn new_writer(alloc: Global) -> Result<Writer, NoMemory>
    ensures before { IfOk result (λ out. out.before ≡ []) }
    ensures tokens { IfOk result (λ out. out.tokens ≡ []) }
{
    Ok(Writer::new(Vec::with_capacity(alloc, ROOM)?))
}

// The text that is written.
fn written_text(out: Writer) -> TextBox
    requires { out.before ≡ [] }
    ensures text { result ≡ print out.tokens }
    ensures utf8 { IsUtf8 result }
{
    let Ok(text) = String::from_utf8(out.into_inner()) else {
        unreachable!();
    };
    TextBox::from_string(text)
}

/// The compact JSON text of a tree: no blanks, the members ascending by the bytes of their names.
pub fn write(alloc: Global, tree: &Tree) -> Result<TextBox, NoMemory>
    ensures ok { IfOk result (λ text. text ≡ json_text (tree_of tree.now)) }
    ensures back { depth_of (tree_of tree.now) ≤ json_depth_max
        → IfOk result (λ text. Reads text (tree_of tree.now)) }
{
    tree.invariant();
    let mut out = new_writer(alloc)?;
    put_tree(&mut out, tree)?;
    Ok(written_text(out))
}

/// The same of the list of a text, another text where there is one, and a tree:
/// the list is not made.
pub fn write_list(
    alloc: Global,
    first: &str,
    second: Option<&str>,
    last: &Tree,
) -> Result<TextBox, NoMemory>
    ensures ok { IfOk result
        (λ text. text
        ≡ json_text
        (array
        (short_list first.now (option_map (λ s. s.now) second.entry)
        (tree_of last.now)))) }
    ensures back { depth_of (tree_of last.now) ≤ 126
        → IfOk result
        (λ text. Reads text
        (array
        (short_list first.now (option_map (λ s. s.now) second.entry)
        (tree_of last.now)))) }
{
    last.invariant();
    let mut out = new_writer(alloc)?;
    put_texts(&mut out, first, second)?;
    put_tree(&mut out, last)?;
    out.end_array()?;
    Ok(written_text(out))
}
