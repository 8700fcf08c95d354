// Disclosures, made and read (RFC 9901 section 4.2).
ghost use Rattle.std.specs.Prelude.{◌≡◌, ◌≤◌, length, take, IfOk, IfErr, IfSome, IfNone, Option, option_map};
ghost use Rattle.sd_outside.specs.Limits.{json_depth_max};
ghost use Rattle.b64url_text.specs.Base64url.{Decodes};
ghost use Rattle.claim_tree.specs.ListTails.{ReadsTail, kept_tree, tail_elements};
ghost use Rattle.claim_tree.specs.JsonText.{Reads};
ghost use Rattle.claim_tree.specs.Tree.{Text, Tree as TreeSpec, IsOrdered, depth, leaf, text as text_leaf, array, element};
ghost use Rattle.claim_tree.specs.View.{tree_of};
ghost use Rattle.disclosure.specs.Digest.{digest_of};
ghost use Rattle.disclosure.specs.Disclosure.{IsDisclosure, array_of, disclosure_text};
ghost use Rattle.disclosure.specs.DisclosureRefusals.{IsNoArray, IsDisclosureRefused};

use crate::{DisclosureError, HashAlg, digest};
use b64url_text::{decode_into, encode};
use claim_tree::{JsonReader, ListTail, TailOrTree, Tree, copy, write_list};
use sd_outside::{NoMemory, TextBox};
use std::alloc::Global;

/// A disclosure: its base64url string, and the elements of the array that it encodes.
#[derive(Debug, Drop)]
pub struct Disclosure {
    /// The base64url string.
    pub text: TextBox,
    /// Any JSON value.
    pub salt: Tree,
    /// The name of the member, or `None` for an element of an array.
    pub name: Option<TextBox>,
    pub value: Tree,
}

impl Disclosure {
    /// Returns the digest of the base64url string.
    pub fn digest(&self, alloc: Global, alg: HashAlg) -> Result<TextBox, NoMemory>
        ensures { IfOk result (λ digest. digest ≡ digest_of alg self.now.text) }
    {
        digest(alloc, alg, self.text.as_str())
    }
}

/// The elements of the array in a disclosure: the salt, the name and the value.
#[derive(Debug, Drop)]
pub struct DisclosureParts {
    /// Any JSON value.
    pub salt: Tree,
    /// The name of the member, or `None` for an element of an array.
    pub name: Option<TextBox>,
    pub value: Tree,
}

/// The claim in a disclosure: the name and the value, without the salt.
#[derive(Debug, Drop)]
pub struct Disclosed {
    /// The name of the member, or `None` for an element of an array.
    pub name: Option<TextBox>,
    pub value: Tree,
}

/// The elements of a disclosure whose JSON is this tree (RFC 9901 section 4.2): the salt, the name
/// and the value. They are moved out of the tree.
pub fn parts_of(tree: Tree) -> Option<DisclosureParts>
    ensures parts { IfSome result
        (λ d. tree_of tree ≡ array_of (tree_of d.salt) d.name (tree_of d.value)) }
    ensures other { IfNone result (IsNoArray (tree_of tree)) }
{
    let Tree::List(list) = tree else {
        return None;
    };
    let mut trees = list.into_trees().into_iter();
    let salt = trees.next()?;
    let second = trees.next()?;
    let Some(value) = trees.next() else {
        return Some(DisclosureParts {
            salt,
            name: None,
            value: second,
        });
    };
    match second {
        Tree::Text(name) if trees.next().is_none() => Some(DisclosureParts {
            salt,
            name: Some(name),
            value,
        }),
        _ => None,
    }
}

// What a disclosure gives whose JSON is the list of a salt and these.
fn given_by(tail: ListTail) -> Option<Disclosed>
    ensures given { IfSome result
        (λ d. (salt : TreeSpec)
        → array (element salt (tail_elements tail)) ≡ array_of salt d.name (tree_of d.value)) }
    ensures other { IfNone result
        ((salt : TreeSpec) → IsNoArray (array (element salt (tail_elements tail)))) }
{
    let ListTail { second, third } = tail;
    let Some(value) = third else {
        return Some(Disclosed {
            name: None,
            value: second,
        });
    };
    match second {
        Tree::Text(name) => Some(Disclosed {
            name: Some(name),
            value,
        }),
        _ => None,
    }
}

/// What a disclosure gives whose JSON reads to this, which is moved out of it.
/// `None` if it is not a disclosure.
pub fn disclosed_by(found: TailOrTree) -> Option<Disclosed>
    requires depth { depth (kept_tree found) ≤ json_depth_max }
    ensures given { IfSome result
        (λ d. (json : Text) → ReadsTail json found
        → (salt : TreeSpec) × Reads json (array_of salt d.name (tree_of d.value))) }
    ensures depth { IfSome result (λ d. depth (tree_of d.value) ≤ 126) }
    ensures other { IfNone result
        ((json : Text) → ReadsTail json found → (t : TreeSpec) × Reads json t × IsNoArray t) }
{
    match found {
        TailOrTree::Tail(tail) => given_by(tail),
        TailOrTree::Tree(tree) => {
            let DisclosureParts { name, value, .. } = parts_of(tree)?;
            Some(Disclosed { name, value })
        }
    }
}

/// A reader of disclosures. A caller that keeps it reads many of them in the same memory.
#[derive(Drop)]
pub struct DisclosureReader {
    /// Reads their JSON, and may be lent to what reads other texts.
    pub json: JsonReader,
    // What a text is decoded to.
    room: Vec<u8>,
}

// Decodes a text to the front of the room, which grows as it has to. The answer
// is how many bytes they are.
fn decode_to(room: &mut Vec<u8>, text: &str) -> Result<usize, DisclosureError>
    ensures within { IfOk result (λ count. count ≤ length room.new.items) }
    ensures ok { IfOk result (λ count. Decodes text.now (take count room.new.items)) }
    ensures refused { IfErr result (IsDisclosureRefused text.now) }
{
    let wanted = text.len() / 4 * 3 + 3;
    if room.len() < wanted && room.resize(wanted, 0).is_err() {
        return Err(DisclosureError::Memory);
    }
    Ok(decode_into(text.as_bytes(), room.as_mut_slice())?)
}

impl DisclosureReader {
    /// Returns a new reader.
    pub fn new(alloc: Global) -> DisclosureReader {
        DisclosureReader {
            json: JsonReader::new(alloc),
            room: Vec::new(alloc),
        }
    }

    /// Reads the name and the value of a disclosure. This is faster than reading all elements,
    /// because it copies only the strings that it returns.
    pub fn read_disclosed(
        &mut self,
        alloc: Global,
        text: &str,
    ) -> Result<Disclosed, DisclosureError>
        ensures ok { IfOk result
            (λ d. (salt : TreeSpec) × IsDisclosure text.now salt d.name (tree_of d.value)) }
        ensures ordered { IfOk result (λ d. IsOrdered (tree_of d.value)) }
        ensures depth { IfOk result (λ d. depth (tree_of d.value) ≤ 126) }
        ensures refused { IfErr result (IsDisclosureRefused text.now) }
    {
        let count = decode_to(&mut self.room, text)?;
        let found = self.json.read_tail(alloc, &self.room[..count])?;
        disclosed_by(found).ok_or(DisclosureError::NotDisclosure)
    }
}

/// Reads a disclosure. All numbers have to be whole numbers. A [`DisclosureReader`] is faster if
/// only the names and values of many disclosures are needed.
pub fn read_disclosure(alloc: Global, text: &str) -> Result<Disclosure, DisclosureError>
    ensures text { IfOk result (λ d. d.text ≡ text.now) }
    ensures ok { IfOk result
        (λ d. IsDisclosure text.now (tree_of d.salt) d.name (tree_of d.value)) }
    ensures ordered { IfOk result (λ d. IsOrdered (tree_of d.value)) }
    ensures depth { IfOk result (λ d. depth (tree_of d.value) ≤ 126) }

    // the salt
    ensures salt_ordered { IfOk result (λ d. IsOrdered (tree_of d.salt)) }
    ensures salt_depth { IfOk result (λ d. depth (tree_of d.salt) ≤ 126) }

    ensures refused { IfErr result (IsDisclosureRefused text.now) }
{
    let mut reader = DisclosureReader::new(alloc);
    let count = decode_to(&mut reader.room, text)?;
    let tree = reader.json.read(alloc, &reader.room[..count])?;
    let parts = parts_of(tree).ok_or(DisclosureError::NotDisclosure)?;
    Ok(Disclosure {
        text: TextBox::make(alloc, text)?,
        salt: parts.salt,
        name: parts.name,
        value: parts.value,
    })
}

/// Returns the base64url string of the disclosure of a salt, a name and a value, with compact JSON.
pub fn make_text(
    alloc: Global,
    salt: &str,
    name: Option<&str>,
    value: &Tree,
) -> Result<TextBox, NoMemory>
    requires depth { depth (tree_of value.now) ≤ 126 }
    ensures text { IfOk result
        (λ text. text
        ≡ disclosure_text (leaf (text_leaf salt.now)) (option_map (λ n. n.now) name.entry)
        (tree_of value.now)) }
    ensures back { IfOk result
        (λ text. IsDisclosure text (leaf (text_leaf salt.now)) (option_map (λ n. n.now) name.entry)
        (tree_of value.now)) }
{
    let json = write_list(alloc, salt, name, value)?;
    encode(alloc, json.as_str().as_bytes())
}

fn copy_name(alloc: Global, name: Option<&str>) -> Result<Option<TextBox>, NoMemory>
    ensures { IfOk result (λ copy. copy ≡ option_map (λ n. n.now) name.entry) }
{
    match name {
        Some(name) => Ok(Some(TextBox::make(alloc, name)?)),
        None => Ok(None),
    }
}

/// Returns the disclosure of a salt, a name and a value, with compact JSON. It holds
/// copies of them.
pub fn make(
    alloc: Global,
    salt: &str,
    name: Option<&str>,
    value: &Tree,
) -> Result<Disclosure, NoMemory>
    requires depth { depth (tree_of value.now) ≤ 126 }
    ensures salt { IfOk result (λ d. tree_of d.salt ≡ leaf (text_leaf salt.now)) }
    ensures name { IfOk result (λ d. d.name ≡ option_map (λ n. n.now) name.entry) }
    ensures value { IfOk result (λ d. tree_of d.value ≡ tree_of value.now) }
    ensures text { IfOk result
        (λ d. d.text ≡ disclosure_text (tree_of d.salt) d.name (tree_of d.value)) }
    ensures back { IfOk result
        (λ d. IsDisclosure d.text (tree_of d.salt) d.name (tree_of d.value)) }
{
    Ok(Disclosure {
        text: make_text(alloc, salt, name, value)?,
        salt: Tree::Text(TextBox::make(alloc, salt)?),
        name: copy_name(alloc, name)?,
        value: copy(alloc, value)?,
    })
}
