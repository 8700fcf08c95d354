// Trees from the tokens of a text, in one pass.
ghost use Rattle.std.specs.Prelude.{◌≡◌, ◌-◌, ◌<◌, true, length, Some, None, Err, IfOk, OnOk, OnErr, option_map};
ghost use Rattle.json.specs.Json.{value, items, members, parse_map};
ghost use Rattle.serde_json.specs.Data.{no_members, number, put};
ghost use Rattle.serde_json.specs.Read.{of_json, of_items, of_members, converted, number_of, read as value_of_text};
ghost use Rattle.claim_tree.specs.View.{tree_of};
ghost use Rattle.claim_tree.specs.ListViews.{members_of};
ghost use Rattle.claim_tree.specs.JsonText.{data_of, elements_data, members_data};
ghost use Rattle.claim_tree.specs.Passes.{is_later, seen, seen_items, seen_members};
ghost use Rattle.claim_tree.specs.declared.pass.Pass.TheVariants.{First};
ghost use Rattle.claim_tree.specs.declared.build.BuildError.TheVariants.{Memory, NoTree};

use crate::judge::judge;
use crate::pass::Pass;
use crate::tree::is_behind;
use crate::whole_number::{NumberError, whole_number};
use crate::{Tree, TreeList, TreeMap};
use json::{Invalid, Reader, Scratch, Token};
use sd_outside::{NoMemory, TextBox};
use std::alloc::{AllocError, Global};
use std::collections::BTreeMap;

// How deep arrays and objects nest at most.
pub(crate) const MOST_DEPTH: usize = 127;

// Why the tokens give no tree.
#[derive(Clone, Copy, Debug, PartialEq, Eq)]
pub(crate) enum BuildError {
    Memory,
    // The text is no JSON. When it is read for the first time, this may also be since a number is
    // not whole, or since a great object has names that do not ascend.
    NoTree,
}

impl From<NoMemory> for BuildError {
    ghost from_gives = { λ _ e. e ≡ Memory };

    fn from(_: NoMemory) -> Self {
        BuildError::Memory
    }
}

impl From<AllocError> for BuildError {
    ghost from_gives = { λ _ e. e ≡ Memory };

    fn from(_: AllocError) -> Self {
        BuildError::Memory
    }
}

impl From<Invalid> for BuildError {
    fn from(_: Invalid) -> Self {
        BuildError::NoTree
    }
}

// The tree of a text.
pub(crate) fn build_text(
    alloc: Global,
    scratch: &mut Scratch,
    text: &str,
) -> Result<Tree, BuildError>
    ensures ok { IfOk result (λ t. value_of_text text.now ≡ Some (data_of (tree_of t))) }
{
    let mut reader = Reader::new(text, scratch)?;
    let tree = build(alloc, &mut reader, MOST_DEPTH)?;
    match reader.next() {
        None => Ok(tree),
        Some(_) => Err(BuildError::NoTree),
    }
}

// What a later pass sees of a text, as a tree.
pub(crate) fn build_again(
    alloc: Global,
    scratch: &mut Scratch,
    text: &str,
    pass: Pass<'_>,
) -> Result<Tree, BuildError>
    ensures ok { IfOk result
        (λ t. option_map (seen pass.entry) (value_of_text text.now) ≡ Some (data_of (tree_of t))) }
    ensures err { is_later pass.entry ≡ true → result ≡ Err NoTree → value_of_text text.now ≡ None }
{
    let mut reader = Reader::new(text, scratch)?;
    let tree = build_value(alloc, &mut reader, MOST_DEPTH, pass)?;
    match reader.next() {
        None => Ok(tree),
        Some(_) => Err(BuildError::NoTree),
    }
}

// The tree that the next tokens are.
#[cycle(build)]
pub(crate) fn build(
    alloc: Global,
    reader: &mut Reader<'_>,
    depth: usize,
) -> Result<Tree, BuildError>
    ensures ok { IfOk result
        (λ t. converted of_json (value depth reader.old) ≡ Some (data_of (tree_of t), reader.new)) }
    ensures shorter { OnOk result (length reader.new < length reader.old) }
{
    build_value(alloc, reader, depth, Pass::First)
}

// What a pass sees of it.
#[cycle(build)]
fn build_value(
    alloc: Global,
    reader: &mut Reader<'_>,
    depth: usize,
    pass: Pass<'_>,
) -> Result<Tree, BuildError>
    ensures ok { IfOk result
        (λ t. parse_map (seen pass.entry) (converted of_json (value depth reader.old))
        ≡ Some (data_of (tree_of t), reader.new)) }
    ensures err { is_later pass.entry ≡ true → result ≡ Err NoTree
        → converted of_json (value depth reader.old) ≡ None }
    ensures shorter { OnOk result (length reader.new < length reader.old) }
{
    let token = reader.next().ok_or(BuildError::NoTree)?;
    match token {
        Token::String(text) => Ok(Tree::Text(TextBox::make(alloc, text)?)),
        Token::Number(text) => Ok(number_tree(text, pass)?),
        Token::Bool(flag) => Ok(Tree::Flag(flag)),
        Token::Null => Ok(Tree::Null),
        Token::BeginArray => {
            Ok(Tree::List(build_elements(alloc, reader, inside(depth)?, pass)?))
        }
        Token::BeginObject => {
            Ok(Tree::Object(build_object(alloc, reader, inside(depth)?, pass)?))
        }
        Token::EndObject | Token::EndArray | Token::Key(_) | Token::Bad => Err(BuildError::NoTree),
    }
}

// How deep arrays and objects may nest inside one.
pub(crate) fn inside(depth: usize) -> Result<usize, BuildError>
    ensures less { IfOk result (λ inner. inner ≡ depth - 1) }
    ensures some { OnOk result (0 < depth) }
    ensures none { OnErr result (depth ≡ 0) }
{
    match depth.checked_sub(1) {
        Some(inner) => Ok(inner),
        None => Err(BuildError::NoTree),
    }
}

// The tree of a number's text.
fn number_tree(text: &str, pass: Pass<'_>) -> Result<Tree, BuildError>
    ensures ok { IfOk result
        (λ t. option_map (λ n. seen pass.entry (number n)) (number_of text.now)
        ≡ Some (data_of (tree_of t))) }
    ensures err { is_later pass.entry ≡ true → result ≡ Err NoTree → number_of text.now ≡ None }
{
    match whole_number(text) {
        Ok(whole) => Ok(Tree::Whole(whole)),
        Err(NumberError::Float) => match pass {
            Pass::First => Err(BuildError::NoTree),
            Pass::Again | Pass::Named(_) => Ok(Tree::Null),
        },
        Err(NumberError::TooGreat) => Err(BuildError::NoTree),
    }
}

#[cycle(build)]
fn build_elements(
    alloc: Global,
    reader: &mut Reader<'_>,
    depth: usize,
    pass: Pass<'_>,
) -> Result<TreeList, BuildError>
    ensures ok { IfOk result
        (λ es. parse_map (seen_items pass.entry)
        (converted of_items (items (value depth) (length reader.old) reader.old))
        ≡ Some (elements_data es, reader.new)) }
    ensures err { is_later pass.entry ≡ true → result ≡ Err NoTree
        → converted of_items (items (value depth) (length reader.old) reader.old) ≡ None }
    ensures shorter { OnOk result (length reader.new < length reader.old) }
{
    let mut trees = TreeList::new(alloc);
    while !reader.take_end_array() {
        let tree = build_value(alloc, reader, depth, pass)?;
        trees.push(tree)?;
    }
    Ok(trees)
}

#[cycle(build)]
fn build_object(
    alloc: Global,
    reader: &mut Reader<'_>,
    depth: usize,
    pass: Pass<'_>,
) -> Result<TreeMap, BuildError>
    ensures ok { IfOk result
        (λ ms. parse_map (seen_members pass.entry)
        (converted (λ found. of_members found no_members)
        (members (value depth) (length reader.old) reader.old))
        ≡ Some (members_data ms, reader.new)) }
    ensures err { is_later pass.entry ≡ true → result ≡ Err NoTree
        → converted (λ found. of_members found no_members)
        (members (value depth) (length reader.old) reader.old) ≡ None }
    ensures shorter { OnOk result (length reader.new < length reader.old) }
{
    match pass {
        Pass::First => build_members(alloc, reader, depth),
        Pass::Again | Pass::Named(_) => {
            let members = sort_members(alloc, reader, depth, pass)?;
            Ok(sorted_map(alloc, members)?)
        }
    }
}

// The members that an object has at most for a name that comes out of order to be put in its place.
const FEW: usize = 64;

// Whether to put a member where it stands in the order takes little time.
fn is_quick(trees: &TreeMap, name: &str) -> bool {
    let members = trees.members();
    members.len() < FEW || is_behind(members, name)
}

#[cycle(build)]
fn build_members(
    alloc: Global,
    reader: &mut Reader<'_>,
    depth: usize,
) -> Result<TreeMap, BuildError>
    ensures ok { IfOk result
        (λ ms. converted (λ found. of_members found no_members)
        (members (value depth) (length reader.old) reader.old)
        ≡ Some (members_data ms, reader.new)) }
    ensures shorter { OnOk result (length reader.new < length reader.old) }
{
    let mut trees = TreeMap::new(alloc);
    while let Some(name) = reader.next_key()? {
        if !is_quick(&trees, name) {
            return Err(BuildError::NoTree);
        }
        let name = TextBox::make(alloc, name)?;
        let tree = build(alloc, reader, depth)?;
        trees.insert(name, tree)?;
    }
    Ok(trees)
}

// The members that a later pass sees of an object, whose names may come in any order.
#[cycle(build)]
fn sort_members(
    alloc: Global,
    reader: &mut Reader<'_>,
    depth: usize,
    pass: Pass<'_>,
) -> Result<BTreeMap<TextBox, Tree>, BuildError>
    ensures ok { IfOk result
        (λ ms. parse_map (seen_members pass.entry)
        (converted (λ found. of_members found no_members)
        (members (value depth) (length reader.old) reader.old))
        ≡ Some (members_data (members_of ms.entries), reader.new)) }
    ensures err { is_later pass.entry ≡ true → result ≡ Err NoTree
        → converted (λ found. of_members found no_members)
        (members (value depth) (length reader.old) reader.old) ≡ None }
    ensures shorter { OnOk result (length reader.new < length reader.old) }
{
    let mut found = BTreeMap::new(alloc);
    while let Some(name) = reader.next_key()? {
        match pass.of_member(name) {
            Some(inner) => {
                let name = TextBox::make(alloc, name)?;
                let tree = build_value(alloc, reader, depth, inner)?;
                put_sorted(&mut found, name, tree)?;
            }
            None => {
                judge(alloc, reader, depth)?;
            }
        }
    }
    Ok(found)
}

// Puts a tree under a name, in place of the one that is there.
fn put_sorted(
    members: &mut BTreeMap<TextBox, Tree>,
    name: TextBox,
    tree: Tree,
) -> Result<(), NoMemory>
    ensures { OnOk result
        (members_data (members_of members.new.entries)
        ≡ put name (data_of (tree_of tree)) (members_data (members_of members.old.entries))) }
{
    members.insert(name, tree)?;
    Ok(())
}

// The object of members that are sorted.
fn sorted_map(alloc: Global, members: BTreeMap<TextBox, Tree>) -> Result<TreeMap, NoMemory>
    ensures { IfOk result (λ map. members_data map ≡ members_data (members_of members.entries)) }
{
    let mut map = TreeMap::with_capacity(alloc, members.len())?;
    for (name, tree) in members {
        map.insert(name, tree)?;
    }
    Ok(map)
}
