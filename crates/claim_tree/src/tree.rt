// JSON values without floats, which own their texts.
ghost use Rattle.std.specs.Prelude.{◌≡◌, length, OnOk, OnErr, IfOk, MatchResult, IsTrue, option_map};
ghost use Rattle.std.specs.Ordering.{nat_cmp};
ghost use Rattle.std.specs.Cmp.Lexicographic.{slice_cmp};
ghost use Rattle.claim_tree.specs.Tree.{text_of, no_elements, no_members, elements_len, members_len, element_at, member_named, inserted, IsOrdered, ElementsOrdered, MembersOrdered, IsRanged, ElementsRanged, MembersRanged};
ghost use Rattle.claim_tree.specs.TreeCalls.{member_at, pushed};
ghost use Rattle.claim_tree.specs.Removed.{removed};
ghost use Rattle.claim_tree.specs.View.{tree_of};
ghost use Rattle.claim_tree.specs.ListViews.{elements_of, members_of};
ghost use Rattle.claim_tree.specs.MemberPositions.{IsPosition, IsGap};

use crate::Whole;
use sd_outside::{NoMemory, TextBox};
use std::alloc::Global;
use std::cmp::Ordering;
use std::marker::Model;

/// A JSON value whose numbers are whole (RFC 8259). Contracts see it by `tree_of`.
#[cycle(tree)]
#[derive(Debug, Drop)]
pub enum Tree {
    Null,
    Flag(bool),
    Whole(Whole),
    Text(TextBox),
    List(TreeList),
    Object(TreeMap),
}

/// The elements of an array. Contracts see the list of their trees.
#[cycle(tree)]
#[derive(Debug, Drop)]
pub struct TreeList {
    trees: Vec<Tree>,
}

impl Model for TreeList {
    ghost use Rattle.claim_tree.specs.Tree.{Elements};

    ghost Value = { Elements };

    ghost use Rattle.claim_tree.specs.Code.{elements_code};

    ghost coded = { elements_code };

    ghost use Rattle.claim_tree.specs.Tree.{ElementsOrdered, ElementsRanged};
    ghost use Rattle.claim_tree.specs.Nodes.{elements_size};
    ghost use Rattle.claim_tree.specs.ListViews.{elements_of};

    ghost view = { λ l. elements_of l.trees.items };

    ghost invariant = { λ l.
        ElementsOrdered (elements_of l.trees.items) × ElementsRanged (elements_of l.trees.items) };

    ghost size = { elements_size };

    ghost use Rattle.std.proofs.Common.{arith};
    ghost use Rattle.claim_tree.specs.Falls.{most-elements};

    ghost size_decreases = { λ l h. omega (arith, most-elements l.trees.items) };
}

/// The members of an object, ascending by the bytes of their names, each name
/// once. Contracts see them in this order.
#[cycle(tree)]
#[derive(Debug, Drop)]
pub struct TreeMap {
    members: Vec<(TextBox, Tree)>,
}

impl Model for TreeMap {
    ghost use Rattle.claim_tree.specs.Tree.{Members};

    ghost Value = { Members };

    ghost use Rattle.claim_tree.specs.Code.{members_code};

    ghost coded = { members_code };

    ghost use Rattle.claim_tree.specs.Tree.{MembersOrdered, MembersRanged};
    ghost use Rattle.claim_tree.specs.Nodes.{members_size};
    ghost use Rattle.claim_tree.specs.ListViews.{members_of};

    ghost view = { λ m. members_of m.members.items };

    ghost invariant = { λ m.
        MembersOrdered (members_of m.members.items) × MembersRanged (members_of m.members.items) };

    ghost size = { members_size };

    ghost use Rattle.std.proofs.Common.{arith};
    ghost use Rattle.claim_tree.specs.Falls.{most-members};

    ghost size_decreases = { λ m h. omega (arith, most-members m.members.items) };
}

impl Tree {
    /// What every tree is, by the invariants of what it holds. It does nothing,
    /// and is called for its clauses.
    pub fn invariant(&self)
        ensures ordered { IsOrdered (tree_of self.now) }
        ensures ranged { IsRanged (tree_of self.now) }
    {
        match self {
            Tree::Whole(whole) => {
                let _ = whole.get();
            }
            Tree::List(list) => {
                let _ = list.trees();
            }
            Tree::Object(map) => {
                let _ = map.members();
            }
            _ => (),
        }
    }

    /// The text, where the value is a text.
    pub fn as_text(&self) -> Option<&TextBox>
        ensures { option_map (λ s. s.now) result ≡ text_of (tree_of self.now) }
    {
        match self {
            Tree::Text(text) => Some(text),
            _ => None,
        }
    }
}

impl TreeList {
    /// No elements. It takes no memory.
    pub fn new(alloc: Global) -> TreeList
        ensures { result ≡ no_elements }
    {
        TreeList {
            trees: Vec::new(alloc),
        }
    }

    /// No elements, with memory for so many.
    pub fn with_capacity(alloc: Global, count: usize) -> Result<TreeList, NoMemory>
        ensures { IfOk result (λ list. list ≡ no_elements) }
    {
        let trees = Vec::with_capacity(alloc, count)?;
        Ok(TreeList { trees })
    }

    /// Adds a tree at the end.
    pub fn push(&mut self, tree: Tree) -> Result<(), NoMemory>
        ensures ok { OnOk result (self.new ≡ pushed self.old (tree_of tree)) }
        ensures err { OnErr result (self.new ≡ self.old) }
    {
        tree.invariant();
        make_room(&mut self.trees)?;
        self.trees.push(tree)?;
        Ok(())
    }

    /// The trees, in their order.
    pub fn trees(&self) -> &[Tree]
        ensures value { elements_of result.now ≡ self.now }
        ensures ordered { ElementsOrdered self.now }
        ensures ranged { ElementsRanged self.now }
    {
        self.trees.as_slice()
    }

    /// The trees, in their order, with no copy.
    pub fn into_trees(self) -> Vec<Tree>
        ensures { elements_of result.items ≡ self }
    {
        let TreeList { trees } = self;
        trees
    }

    /// The number of elements.
    #[tactic(auto, using(crate::proofs::Views::looked_up))]
    pub fn len(&self) -> usize
        ensures { result ≡ elements_len self.now }
    {
        self.trees().len()
    }

    /// The tree at a position, counted from 0.
    #[tactic(auto, using(crate::proofs::Views::looked_up))]
    pub fn at(&self, i: usize) -> Option<&Tree>
        ensures { option_map (λ t. tree_of t.now) result ≡ element_at self.now i }
    {
        self.trees().get(i)
    }
}

impl TreeMap {
    /// No members. It takes no memory.
    pub fn new(alloc: Global) -> TreeMap
        ensures { result ≡ no_members }
    {
        TreeMap {
            members: Vec::new(alloc),
        }
    }

    /// No members, with memory for so many.
    pub fn with_capacity(alloc: Global, count: usize) -> Result<TreeMap, NoMemory>
        ensures { IfOk result (λ map. map ≡ no_members) }
    {
        let members = Vec::with_capacity(alloc, count)?;
        Ok(TreeMap { members })
    }

    /// The members, ascending by the bytes of their names.
    pub fn members(&self) -> &[(TextBox, Tree)]
        ensures value { members_of result.now ≡ self.now }
        ensures ordered { MembersOrdered self.now }
        ensures ranged { MembersRanged self.now }
    {
        self.members.as_slice()
    }

    /// The members, ascending by the bytes of their names, with no copy.
    pub fn into_members(self) -> Vec<(TextBox, Tree)>
        ensures value { members_of result.items ≡ self }
        ensures ordered { MembersOrdered self }
    {
        let TreeMap { members } = self;
        members
    }

    /// The number of members.
    #[tactic(auto, using(crate::proofs::Views::looked_up))]
    pub fn len(&self) -> usize
        ensures { result ≡ members_len self.now }
    {
        self.members().len()
    }

    /// The tree under a name. It takes no memory.
    #[tactic(auto, using(crate::proofs::MapPlaces::named_at))]
    pub fn get(&self, name: &str) -> Option<&Tree>
        ensures { option_map (λ t. tree_of t.now) result ≡ member_named self.now name.now }
    {
        let members = self.members();
        match search(members, name) {
            Ok(position) => Some(&members[position].1),
            Err(_) => None,
        }
    }

    /// The member at a position, counted from 0 in ascending order.
    #[tactic(auto, using(crate::proofs::Views::looked_up))]
    pub fn entry_at(&self, i: usize) -> Option<(&TextBox, &Tree)>
        ensures { option_map (λ m. (m.0.now, tree_of m.1.now)) result ≡ member_at self.now i }
    {
        let (name, tree) = self.members().get(i)?;
        Some((name, tree))
    }

    /// Puts a tree under a name, in place of the one that is there. A name behind all others costs
    /// one comparison and moves no member.
    pub fn insert(&mut self, name: TextBox, tree: Tree) -> Result<(), NoMemory>
        ensures ok { OnOk result (self.new ≡ inserted self.old name (tree_of tree)) }
        ensures err { OnErr result (self.new ≡ self.old) }
    {
        tree.invariant();
        put(&mut self.members, name, tree)
    }

    /// Takes out the tree under a name. Those behind it move up; nothing is copied.
    pub fn remove(&mut self, name: &str) -> Option<Tree>
        ensures tree { option_map tree_of result ≡ member_named self.old name.now }
        ensures others { self.new ≡ removed self.old name.now }
    {
        take(&mut self.members, name)
    }
}

// How the name of a member compares with another.
fn compared(member: &(TextBox, Tree), name: &str) -> Ordering
    ensures { result ≡ slice_cmp nat_cmp member.now.0 name.now }
{
    member.0.as_str().cmp(name)
}

// Where the name stands among ascending members, or where it would go.
fn search(members: &[(TextBox, Tree)], name: &str) -> Result<usize, usize>
    requires { MembersOrdered (members_of members.now) }
    ensures { MatchResult result (IsPosition members.now name.now) (IsGap members.now name.now) }
{
    members.binary_search_by(|member| compared(member, name))
}

// Whether the name comes after all others.
pub(crate) fn is_behind(members: &[(TextBox, Tree)], name: &str) -> bool
    requires { MembersOrdered (members_of members.now) }
    ensures { IsTrue result → IsGap members.now name.now (length members.now) }
{
    match members.last() {
        None => true,
        Some(last) => compared(last, name).is_lt(),
    }
}

// The same as `search`, by one comparison where the name comes after all others.
fn search_from_end(members: &[(TextBox, Tree)], name: &str) -> Result<usize, usize>
    requires { MembersOrdered (members_of members.now) }
    ensures { MatchResult result (IsPosition members.now name.now) (IsGap members.now name.now) }
{
    if is_behind(members, name) {
        Err(members.len())
    } else {
        search(members, name)
    }
}

// Makes room for one more where there is none: for a first one alone, then for as many as there
// are. So what holds one or none, as most that nest deep, takes no more memory than it needs.
fn make_room<T>(items: &mut Vec<T>) -> Result<(), NoMemory>
    ensures { items.new.items ≡ items.old.items }
{
    let count = items.len();
    if count == items.capacity() {
        items.reserve_exact(count.max(1))?;
    }
    Ok(())
}

fn put(members: &mut Vec<(TextBox, Tree)>, name: TextBox, tree: Tree) -> Result<(), NoMemory>
    requires members { MembersOrdered (members_of members.old.items) }
    requires members_range { MembersRanged (members_of members.old.items) }
    requires tree { IsOrdered (tree_of tree) }
    requires tree_range { IsRanged (tree_of tree) }
    ensures ok { OnOk result
        (members_of members.new.items
        ≡ inserted (members_of members.old.items) name (tree_of tree)) }
    ensures ordered { MembersOrdered (members_of members.new.items) }
    ensures ranged { MembersRanged (members_of members.new.items) }
    ensures err { OnErr result (members_of members.new.items ≡ members_of members.old.items) }
{
    match search_from_end(members.as_slice(), name.as_str()) {
        Ok(position) => members[position] = (name, tree),
        Err(position) => {
            make_room(members)?;
            members.insert(position, (name, tree))?;
        }
    }
    Ok(())
}

fn take(members: &mut Vec<(TextBox, Tree)>, name: &str) -> Option<Tree>
    requires ordered { MembersOrdered (members_of members.old.items) }
    requires ranged { MembersRanged (members_of members.old.items) }
    ensures tree { option_map tree_of result
        ≡ member_named (members_of members.old.items) name.now }
    ensures others { members_of members.new.items
        ≡ removed (members_of members.old.items) name.now }
    ensures ordered { MembersOrdered (members_of members.new.items) }
    ensures ranged { MembersRanged (members_of members.new.items) }
{
    match search(members.as_slice(), name) {
        Ok(position) => {
            let (_, tree) = members.remove(position);
            Some(tree)
        }
        Err(_) => None,
    }
}
