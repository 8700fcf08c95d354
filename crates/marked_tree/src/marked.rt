// JSON trees whose members and elements may carry marks.
ghost use Rattle.std.specs.Prelude.{◌≡◌, ◌++◌, ◌<◌, ◌≤◌, length, OnOk, OnErr, IfOk, MatchResult, IsTrue, option_map};
ghost use Rattle.std.specs.Ordering.{nat_cmp};
ghost use Rattle.std.specs.Cmp.Lexicographic.{slice_cmp};
ghost use Rattle.claim_tree.specs.Tree.{IsBefore, IsOrdered, ElementsOrdered, MembersOrdered};
ghost use Rattle.sd_outside.specs.Lists.{StandsAt};
ghost use Rattle.marked_tree.specs.Marked.{strip, strip_elements, strip_members, no_marked_elements, no_marked_members, put};
ghost use Rattle.marked_tree.specs.MarkedCalls.{marked_elements_len, marked_members_len, marked_element_at, marked_member_at, marked_names, marked_pushed, marked_inserted, put_all};
ghost use Rattle.marked_tree.specs.NamePositions.{IsNameGap};
ghost use Rattle.marked_tree.specs.Steps.{marked_member_named};
ghost use Rattle.marked_tree.specs.View.{marked_of, marked_elements_of, marked_members_of};

use claim_tree::Whole;
use sd_outside::{NoMemory, TextBox};
use std::alloc::Global;
use std::cmp::Ordering;
use std::marker::Model;

/// A JSON value whose members and elements may carry a mark. Contracts see it by `marked_of`.
#[cycle(marked)]
#[derive(Debug, Drop)]
pub enum Marked {
    Null,
    Flag(bool),
    Whole(Whole),
    Text(TextBox),
    List(MarkedList),
    Object(MarkedMap),
}

/// The elements of an array, each with its mark. Contracts see the list of their marks and trees.
#[cycle(marked)]
#[derive(Debug, Drop)]
pub struct MarkedList {
    elements: Vec<(Option<u32>, Marked)>,
}

impl Model for MarkedList {
    ghost use Rattle.marked_tree.specs.Marked.{MarkedElements};

    ghost Value = { MarkedElements };

    ghost use Rattle.marked_tree.specs.Code.{marked_elements_code};

    ghost coded = { marked_elements_code };

    ghost use Rattle.claim_tree.specs.Tree.{ElementsOrdered};
    ghost use Rattle.claim_tree.specs.Nodes.{elements_size};
    ghost use Rattle.marked_tree.specs.Marked.{strip_elements};
    ghost use Rattle.marked_tree.specs.View.{marked_elements_of};

    ghost view = { λ l. marked_elements_of l.elements.items };

    ghost invariant = { λ l.
        ElementsOrdered (strip_elements (marked_elements_of l.elements.items)) };

    ghost size = { λ es. elements_size (strip_elements es) };

    ghost use Rattle.std.proofs.Common.{arith};
    ghost use Rattle.marked_tree.specs.Falls.{most-elements};

    ghost size_decreases = { λ l h. omega (arith, most-elements l.elements.items) };
}

/// The members of an object, each with its mark, ascending by the bytes of their names, each name
/// once. Contracts see them in this order.
#[cycle(marked)]
#[derive(Debug, Drop)]
pub struct MarkedMap {
    members: Vec<(TextBox, Option<u32>, Marked)>,
}

impl Model for MarkedMap {
    ghost use Rattle.marked_tree.specs.Marked.{MarkedMembers};

    ghost Value = { MarkedMembers };

    ghost use Rattle.marked_tree.specs.Code.{marked_members_code};

    ghost coded = { marked_members_code };

    ghost use Rattle.claim_tree.specs.Tree.{MembersOrdered};
    ghost use Rattle.claim_tree.specs.Nodes.{members_size};
    ghost use Rattle.marked_tree.specs.Marked.{strip_members};
    ghost use Rattle.marked_tree.specs.View.{marked_members_of};

    ghost view = { λ m. marked_members_of m.members.items };

    ghost invariant = { λ m. MembersOrdered (strip_members (marked_members_of m.members.items)) };

    ghost size = { λ ms. members_size (strip_members ms) };

    ghost use Rattle.std.proofs.Common.{arith};
    ghost use Rattle.marked_tree.specs.Falls.{most-members};

    ghost size_decreases = { λ m h. omega (arith, most-members m.members.items) };
}

impl Marked {
    // What every marked tree is, by the invariants of what it holds. It does
    // nothing, and is called for its clause.
    pub(crate) fn invariant(&self)
        ensures { IsOrdered (strip (marked_of self.now)) }
    {
        match self {
            Marked::List(list) => {
                let _ = list.elements();
            }
            Marked::Object(map) => {
                let _ = map.members();
            }
            _ => (),
        }
    }
}

impl MarkedList {
    /// No elements. It takes no memory.
    pub fn new(alloc: Global) -> MarkedList
        ensures { result ≡ no_marked_elements }
    {
        MarkedList {
            elements: Vec::new(alloc),
        }
    }

    /// No elements, with memory for so many.
    pub fn with_capacity(alloc: Global, count: usize) -> Result<MarkedList, NoMemory>
        ensures { IfOk result (λ list. list ≡ no_marked_elements) }
    {
        let elements = Vec::with_capacity(alloc, count)?;
        Ok(MarkedList { elements })
    }

    /// Adds an element at the end.
    pub fn push(&mut self, mark: Option<u32>, tree: Marked) -> Result<(), NoMemory>
        ensures ok { OnOk result (self.new ≡ marked_pushed self.old mark (marked_of tree)) }
        ensures err { OnErr result (self.new ≡ self.old) }
    {
        tree.invariant();
        self.elements.push((mark, tree))?;
        Ok(())
    }

    /// The elements, in their order.
    pub fn elements(&self) -> &[(Option<u32>, Marked)]
        ensures value { marked_elements_of result.now ≡ self.now }
        ensures ordered { ElementsOrdered (strip_elements self.now) }
    {
        self.elements.as_slice()
    }

    /// The elements, in their order, with no copy.
    pub fn into_elements(self) -> Vec<(Option<u32>, Marked)>
        ensures { marked_elements_of result.items ≡ self }
    {
        let MarkedList { elements } = self;
        elements
    }

    /// The number of elements.
    #[tactic(auto, using(crate::proofs::MarkedViews::looked_up))]
    pub fn len(&self) -> usize
        ensures { result ≡ marked_elements_len self.now }
    {
        self.elements().len()
    }

    /// The element at a position, counted from 0.
    #[tactic(auto, using(crate::proofs::MarkedViews::looked_up))]
    pub fn at(&self, i: usize) -> Option<(Option<u32>, &Marked)>
        ensures { option_map (λ e. (e.0, marked_of e.1.now)) result ≡ marked_element_at self.now i }
    {
        let (mark, tree) = self.elements().get(i)?;
        Some((*mark, tree))
    }
}

impl MarkedMap {
    /// No members. It takes no memory.
    pub fn new(alloc: Global) -> MarkedMap
        ensures { result ≡ no_marked_members }
    {
        MarkedMap {
            members: Vec::new(alloc),
        }
    }

    /// No members, with memory for so many.
    pub fn with_capacity(alloc: Global, count: usize) -> Result<MarkedMap, NoMemory>
        ensures { IfOk result (λ map. map ≡ no_marked_members) }
    {
        let members = Vec::with_capacity(alloc, count)?;
        Ok(MarkedMap { members })
    }

    /// The members, ascending by the bytes of their names.
    pub fn members(&self) -> &[(TextBox, Option<u32>, Marked)]
        ensures value { marked_members_of result.now ≡ self.now }
        ensures ordered { MembersOrdered (strip_members self.now) }
    {
        self.members.as_slice()
    }

    /// The members, ascending by the bytes of their names, with no copy.
    pub fn into_members(self) -> Vec<(TextBox, Option<u32>, Marked)>
        ensures value { marked_members_of result.items ≡ self }
        ensures ordered { MembersOrdered (strip_members self) }
    {
        let MarkedMap { members } = self;
        members
    }

    /// The number of members.
    #[tactic(auto, using(crate::proofs::MarkedViews::looked_up))]
    pub fn len(&self) -> usize
        ensures { result ≡ marked_members_len self.now }
    {
        self.members().len()
    }

    /// The member at a position, counted from 0 in ascending order.
    #[tactic(auto, using(crate::proofs::MarkedViews::looked_up))]
    pub fn entry_at(&self, i: usize) -> Option<(&TextBox, Option<u32>, &Marked)>
        ensures { option_map (λ m. (m.0.now, m.1, marked_of m.2.now)) result
            ≡ marked_member_at self.now i }
    {
        let (name, mark, tree) = self.members().get(i)?;
        Some((name, *mark, tree))
    }

    /// The mark and the tree under a name. It takes no memory.
    pub fn get(&self, name: &str) -> Option<(Option<u32>, &Marked)>
        ensures { option_map (λ e. (e.0, marked_of e.1.now)) result
            ≡ marked_member_named self.now name.now }
    {
        let members = self.members();
        match search(members, name) {
            Ok(position) => {
                let (_, mark, tree) = &members[position];
                Some((*mark, tree))
            }
            Err(_) => None,
        }
    }

    /// Puts a mark and a tree under a name, in place of those that are there. A name behind all
    /// others is not searched for, and moves no member.
    pub fn insert(&mut self, name: TextBox, mark: Option<u32>, tree: Marked) -> Result<(), NoMemory>
        ensures ok { OnOk result (self.new ≡ marked_inserted self.old name mark (marked_of tree)) }
        ensures err { OnErr result (self.new ≡ self.old) }
    {
        tree.invariant();
        set(&mut self.members, name, mark, tree)
    }

    /// Puts a mark and a tree under a name, unless it is there. A name behind all others is not
    /// searched for, and moves no member.
    pub fn put(&mut self, name: TextBox, mark: Option<u32>, tree: Marked) -> Result<(), NoMemory>
        ensures ok { OnOk result (self.new ≡ put name mark (marked_of tree) self.old) }
        ensures err { OnErr result (self.new ≡ self.old) }
    {
        tree.invariant();
        add(&mut self.members, name, mark, tree)
    }

    /// The members, and those that are added in any order, each put there in turn. Of n members it
    /// sorts them once, in n log n steps.
    pub fn with_all(
        self,
        alloc: Global,
        added: Vec<(TextBox, Option<u32>, Marked)>,
    ) -> Result<MarkedMap, NoMemory>
        ensures { IfOk result (λ map. map ≡ put_all (marked_members_of added.items) self) }
    {
        let MarkedMap { members } = self;
        let mut all = joined(members, added)?;
        sort_by_name(&mut all)?;
        if are_ascending(&all) {
            return Ok(MarkedMap { members: all });
        }
        of_members(alloc, all)
    }
}

// The first members, and the second behind them.
fn joined(
    mut first: Vec<(TextBox, Option<u32>, Marked)>,
    mut second: Vec<(TextBox, Option<u32>, Marked)>,
) -> Result<Vec<(TextBox, Option<u32>, Marked)>, NoMemory>
    ensures { IfOk result (λ all. all.items ≡ first.items ++ second.items) }
{
    if first.is_empty() {
        return Ok(second);
    }
    first.append(&mut second)?;
    Ok(first)
}

// Whether each name is before the next, so that the members are a map as they stand.
fn are_ascending(members: &[(TextBox, Option<u32>, Marked)]) -> bool
    ensures { IsTrue result → MembersOrdered (strip_members (marked_members_of members.now)) }
{
    let mut from = members.len();
    while from > 0 {
        let (_, _, tree) = &members[from - 1];
        tree.invariant();
        if from < members.len() && !is_before(&members[from - 1], &members[from]) {
            return false;
        }
        from -= 1;
    }
    true
}

// The members, each put there in turn.
fn of_members(
    alloc: Global,
    members: Vec<(TextBox, Option<u32>, Marked)>,
) -> Result<MarkedMap, NoMemory>
    ensures { IfOk result
        (λ map. map ≡ put_all (marked_members_of members.items) no_marked_members) }
{
    let mut map = MarkedMap {
        members: Vec::with_capacity(alloc, members.len())?,
    };
    for (name, mark, tree) in members {
        map.put(name, mark, tree)?;
    }
    Ok(map)
}

// How the name of a member compares with another.
fn compared(member: &(TextBox, Option<u32>, Marked), name: &str) -> Ordering
    ensures { result ≡ slice_cmp nat_cmp member.now.0 name.now }
{
    member.0.as_str().cmp(name)
}

// Whether the name of a member is before that of another.
fn is_before(
    member: &(TextBox, Option<u32>, Marked),
    other: &(TextBox, Option<u32>, Marked),
) -> bool
    ensures { IsTrue result → IsBefore member.now.0 other.now.0 }
{
    compared(member, other.0.as_str()) == Ordering::Less
}

// Members of one name keep their order.
fn sort_by_name(members: &mut Vec<(TextBox, Option<u32>, Marked)>) -> Result<(), NoMemory>
    ensures { OnOk result
        (put_all (marked_members_of members.new.items) no_marked_members
        ≡ put_all (marked_members_of members.old.items) no_marked_members) }
{
    members.sort_by(|one, other| compared(one, other.0.as_str()))?;
    Ok(())
}

// Where the name stands among ascending members, or where it would go.
fn search(members: &[(TextBox, Option<u32>, Marked)], name: &str) -> Result<usize, usize>
    requires { MembersOrdered (strip_members (marked_members_of members.now)) }
    ensures within { MatchResult result (λ i. i < length members.now)
        (λ i. i ≤ length members.now) }
    ensures place { MatchResult result
        (λ i. StandsAt (marked_names (marked_members_of members.now)) i name.now)
        (IsNameGap (marked_names (marked_members_of members.now)) name.now) }
{
    members.binary_search_by(|member| compared(member, name))
}

// The same as `search`, by one comparison where the name comes after all others.
fn search_from_end(members: &[(TextBox, Option<u32>, Marked)], name: &str) -> Result<usize, usize>
    requires { MembersOrdered (strip_members (marked_members_of members.now)) }
    ensures within { MatchResult result (λ i. i < length members.now)
        (λ i. i ≤ length members.now) }
    ensures place { MatchResult result
        (λ i. StandsAt (marked_names (marked_members_of members.now)) i name.now)
        (IsNameGap (marked_names (marked_members_of members.now)) name.now) }
{
    match members.last() {
        Some(last) if compared(last, name) == Ordering::Less => Err(members.len()),
        _ => search(members, name),
    }
}

fn set(
    members: &mut Vec<(TextBox, Option<u32>, Marked)>,
    name: TextBox,
    mark: Option<u32>,
    tree: Marked,
) -> Result<(), NoMemory>
    requires members { MembersOrdered (strip_members (marked_members_of members.old.items)) }
    requires tree { IsOrdered (strip (marked_of tree)) }
    ensures ok { OnOk result
        (marked_members_of members.new.items
        ≡ marked_inserted (marked_members_of members.old.items) name mark (marked_of tree)) }
    ensures ordered { MembersOrdered (strip_members (marked_members_of members.new.items)) }
    ensures err { OnErr result
        (marked_members_of members.new.items ≡ marked_members_of members.old.items) }
{
    match search_from_end(members.as_slice(), name.as_str()) {
        Ok(position) => members[position] = (name, mark, tree),
        Err(position) => members.insert(position, (name, mark, tree))?,
    }
    Ok(())
}

fn add(
    members: &mut Vec<(TextBox, Option<u32>, Marked)>,
    name: TextBox,
    mark: Option<u32>,
    tree: Marked,
) -> Result<(), NoMemory>
    requires members { MembersOrdered (strip_members (marked_members_of members.old.items)) }
    requires tree { IsOrdered (strip (marked_of tree)) }
    ensures ok { OnOk result
        (marked_members_of members.new.items
        ≡ put name mark (marked_of tree) (marked_members_of members.old.items)) }
    ensures ordered { MembersOrdered (strip_members (marked_members_of members.new.items)) }
    ensures err { OnErr result
        (marked_members_of members.new.items ≡ marked_members_of members.old.items) }
{
    if let Err(position) = search_from_end(members.as_slice(), name.as_str()) {
        members.insert(position, (name, mark, tree))?;
    }
    Ok(())
}
