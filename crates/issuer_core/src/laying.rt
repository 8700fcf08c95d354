// The walk that hides, RFC 9901 section 4.2.4.
ghost use Rattle.std.specs.Prelude.{◌≡◌, ◌+◌, ◌≤◌, ◌<◌, List, [], ◌∷◌, ◌++◌, length, map, drop, option_map, IfOk, OnOk, IsTrue};
ghost use Rattle.claim_tree.specs.TreeValues.{text_elements};
ghost use Rattle.sd_outside.specs.Limits.{count_max, depth_max};
ghost use Rattle.claim_tree.specs.Tree.{Text, depth, elements_depth, members_depth};
ghost use Rattle.claim_tree.specs.View.{tree_of};
ghost use Rattle.disclosure.specs.Digest.{digest_of};
ghost use Rattle.marked_tree.specs.Marked.{strip, strip_elements, strip_members};
ghost use Rattle.marked_tree.specs.Ways.{weight, elements_weight, members_weight, mark_weight};
ghost use Rattle.marked_tree.specs.Paths.{Path as Steps, is_among};
ghost use Rattle.marked_tree.specs.View.{marked_of};
ghost use Rattle.issuer_core.specs.Order.{order_of};
ghost use Rattle.issuer_core.specs.Decoys.{decoy_paths};
ghost use Rattle.issuer_core.specs.Seed.{maker_of};
ghost use Rattle.issuer_core.specs.Laid as spec;
ghost use Rattle.issuer_core.specs.Laid.{sorted, with_sd, digest_elements, hidden_digests, laid_given, laid_elements, laid_members, own_given, lay_elements, lay_members};
ghost use Rattle.issuer_core.specs.Digests.{made_texts};
ghost use Rattle.issuer_core.specs.Laying.{salted, elements_joined, ArePlaced, ForAllDigests, HasDigests, Discloses, IsLaidNode, IsLaidWith, IsLaidFor, members_with, hidden_with};
ghost use Rattle.issuer_core.specs.Closing.{one, HasNumber, ClosesFrom, ElementsClose, MembersClose};

use crate::decoys::{Decoys, sort_decoys};
use crate::salts::salts_of;
use crate::{DecoyList, Order, decoy_count};
use claim_tree::{PathList, Tree, TreeList, TreeMap};
use compact_form::COUNT_MAX;
use disclosure::{HashAlg, digest, make_text};
use marked_tree::{Marked, MarkedList, MarkedMap, mark_counted};
use sd_outside::{NoMemory, TextBox, TextList};
use std::alloc::Global;

// An order with all that it hides behind digests.
#[derive(Debug, Drop)]
pub(crate) struct Laid {
    // With its `_sd_alg`.
    pub(crate) payload: Tree,
    // Those of the disclosures, in closing order.
    pub(crate) texts: TextList,
    // Those of the disclosures, and then of the decoys.
    pub(crate) digests: TextList,
}

// The texts of the disclosures so far, in closing order, and their digests.
#[derive(Debug, Drop)]
struct Layer {
    texts: TextList,
    digests: TextList,
}

// By what parts are hidden: the salts of their disclosures, and the hash of the digests.
#[derive(Clone, Copy, Debug)]
struct Hiding<'a> {
    salts: &'a TextList,
    hash: HashAlg,
}

// A member or an element: laid, or the digest of its disclosure.
#[derive(Debug, Drop)]
enum LaidNode {
    Shown(Tree),
    Hidden(TextBox),
}

impl Layer {
    fn new(alloc: Global) -> Layer
        ensures texts { result.texts ≡ [] }
        ensures digests { result.digests ≡ [] }
    {
        Layer {
            texts: TextList::new(alloc),
            digests: TextList::new(alloc),
        }
    }

    // Makes the next disclosure, and answers its digest.
    fn disclose(
        &mut self,
        alloc: Global,
        hiding: Hiding<'_>,
        name: Option<&str>,
        value: Tree,
    ) -> Result<TextBox, NoMemory>
        requires salts { length self.old.texts < length hiding.salts.now }
        requires depth { depth (tree_of value) ≤ 126 }
        requires digests { HasDigests hiding.hash self.old }
        ensures text { OnOk result
            (self.new.texts
            ≡ self.old.texts
            ++ salted hiding.entry.salts.now (length self.old.texts)
            (option_map (λ n. n.now) name.entry) (tree_of value) ∷ []) }
        ensures digest { IfOk result
            (λ digest. digest
            ≡ digest_of hiding.entry.hash
            (salted hiding.entry.salts.now (length self.old.texts)
            (option_map (λ n. n.now) name.entry) (tree_of value))) }
        ensures digests { OnOk result (HasDigests hiding.entry.hash self.new) }
    {
        let Some(salt) = hiding.salts.at(self.texts.len()) else {
            unreachable!();
        };
        let text = make_text(alloc, salt.as_str(), name, &value)?;
        let made = digest(alloc, hiding.hash, text.as_str())?;
        self.texts.push(text)?;
        self.digests.push(TextBox::make(alloc, made.as_str())?)?;
        Ok(made)
    }
}

// What stands for a hidden element, section 4.2.4.2.
fn digest_object(alloc: Global, digest: TextBox) -> Result<Tree, NoMemory>
    ensures { IfOk result (λ object. tree_of object ≡ spec.digest_object digest) }
{
    let mut object = TreeMap::with_capacity(alloc, 1)?;
    object.insert(TextBox::make(alloc, "...")?, Tree::Text(digest))?;
    Ok(Tree::Object(object))
}

fn push_decoys(alloc: Global, laid: &mut TreeList, digests: &[TextBox]) -> Result<(), NoMemory>
    ensures { OnOk result (laid.new ≡ elements_joined laid.old (digest_elements digests.now)) }
{
    for digest in digests {
        let digest = TextBox::make(alloc, digest.as_str())?;
        laid.push(digest_object(alloc, digest)?)?;
    }
    Ok(())
}

fn push_copies(
    alloc: Global,
    digests: &mut Vec<TextBox>,
    decoys: &[TextBox],
) -> Result<(), NoMemory>
    ensures { OnOk result (digests.new.items ≡ digests.old.items ++ decoys.now) }
{
    for decoy in decoys {
        digests.push(TextBox::make(alloc, decoy.as_str())?)?;
    }
    Ok(())
}

fn texts_list(alloc: Global, texts: Vec<TextBox>) -> Result<TreeList, NoMemory>
    ensures { IfOk result (λ list. list ≡ text_elements texts.items) }
{
    let mut list = TreeList::with_capacity(alloc, texts.len())?;
    for text in texts {
        list.push(Tree::Text(text))?;
    }
    Ok(list)
}

fn sort_digests(digests: &mut Vec<TextBox>) -> Result<(), NoMemory>
    ensures { OnOk result (digests.new.items ≡ sorted digests.old.items) }
{
    digests.sort()?;
    Ok(())
}

// Puts the member `_sd`, section 4.2.4.1, where it has a digest.
fn put_sd(alloc: Global, laid: &mut TreeMap, mut digests: Vec<TextBox>) -> Result<(), NoMemory>
    ensures { OnOk result (laid.new ≡ with_sd (sorted digests.items) laid.old) }
{
    if digests.is_empty() {
        return Ok(());
    }
    sort_digests(&mut digests)?;
    let list = texts_list(alloc, digests)?;
    laid.insert(TextBox::make(alloc, "_sd")?, Tree::List(list))
}

// Puts the next part of an object: a member that is shown, or the digest of a hidden one.
fn put_part(
    laid: &mut TreeMap,
    digests: &mut Vec<TextBox>,
    name: TextBox,
    part: LaidNode,
) -> Result<(), NoMemory>
    ensures members { OnOk result (laid.new ≡ members_with laid.old name part) }
    ensures digests { OnOk result (digests.new.items ≡ hidden_with digests.old.items part) }
{
    match part {
        LaidNode::Shown(tree) => laid.insert(name, tree)?,
        LaidNode::Hidden(digest) => digests.push(digest)?,
    }
    Ok(())
}

// The tree with its marked parts behind digests. The disclosure of a marked
// part is made after those inside it.
#[cycle(lay)]
fn lay(
    alloc: Global,
    tree: Marked,
    decoys: Decoys<'_>,
    hiding: Hiding<'_>,
    layer: &mut Layer,
) -> Result<Tree, NoMemory>
    requires depth { decoys.depth + depth (strip (marked_of tree)) ≤ 125 }
    requires decoys { ArePlaced decoys }
    requires closes { ClosesFrom (length layer.old.texts) (marked_of tree) }
    requires salts { length layer.old.texts + weight one (marked_of tree)
        ≤ length hiding.salts.now }
    requires digests { HasDigests hiding.hash layer.old }
    ensures laid { IfOk result
        (λ laid. ForAllDigests decoys.entry hiding.entry.hash layer.new.texts
        (λ dec dg. tree_of laid ≡ spec.lay dec dg (marked_of tree))) }
    ensures texts { OnOk result
        (Discloses hiding.entry decoys.entry layer.old layer.new
        (λ dec dg. laid_given dec dg (marked_of tree))) }
    ensures count { OnOk result
        (length layer.new.texts ≡ length layer.old.texts + weight one (marked_of tree)) }
    ensures digests { OnOk result (HasDigests hiding.entry.hash layer.new) }
{
    match tree {
        Marked::Null => Ok(Tree::Null),
        Marked::Flag(flag) => Ok(Tree::Flag(flag)),
        Marked::Whole(n) => Ok(Tree::Whole(n)),
        Marked::Text(text) => Ok(Tree::Text(text)),
        Marked::List(list) => Ok(Tree::List(lay_list(alloc, list, decoys, hiding, layer)?)),
        Marked::Object(map) => Ok(Tree::Object(lay_map(alloc, map, decoys, hiding, layer)?)),
    }
}

#[cycle(lay)]
fn lay_list(
    alloc: Global,
    list: MarkedList,
    decoys: Decoys<'_>,
    hiding: Hiding<'_>,
    layer: &mut Layer,
) -> Result<TreeList, NoMemory>
    requires depth { decoys.depth + elements_depth (strip_elements list) ≤ 124 }
    requires decoys { ArePlaced decoys }
    requires closes { ElementsClose (length layer.old.texts) list }
    requires salts { length layer.old.texts + elements_weight one list ≤ length hiding.salts.now }
    requires digests { HasDigests hiding.hash layer.old }
    ensures laid { IfOk result
        (λ laid. ForAllDigests decoys.entry hiding.entry.hash layer.new.texts
        (λ dec dg. laid ≡ lay_elements dec dg 0 list)) }
    ensures texts { OnOk result
        (Discloses hiding.entry decoys.entry layer.old layer.new
        (λ dec dg. laid_elements dec dg 0 list)) }
    ensures count { OnOk result
        (length layer.new.texts ≡ length layer.old.texts + elements_weight one list) }
    ensures digests { OnOk result (HasDigests hiding.entry.hash layer.new) }
{
    let own = decoys.here();
    let count = list.len();
    let mut laid = TreeList::with_capacity(alloc, count.saturating_add(own.len()))?;
    for (mark, tree) in list.into_elements() {
        let below = decoys.below_element(laid.len());
        let tree = match lay_node(alloc, None, mark, tree, below, hiding, layer)? {
            LaidNode::Shown(tree) => tree,
            LaidNode::Hidden(digest) => digest_object(alloc, digest)?,
        };
        laid.push(tree)?;
    }
    push_decoys(alloc, &mut laid, own)?;
    Ok(laid)
}

#[cycle(lay)]
fn lay_map(
    alloc: Global,
    members: MarkedMap,
    decoys: Decoys<'_>,
    hiding: Hiding<'_>,
    layer: &mut Layer,
) -> Result<TreeMap, NoMemory>
    requires depth { decoys.depth + members_depth (strip_members members) ≤ 124 }
    requires decoys { ArePlaced decoys }
    requires closes { MembersClose (length layer.old.texts) members }
    requires salts { length layer.old.texts + members_weight one members ≤ length hiding.salts.now }
    requires digests { HasDigests hiding.hash layer.old }
    ensures laid { IfOk result
        (λ laid. ForAllDigests decoys.entry hiding.entry.hash layer.new.texts
        (λ dec dg. laid
        ≡ with_sd (sorted (hidden_digests dg members ++ dec []))
        (lay_members dec dg members))) }
    ensures texts { OnOk result
        (Discloses hiding.entry decoys.entry layer.old layer.new
        (λ dec dg. laid_members dec dg members)) }
    ensures count { OnOk result
        (length layer.new.texts ≡ length layer.old.texts + members_weight one members) }
    ensures digests { OnOk result (HasDigests hiding.entry.hash layer.new) }
{
    let mut laid = TreeMap::new(alloc);
    let mut digests = Vec::new(alloc);
    for (name, mark, tree) in members.into_members() {
        let below = decoys.below(name.as_str());
        let part = lay_node(alloc, Some(name.as_str()), mark, tree, below, hiding, layer)?;
        put_part(&mut laid, &mut digests, name, part)?;
    }
    push_copies(alloc, &mut digests, decoys.here())?;
    put_sd(alloc, &mut laid, digests)?;
    Ok(laid)
}

// A member or an element with its mark, where its own decoys are told.
#[cycle(lay)]
fn lay_node(
    alloc: Global,
    name: Option<&str>,
    mark: Option<u32>,
    tree: Marked,
    decoys: Decoys<'_>,
    hiding: Hiding<'_>,
    layer: &mut Layer,
) -> Result<LaidNode, NoMemory>
    requires depth { decoys.depth + depth (strip (marked_of tree)) ≤ 125 }
    requires decoys { ArePlaced decoys }
    requires closes { ClosesFrom (length layer.old.texts) (marked_of tree) }
    requires numbered { HasNumber mark (length layer.old.texts + weight one (marked_of tree)) }
    requires salts { length layer.old.texts + (mark_weight one mark + weight one (marked_of tree))
        ≤ length hiding.salts.now }
    requires digests { HasDigests hiding.hash layer.old }
    ensures part { IfOk result
        (λ part. ForAllDigests decoys.entry hiding.entry.hash layer.new.texts
        (λ dec dg. IsLaidNode dec dg mark (marked_of tree) part)) }
    ensures texts { OnOk result
        (Discloses hiding.entry decoys.entry layer.old layer.new
        (λ dec dg. laid_given dec dg (marked_of tree)
        ++ own_given dg (option_map (λ n. n.now) name.entry) mark
        (spec.lay dec dg (marked_of tree)))) }
    ensures count { OnOk result
        (length layer.new.texts
        ≡ length layer.old.texts + (mark_weight one mark + weight one (marked_of tree))) }
    ensures digests { OnOk result (HasDigests hiding.entry.hash layer.new) }
{
    let inside = lay(alloc, tree, decoys, hiding, layer)?;
    match mark {
        None => Ok(LaidNode::Shown(inside)),
        Some(_) => Ok(LaidNode::Hidden(layer.disclose(alloc, hiding, name, inside)?)),
    }
}

// The digests of the salts from `first` on.
fn decoy_digests(alloc: Global, hiding: Hiding<'_>, first: usize) -> Result<TextList, NoMemory>
    requires { first ≤ length hiding.salts.now }
    ensures { IfOk result
        (λ digests.
        digests ≡ map (digest_of hiding.entry.hash) (drop first hiding.entry.salts.now)) }
{
    let Hiding { salts, hash } = hiding;
    let mut digests = TextList::new(alloc);
    for k in first..salts.len() {
        let Some(salt) = salts.at(k) else {
            unreachable!();
        };
        digests.push(digest(alloc, hash, salt.as_str())?)?;
    }
    Ok(digests)
}

// Names the hash of the digests, section 4.1.1.
fn with_alg(alloc: Global, hash: HashAlg, payload: Tree) -> Result<Tree, NoMemory>
    ensures { IfOk result (λ named. tree_of named ≡ spec.with_alg hash (tree_of payload)) }
{
    match payload {
        Tree::Object(mut members) => {
            let name = TextBox::make(alloc, "_sd_alg")?;
            members.insert(name, Tree::Text(TextBox::make(alloc, hash.name())?))?;
            Ok(Tree::Object(members))
        }
        other => Ok(other),
    }
}

// Moves the others behind the texts.
fn push_texts(texts: &mut TextList, others: TextList) -> Result<(), NoMemory>
    ensures { OnOk result (texts.new ≡ texts.old ++ others) }
{
    for text in others.into_elements() {
        texts.push(text)?;
    }
    Ok(())
}

// Lays an order whose hidden places are told once more, each once, with the
// salts of a seed. Its texts are moved.
pub(crate) fn lay_order(
    alloc: Global,
    order: Order,
    places: PathList,
    seed: &[u8; 32],
) -> Result<Laid, NoMemory>
    requires shallow { depth (order_of order).payload ≤ depth_max }
    requires same { (path : Steps) → is_among places path ≡ is_among order.hide path }
    requires few { length places ≤ count_max }
    requires decoys { length (decoy_paths order.decoys) ≤ count_max }
    ensures laid { IfOk result
        (λ laid. IsLaidFor (maker_of seed.now) (order_of order) (tree_of laid.payload) laid.texts
        laid.digests) }
    ensures few { IfOk result (λ laid. length laid.texts ≤ count_max) }
{
    if hides_nothing(&order) {
        return lay_unhidden(alloc, order.hash, order.payload);
    }
    lay_by_seed(alloc, order, places, seed)
}

// Whether it hides nothing and has no decoys.
fn hides_nothing(order: &Order) -> bool
    ensures hide { IsTrue result → order.now.hide ≡ [] }
    ensures decoys { IsTrue result → order.now.decoys ≡ [] }
{
    order.hide.elements().is_empty() && order.decoys.elements().is_empty()
}

// A payload of which nothing is hidden.
fn lay_unhidden(alloc: Global, hash: HashAlg, payload: Tree) -> Result<Laid, NoMemory>
    ensures { IfOk result
        (λ laid. (tree_of laid.payload ≡ spec.with_alg hash (tree_of payload)) × (laid.texts ≡ [])
        × (laid.digests ≡ [])) }
{
    let payload = with_alg(alloc, hash, payload)?;
    Ok(Laid {
        payload,
        texts: TextList::new(alloc),
        digests: TextList::new(alloc),
    })
}

// An order with what it hides and its decoys, by the salts of a seed.
fn lay_by_seed(
    alloc: Global,
    order: Order,
    places: PathList,
    seed: &[u8; 32],
) -> Result<Laid, NoMemory>
    requires shallow { depth (order_of order).payload ≤ depth_max }
    requires same { (path : Steps) → is_among places path ≡ is_among order.hide path }
    requires few { length places ≤ count_max }
    requires decoys { length (decoy_paths order.decoys) ≤ count_max }
    ensures laid { IfOk result
        (λ laid. IsLaidFor (maker_of seed.now) (order_of order) (tree_of laid.payload) laid.texts
        laid.digests) }
    ensures few { IfOk result (λ laid. length laid.texts ≤ count_max) }
{
    let Order {
        payload,
        decoys,
        hash,
        ..
    } = order;
    let (claims, hidden) = mark_counted(alloc, payload, places)?;
    let hidden = hidden as usize;
    let salts = salts_of(alloc, seed, hidden + decoy_count(&decoys))?;
    let hiding = Hiding {
        salts: &salts,
        hash,
    };
    lay_by_salts(alloc, claims, &decoys, hiding, hidden)
}

// Marked claims and decoys by salts: the first `hidden` are those of the disclosures.
fn lay_by_salts(
    alloc: Global,
    claims: Marked,
    decoys: &DecoyList,
    hiding: Hiding<'_>,
    hidden: usize,
) -> Result<Laid, NoMemory>
    requires depth { depth (strip (marked_of claims)) ≤ 125 }
    requires closes { ClosesFrom 0 (marked_of claims) }
    requires hidden { weight one (marked_of claims) ≡ hidden }
    requires salts { length hiding.salts.now ≡ hidden + length (decoy_paths decoys.now) }
    ensures { IfOk result
        (λ laid. IsLaidWith hiding.entry.hash hiding.entry.salts.now hidden (decoy_paths decoys.now)
        (marked_of claims) (tree_of laid.payload) laid.texts laid.digests) }
{
    let of_decoys = decoy_digests(alloc, hiding, hidden)?;
    let sorted = sort_decoys(alloc, decoys, &of_decoys)?;
    let mut laid = lay_marked(alloc, claims, sorted.all(), hiding)?;
    push_texts(&mut laid.digests, of_decoys)?;
    Ok(laid)
}

// Marked claims with their decoys. Of the digests, those of the disclosures alone are answered.
fn lay_marked(
    alloc: Global,
    claims: Marked,
    decoys: Decoys<'_>,
    hiding: Hiding<'_>,
) -> Result<Laid, NoMemory>
    requires depth { decoys.depth + depth (strip (marked_of claims)) ≤ 125 }
    requires decoys { ArePlaced decoys }
    requires closes { ClosesFrom 0 (marked_of claims) }
    requires salts { weight one (marked_of claims) ≤ length hiding.salts.now }
    ensures laid { IfOk result
        (λ laid. ForAllDigests decoys.entry hiding.entry.hash laid.texts
        (λ dec dg. tree_of laid.payload
        ≡ spec.with_alg hiding.entry.hash (spec.lay dec dg (marked_of claims)))) }
    ensures texts { IfOk result
        (λ laid. ForAllDigests decoys.entry hiding.entry.hash laid.texts
        (λ dec dg. laid.texts
        ≡ made_texts (salted hiding.entry.salts.now) 0
        (laid_given dec dg (marked_of claims)))) }
    ensures count { IfOk result (λ laid. length laid.texts ≡ weight one (marked_of claims)) }
    ensures digests { IfOk result
        (λ laid. laid.digests ≡ map (digest_of hiding.entry.hash) laid.texts) }
{
    let mut layer = Layer::new(alloc);
    let payload = lay(alloc, claims, decoys, hiding, &mut layer)?;
    let payload = with_alg(alloc, hiding.hash, payload)?;
    let Layer { texts, digests } = layer;
    Ok(Laid {
        payload,
        texts,
        digests,
    })
}
