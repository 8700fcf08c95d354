// The first member of a payload whose name SD-JWT reserves.
ghost use Rattle.std.specs.Prelude.{◌≡◌, ◌≤◌, [], ◌∷◌, ◌++◌, map, reverse, Some, None, IfOk, IfNone, option_map, slice_get, bytes_eq};
ghost use Rattle.claim_tree.specs.Tree.{array, object, depth, elements_depth, members_depth, member_named};
ghost use Rattle.claim_tree.specs.View.{tree_of};
ghost use Rattle.digest_sites.specs.Reserved.{sd_name};
ghost use Rattle.rebuild_core.specs.Payload.{alg_name};
ghost use Rattle.std.specs.Str.{IsUtf8};
ghost use Rattle.sd_outside.specs.Limits.{json_depth_max};
ghost use Rattle.issuer_core.specs.GoodOrder.{FitsMachine};
ghost use Rattle.issuer_core.specs.ReservedPaths as spec;
ghost use Rattle.issuer_core.specs.ReservedPaths.{own_reserved_path, reserved_paths, reserved_elements};

use claim_tree::{Path, Tree, TreeList, TreeMap, digits};
use digest_sites::{is_dots, is_sd};
use sd_outside::{NoMemory, TextBox};
use std::alloc::Global;

fn is_alg(name: &TextBox) -> bool
    ensures { result ≡ bytes_eq name.now alg_name }
{
    name.as_str() == "_sd_alg"
}

fn is_reserved(name: &TextBox) -> bool
    ensures { result ≡ spec.is_reserved name.now }
{
    is_sd(name) || is_dots(name) || is_alg(name)
}

// The bytes of a text are UTF-8.
pub(crate) fn spells(text: &TextBox)
    ensures { IsUtf8 text.now }
{
    let _bytes = text.as_str().as_bytes();
}

// The path of the first member with a reserved name. Where there is none, the
// whole tree was walked.
pub(crate) fn first_reserved(alloc: Global, tree: &Tree) -> Result<Option<Path>, NoMemory>
    requires { depth (tree_of tree.now) ≤ json_depth_max }
    ensures first { IfOk result (λ path. path ≡ slice_get (reserved_paths (tree_of tree.now)) 0) }
    ensures held { IfOk result (λ path. IfNone path (FitsMachine (tree_of tree.now))) }
{
    match find(alloc, tree)? {
        Some(steps) => Ok(Some(Path::from_last(alloc, steps.as_slice())?)),
        None => Ok(None),
    }
}

// The steps to the first member with a reserved name, from the last to the first.
#[cycle(reserved)]
fn find(alloc: Global, tree: &Tree) -> Result<Option<Vec<TextBox>>, NoMemory>
    requires { depth (tree_of tree.now) ≤ json_depth_max }
    ensures first { IfOk result
        (λ steps. option_map (λ s. reverse s.items) steps
        ≡ slice_get (reserved_paths (tree_of tree.now)) 0) }
    ensures held { IfOk result (λ steps. IfNone steps (FitsMachine (tree_of tree.now))) }
{
    match tree {
        Tree::List(trees) => find_in_list(alloc, trees),
        Tree::Object(trees) => find_in_object(alloc, trees),
        Tree::Text(text) => {
            spells(text);
            Ok(None)
        }
        _ => Ok(None),
    }
}

#[cycle(reserved)]
#[tactic(auto, using(claim_tree::proofs::Walks::into_element))]
fn find_in_list(alloc: Global, trees: &TreeList) -> Result<Option<Vec<TextBox>>, NoMemory>
    requires { elements_depth trees.now ≤ 126 }
    ensures first { IfOk result
        (λ steps.
        option_map (λ s. reverse s.items) steps ≡ slice_get (reserved_elements 0 trees.now) 0) }
    ensures held { IfOk result (λ steps. IfNone steps (FitsMachine (array trees.now))) }
{
    for (i, tree) in trees.trees().iter().enumerate() {
        if let Some(mut steps) = find(alloc, tree)? {
            steps.push(digits(alloc, i)?)?;
            return Ok(Some(steps));
        }
    }
    Ok(None)
}

// In an object `_sd` goes before all others.
#[cycle(reserved)]
fn find_in_object(alloc: Global, trees: &TreeMap) -> Result<Option<Vec<TextBox>>, NoMemory>
    requires { members_depth trees.now ≤ 126 }
    ensures first { IfOk result
        (λ steps. option_map (λ s. reverse s.items) steps
        ≡ slice_get (reserved_paths (object trees.now)) 0) }
    ensures held { IfOk result (λ steps. IfNone steps (FitsMachine (object trees.now))) }
{
    if trees.get("_sd").is_some() {
        return Ok(Some(one_step(alloc, "_sd")?));
    }
    find_in_members(alloc, trees)
}

#[cycle(reserved)]
#[tactic(auto, using(claim_tree::proofs::Walks::into_member))]
fn find_in_members(alloc: Global, trees: &TreeMap) -> Result<Option<Vec<TextBox>>, NoMemory>
    requires depth { members_depth trees.now ≤ 126 }
    requires no_sd { member_named trees.now sd_name ≡ None }
    ensures first { IfOk result
        (λ steps. option_map (λ s. reverse s.items) steps
        ≡ slice_get (reserved_paths (object trees.now)) 0) }
    ensures held { IfOk result (λ steps. IfNone steps (FitsMachine (object trees.now))) }
{
    for (name, tree) in trees.members() {
        if let Some(mut steps) = find_at(alloc, name, tree)? {
            steps.push(TextBox::make(alloc, name.as_str())?)?;
            return Ok(Some(steps));
        }
    }
    Ok(None)
}

// The steps behind the name of a member, where it is reserved or a name inside it is.
#[cycle(reserved)]
fn find_at(alloc: Global, name: &TextBox, tree: &Tree) -> Result<Option<Vec<TextBox>>, NoMemory>
    requires { depth (tree_of tree.now) ≤ json_depth_max }
    ensures first { IfOk result
        (λ steps. option_map (λ s. name.now ∷ reverse s.items) steps
        ≡ slice_get
        (own_reserved_path name.now
        ++ map (λ p. name.now ∷ p) (reserved_paths (tree_of tree.now))) 0) }
    ensures name { IfOk result (λ steps. IfNone steps (IsUtf8 name.now)) }
    ensures held { IfOk result (λ steps. IfNone steps (FitsMachine (tree_of tree.now))) }
{
    if is_reserved(name) {
        return Ok(Some(Vec::new(alloc)));
    }
    spells(name);
    find(alloc, tree)
}

fn one_step(alloc: Global, step: &str) -> Result<Vec<TextBox>, NoMemory>
    ensures { IfOk result (λ steps. steps.items ≡ step.now ∷ []) }
{
    let mut steps = Vec::new(alloc);
    steps.push(TextBox::make(alloc, step)?)?;
    Ok(steps)
}
