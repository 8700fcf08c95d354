// What of a tree the reserved names read.
ghost use Rattle.std.specs.Prelude.{◌≡◌, [], Some, MatchOption, is_some, option_and_then, length, option_map, bytes_eq};
ghost use Rattle.claim_tree.specs.Tree.{member_named};
ghost use Rattle.claim_tree.specs.View.{tree_of};
ghost use Rattle.digest_sites.specs.Reserved.{texts_of, text_list, element_digest as digest_in, is_ill_named as is_ill_named_as, sd_texts, sd_name, dots_name};

use claim_tree::{Tree, TreeList, TreeMap};
use sd_outside::TextBox;

// The name of the digests of hidden members.
const SD: &str = "_sd";

// The name of the digest of a hidden element.
const DOTS: &str = "...";

/// Whether a name is `_sd`, RFC 9901 section 4.2.4.1.
#[tactic(auto, unfolding(crate::specs::Reserved::sd_name))]
pub fn is_sd(name: &TextBox) -> bool
    ensures { result ≡ bytes_eq name.now sd_name }
{
    name.as_str() == SD
}

/// Whether a name is `...`, RFC 9901 section 4.2.4.2.
#[tactic(auto, unfolding(crate::specs::Reserved::dots_name))]
pub fn is_dots(name: &TextBox) -> bool
    ensures { result ≡ bytes_eq name.now dots_name }
{
    name.as_str() == DOTS
}

// Whether the elements are texts alone.
fn are_texts(trees: &TreeList) -> bool
    ensures { result ≡ is_some (texts_of trees.now) }
{
    for tree in trees.trees() {
        if tree.as_text().is_none() {
            return false;
        }
    }
    true
}

fn is_text_list(tree: &Tree) -> bool
    ensures { result ≡ is_some (text_list (tree_of tree.now)) }
{
    match tree {
        Tree::List(trees) => are_texts(trees),
        _ => false,
    }
}

/// The list of the digests of an object's own hidden members, `None` where the object has no member
/// `_sd` or that is no list of texts. It takes no memory.
#[tactic(auto, unfolding(crate::specs::Reserved::sd_name), using(crate::proofs::Found::sd_found))]
pub fn own_digests(members: &TreeMap) -> Option<&TreeList>
    ensures texts { MatchOption result (sd_texts members.now ≡ [])
        (λ list. texts_of list.now ≡ Some (sd_texts members.now)) }
    ensures exactly { is_some result
        ≡ is_some (option_and_then text_list (member_named members.now sd_name)) }
{
    let Tree::List(list) = members.get(SD)? else {
        return None;
    };
    if !are_texts(list) {
        return None;
    }
    Some(list)
}

/// How many digests an object has of its own hidden members. It takes no memory.
#[tactic(auto, using(crate::proofs::Found::own_length))]
pub fn own_count(members: &TreeMap) -> usize
    ensures { result ≡ length (sd_texts members.now) }
{
    match own_digests(members) {
        Some(digests) => digests.len(),
        None => 0,
    }
}

// Whether a member with this name and value misuses a reserved name, in an object that is walked.
pub(crate) fn is_ill_named(name: &TextBox, tree: &Tree) -> bool
    ensures { result ≡ is_ill_named_as name.now (tree_of tree.now) }
{
    is_sd(name) && !is_text_list(tree) || is_dots(name)
}

/// The digest of an element that stands for a hidden one, RFC 9901 section
/// 4.2.4.2, `None` for any other element. It takes no memory.
#[tactic(auto, unfolding(crate::specs::Reserved::dots_name))]
pub fn element_digest(tree: &Tree) -> Option<&TextBox>
    ensures { option_map (λ t. t.now) result ≡ digest_in (tree_of tree.now) }
{
    let Tree::Object(members) = tree else {
        return None;
    };
    if members.len() != 1 {
        return None;
    }
    members.get(DOTS)?.as_text()
}
