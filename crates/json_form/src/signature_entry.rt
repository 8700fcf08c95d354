// One entry of a JSON serialization: a signature with what belongs to it.
ghost use Rattle.std.specs.Prelude.{◌≡◌, [], IfOk, IfErr, IsErrOf};
ghost use Rattle.claim_tree.specs.Tree.{no_members};
ghost use Rattle.claim_tree.specs.Removed.{removed};
ghost use Rattle.claim_tree.specs.TreeValues.{Says, MaySay, SaysOr};
ghost use Rattle.refusals.specs.PartWords.{part_word};
ghost use Rattle.refusals.specs.declared.fault.JsonPlace.{JsonPlace as ThePlace};
ghost use Rattle.refusals.specs.declared.fault.Part.TheVariants.{Header, Disclosures, KbJwt};
ghost use Rattle.json_form.specs.Json.{found_part, IsWordTree, AreWordTrees, IsJwtTree, IsObjectOf, EntrySays};
ghost use Rattle.refusals.specs.Lowest.{IsLowestBy};
ghost use Rattle.json_form.specs.JsonPlaces.{row_of, IsNoWord, IsWrongMember, EntryFails};

use crate::member_values::{jwt_in, word_in, words_in};
use crate::{JsonFormError, Token};
use claim_tree::{Tree, TreeMap};
use compact_form::{JwtParts, Parts};
use refusals::{JsonPlace, Part};
use sd_outside::{TextBox, TextList};
use std::alloc::Global;

// Takes out a base64url word that must be there.
pub(crate) fn take_word(members: &mut TreeMap, part: Part) -> Result<TextBox, JsonPlace>
    ensures ok { IfOk result (λ word. Says IsWordTree (found_part members.old part) word) }
    ensures refused { IfErr result (IsNoWord members.old part) }
    ensures others { members.new ≡ removed members.old (part_word part) }
{
    let Some(tree) = members.remove(part.word()) else {
        return Err(JsonPlace::Missing(part));
    };
    match word_in(tree) {
        Some(word) => Ok(word),
        None => Err(JsonPlace::Wrong(part)),
    }
}

// Takes out the unprotected header.
fn take_header(alloc: Global, entry: &mut TreeMap) -> Result<TreeMap, JsonPlace>
    ensures ok { IfOk result (SaysOr IsObjectOf no_members (found_part entry.old Header)) }
    ensures refused { IfErr result (IsWrongMember IsObjectOf entry.old Header) }
{
    let Some(tree) = entry.remove(Part::Header.word()) else {
        return Ok(TreeMap::new(alloc));
    };
    match tree {
        Tree::Object(header) => Ok(header),
        _ => Err(JsonPlace::Wrong(Part::Header)),
    }
}

// Takes the disclosures out of the unprotected header.
fn take_disclosures(alloc: Global, header: &mut TreeMap) -> Result<TextList, JsonFormError>
    ensures ok { IfOk result (SaysOr AreWordTrees [] (found_part header.old Disclosures)) }
    ensures refused { (place : ThePlace) → IsErrOf result (JsonFormError.Fault place)
        → IsWrongMember AreWordTrees header.old Disclosures place }
    ensures others { header.new ≡ removed header.old (part_word Disclosures) }
{
    let Some(tree) = header.remove(Part::Disclosures.word()) else {
        return Ok(TextList::new(alloc));
    };
    match words_in(alloc, tree)? {
        Some(words) => Ok(words),
        None => Err(JsonFormError::Fault(JsonPlace::Wrong(Part::Disclosures))),
    }
}

// Takes the key binding token out of the unprotected header.
fn take_binding(alloc: Global, header: &mut TreeMap) -> Result<Option<JwtParts>, JsonFormError>
    ensures ok { IfOk result (MaySay IsJwtTree (found_part header.old KbJwt)) }
    ensures refused { (place : ThePlace) → IsErrOf result (JsonFormError.Fault place)
        → IsWrongMember IsJwtTree header.old KbJwt place }
    ensures others { header.new ≡ removed header.old (part_word KbJwt) }
{
    let Some(tree) = header.remove(Part::KbJwt.word()) else {
        return Ok(None);
    };
    match jwt_in(alloc, &tree)? {
        Some(jwt) => Ok(Some(jwt)),
        None => Err(JsonFormError::Fault(JsonPlace::Wrong(Part::KbJwt))),
    }
}

// The token of a payload and an entry.
pub(crate) fn read_entry(
    alloc: Global,
    payload: TextBox,
    entry: TreeMap,
) -> Result<Token, JsonFormError>
    ensures ok { IfOk result (EntrySays entry) }
    ensures payload { IfOk result (λ token. token.parts.signed.payload ≡ payload) }
    ensures refused { (place : ThePlace) → IsErrOf result (JsonFormError.Fault place)
        → IsLowestBy row_of (EntryFails entry) place }
{
    let mut entry = entry;
    let protected = take_word(&mut entry, Part::Protected)?;
    let signature = take_word(&mut entry, Part::Signature)?;
    let mut outer = take_header(alloc, &mut entry)?;
    let disclosures = take_disclosures(alloc, &mut outer)?;
    let binding = take_binding(alloc, &mut outer)?;
    let signed = JwtParts {
        protected,
        payload,
        signature,
    };
    let parts = Parts {
        signed,
        disclosures,
        binding,
    };
    Ok(Token { parts, outer })
}
