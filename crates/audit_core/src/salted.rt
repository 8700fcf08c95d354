// Disclosures with a salt of 16 bytes, of which the salt is not kept.
ghost use Rattle.std.specs.Prelude.{◌≡◌, ◌≤◌, take, drop, IfOk, IfSome, IfNone, IsTrue};
ghost use Rattle.b64url_text.specs.Base64url.{Decodes};
ghost use Rattle.claim_tree.specs.Tree.{Text, depth as depth_of};
ghost use Rattle.claim_tree.specs.View.{tree_of};
ghost use Rattle.audit_core.specs.Audited.{IsSaltedText};
ghost use Rattle.audit_core.specs.AuditSteps.{IsSalt};

use b64url_text::decode_into;
use claim_tree::write_list;
use disclosure::Disclosed;
use sd_outside::NoMemory;
use std::alloc::Global;

// The 22 letters behind the bracket and the quote with which compact JSON of a
// disclosure begins, where they are the text of 16 bytes.
fn salt_in(json: &[u8]) -> Option<&str>
    ensures salt { IfSome result (λ salt. IsSalt salt.now) }
    ensures stands { IfSome result (λ salt. salt.now ≡ take 22 (drop 2 json.now)) }
    ensures none { IfNone result (IsSalt (take 22 (drop 2 json.now)) → ⊥) }
{
    let Ok(salt) = str::from_utf8(json.get(2..24)?) else {
        return None;
    };
    match decode_into(salt.as_bytes(), &mut [0; 18]) {
        Ok(_) => Some(salt),
        Err(_) => None,
    }
}

// Whether the bytes are the compact JSON of a disclosure that gives this, with a salt of 16 bytes.
pub(crate) fn is_salted(alloc: Global, json: &[u8], given: &Disclosed) -> Result<bool, NoMemory>
    requires depth { depth_of (tree_of given.now.value) ≤ 126 }
    ensures some { IfOk result
        (λ is. IsTrue is → (text : Text) → Decodes text json.now
        → IsSaltedText text given.now.name (tree_of given.now.value)) }
    ensures none { IfOk result
        (λ is. (text : Text) → Decodes text json.now
        → IsSaltedText text given.now.name (tree_of given.now.value) → IsTrue is) }
{
    let Some(salt) = salt_in(json) else {
        return Ok(false);
    };
    let name = given.name.as_ref().map(|name| name.as_str());
    let written = write_list(alloc, salt, name, &given.value)?;
    Ok(json == written.as_str().as_bytes())
}
