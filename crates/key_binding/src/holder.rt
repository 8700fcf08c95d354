// The holder's key, by its name.
ghost use Rattle.std.specs.Prelude.{◌≡◌, option_map};
ghost use Rattle.claim_tree.specs.View.{tree_of};
ghost use Rattle.key_binding.specs.Judged.{holder_kid as holder_kid_of, holder_key as holder_key_of};

use claim_tree::{Tree, get};
use hmac_sign::{Hs256Key, KeySet};

/// The name of the holder's key that a processed payload tells: the text `kid`
/// of its `cnf` (RFC 7800 section 3.4).
pub fn holder_kid(payload: &Tree) -> Option<&str>
    ensures { option_map (λ kid. kid.now) result ≡ holder_kid_of (tree_of payload.now) }
{
    let kid = get(get(payload, "cnf")?, "kid")?.as_text()?;
    Some(kid.as_str())
}

// The first key of this name, where a payload tells one.
pub(crate) fn holder_key<'a>(keys: &'a KeySet, payload: &Tree) -> Option<&'a Hs256Key>
    ensures { option_map (λ key. key.now) result ≡ holder_key_of keys.now (tree_of payload.now) }
{
    keys.find(holder_kid(payload)?)
}
