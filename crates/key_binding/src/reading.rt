// The claims of a key binding token.
ghost use Rattle.std.specs.Prelude.{◌≡◌, ◌≢◌, Some, IfSome, IfNone};
ghost use Rattle.claim_tree.specs.Tree.{Text, InRange, get as get_of};
ghost use Rattle.claim_tree.specs.View.{tree_of};
ghost use Rattle.jws_part.specs.Header.{text_tree};
ghost use Rattle.key_binding.specs.Binding.{Claims as SaidClaims};
ghost use Rattle.key_binding.specs.Judged.{PayloadSays};
ghost use Rattle.key_binding.specs.Read.{claims_of};

use claim_tree::{Tree, get};
use jws_part::moment;

// The claims that are judged, borrowed from the payload.
#[derive(Clone, Copy, Debug)]
pub(crate) struct Claims<'a> {
    pub(crate) aud: &'a str,
    pub(crate) iat: i128,
    pub(crate) nonce: &'a str,
    pub(crate) sd_hash: &'a str,
}

// The text that a claim is.
fn text_claim<'a>(body: &'a Tree, name: &str) -> Option<&'a str>
    ensures some { IfSome result
        (λ s. get_of (tree_of body.now) name.now ≡ Some (text_tree s.now)) }
    ensures none { IfNone result
        ((s : Text) → get_of (tree_of body.now) name.now ≢ Some (text_tree s)) }
{
    match get(body, name) {
        Some(Tree::Text(text)) => Some(text.as_str()),
        _ => None,
    }
}

// The claims of a payload, where each is there and of its kind.
pub(crate) fn read_claims(body: &Tree) -> Option<Claims<'_>>
    ensures some { IfSome result (λ claims. PayloadSays (tree_of body.now) (claims_of claims)) }
    ensures ranged { IfSome result (λ claims. InRange claims.iat) }
    ensures none { IfNone result
        ((claims : SaidClaims) → PayloadSays (tree_of body.now) claims → ⊥) }
{
    Some(Claims {
        aud: text_claim(body, "aud")?,
        iat: moment(body, "iat")?.get(),
        nonce: text_claim(body, "nonce")?,
        sd_hash: text_claim(body, "sd_hash")?,
    })
}
