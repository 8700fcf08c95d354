// A JWT that stands alone, cut at its full stops.
ghost use Rattle.std.specs.Prelude.{IfSome, IfNone};
ghost use Rattle.compact_form.specs.declared.parts.JwtParts.{JwtParts as TheParts};
ghost use Rattle.compact_form.specs.JwtCalls.{IsJwt};
ghost use Rattle.compact_form.specs.Views.{jwt_of};

use crate::JwtView;

/// The three texts of a JWT that stands alone (RFC 7515 section 7.1), borrowed from it, or None
/// where the text is no JWT. It takes no memory.
pub fn read_jwt(text: &str) -> Option<JwtView<'_>>
    ensures some { IfSome result (λ view. IsJwt (jwt_of view) text.now) }
    ensures none { IfNone result ((j : TheParts) → IsJwt j text.now → ⊥) }
{
    let (protected, rest) = text.split_once('.')?;
    let (payload, signature) = rest.split_once('.')?;
    let view = JwtView {
        protected,
        payload,
        signature,
    };
    if view.has_words() { Some(view) } else { None }
}
