//! What the definitions of both ends say together. Each law holds for every value.
ghost use Rattle.std.specs.Prelude.{◌≡◌, ◌<◌, ◌≤◌, ◌^◌, ◌+◌, ℕ, List, Some, length, codes};
ghost use Rattle.sd_outside.specs.Lists.{In};
ghost use Rattle.compact_form.specs.Compact.{jwt};
ghost use Rattle.refusals.specs.declared.condition.Condition.{Condition};
ghost use Rattle.refusals.specs.Condition.{number_of};
ghost use Rattle.refusals.specs.Lowest.{NoneFails};
ghost use Rattle.compact_form.specs.declared.parts.JwtParts.{JwtParts};
ghost use Rattle.disclosure.specs.declared.digests.HashAlg.{HashAlg};
ghost use Rattle.hmac_sign.specs.Hmac.{IsGood, hs256_key};
ghost use Rattle.key_binding.specs.Binding.{IsBinding, IsReadBack};
ghost use Rattle.key_binding.specs.BindingCalls.{IsLowestBinding};
ghost use Rattle.key_binding.specs.BindingConditions.{BindingFails};
ghost use Rattle.key_binding.specs.Trusted.{TrustsHolder};
ghost use Rattle.hmac_sign.specs.declared.key_set.NamedKey.{NamedKey};
ghost use Rattle.key_binding.specs.Judged.{Judged, of_keys, holder_key};
ghost use Rattle.sd_outside.specs.Limits.{binding_text_max};

use hmac_sign::Signatures;

/// What is bound, with whatever signatures and by an algorithm of any name, is accepted by whoever
/// trusts these: for one of these audiences and this nonce, and over this text, as long as it is
/// fresh. It is so at the very second of each limit.
pub fn bound_is_trusted<S: Signatures>()
    ensures { (signer : S) (alg aud : List ℕ) (iat : ℕ) (j : Judged)
        → IsBinding alg (S.good signer) j.hash j.hashed aud j.rules.nonce iat j.token
        → IsReadBack alg j.hash j.hashed aud j.rules.nonce iat j.token
        → TrustsHolder j.rules.holders j.payload alg (S.good signer)
        → In aud j.rules.aud → j.now ≤ iat + j.rules.max_age + j.skew → iat ≤ j.now + j.skew
        → NoneFails (BindingFails j) }
{}

/// The same of the holder's key, with HS256.
pub fn bound_is_accepted()
    ensures { (keys : List NamedKey) (key aud : List ℕ) (iat : ℕ) (j : Judged)
        → IsBinding (codes "HS256") (IsGood (hs256_key key)) j.hash j.hashed aud j.rules.nonce iat
        j.token → IsReadBack (codes "HS256") j.hash j.hashed aud j.rules.nonce iat j.token
        → In aud j.rules.aud → j.rules.holders ≡ of_keys keys → holder_key keys j.payload ≡ Some key
        → j.now ≤ iat + j.rules.max_age + j.skew → iat ≤ j.now + j.skew
        → NoneFails (BindingFails j) }
{}

/// A key binding token is short: an audience and a nonce of at most 256 bytes
/// each make fewer than 5,000 bytes.
pub fn bound_is_short()
    ensures { (key : List ℕ) (hash : HashAlg) (hashed aud nonce : List ℕ) (iat : ℕ)
        (token : JwtParts) → length aud ≤ binding_text_max → length nonce ≤ binding_text_max
        → iat < 2 ^ 64
        → IsBinding (codes "HS256") (IsGood (hs256_key key)) hash hashed aud nonce iat token
        → length (jwt token) < 5000 }
{}

/// A key binding token is accepted, or refused by one condition, with a number from 27 to 38.
pub fn one_binding_verdict()
    ensures not_both { (j : Judged) (condition : Condition) → NoneFails (BindingFails j)
        → IsLowestBinding j condition → ⊥ }
    ensures one_fault { (j : Judged) (condition other : Condition) → IsLowestBinding j condition
        → IsLowestBinding j other → condition ≡ other }
    ensures from_27 { (j : Judged) (condition : Condition) → IsLowestBinding j condition
        → (27 ≤ number_of condition) × (number_of condition ≤ 38) }
{}
