//! What the definitions of tokens say together. Each law holds for every value.
ghost use Rattle.std.specs.Prelude.{◌≡◌, ℕ, List};
ghost use Rattle.refusals.specs.declared.fault.Fault.{Fault};
ghost use Rattle.refusals.specs.declared.fault.JsonPlace.{JsonPlace};
ghost use Rattle.json_form.specs.declared.token.Token.{Token};
ghost use Rattle.json_form.specs.Token.{IsToken, IsTextRefused};
ghost use Rattle.json_form.specs.Json.{IsJson};
ghost use Rattle.json_form.specs.JsonPlaces.{JsonFails, IsJsonPlace};

/// A text has at most one token, one that has a token is not refused, and one
/// that is refused has one fault.
pub fn one_token()
    ensures one { (text : List ℕ) (token other : Token) → IsToken text token → IsToken text other
        → token ≡ other }
    ensures not_both { (text : List ℕ) (token : Token) (fault : Fault) → IsToken text token
        → IsTextRefused text fault → ⊥ }
    ensures one_fault { (text : List ℕ) (fault other : Fault) → IsTextRefused text fault
        → IsTextRefused text other → fault ≡ other }
{}

/// A text is a JSON serialization of at most one token. Where it is one, no
/// place applies to it; else one place is the first.
pub fn one_json()
    ensures one { (text : List ℕ) (token other : Token) → IsJson token text → IsJson other text
        → token ≡ other }
    ensures not_both { (text : List ℕ) (token : Token) (place : JsonPlace) → IsJson token text
        → JsonFails text place → ⊥ }
    ensures one_fault { (text : List ℕ) (place other : JsonPlace) → IsJsonPlace text place
        → IsJsonPlace text other → place ≡ other }
{}
