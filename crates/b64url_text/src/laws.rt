//! What the definition of the text says. The law holds for every value.
ghost use Rattle.std.specs.Prelude.{◌≡◌, ℕ, List};
ghost use Rattle.b64url_text.specs.Base64url.{Decodes};

/// Two lists of bytes with one text are equal.
pub fn one_code()
    ensures { (text x y : List ℕ) → Decodes text x → Decodes text y → x ≡ y }
{}
