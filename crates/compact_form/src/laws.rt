//! What the definitions of the compact form say together. Each law holds for every value.
ghost use Rattle.std.specs.Prelude.{◌≡◌, ◌≤◌, ℕ, List, length};
ghost use Rattle.refusals.specs.declared.fault.Fault.{Fault};
ghost use Rattle.sd_outside.specs.Limits.{compact_max, count_max};
ghost use Rattle.compact_form.specs.declared.parts.Parts.{Parts};
ghost use Rattle.compact_form.specs.Compact.{compact, hashed, AreWords, IsCompact, IsMisformedAt, IsStop};
ghost use Rattle.compact_form.specs.JwtCalls.{IsUpToLastTilde};
ghost use Rattle.compact_form.specs.CompactToken.{IsCompactRefused, ReadsCompact};

/// A text is the spelling of at most one value of parts.
pub fn one_spelling()
    ensures { (p q : Parts) (text : List ℕ) → IsCompact p text → IsCompact q text → p ≡ q }
{}

/// What is printed of parts is parsed to the same parts, and to no others.
pub fn printed_is_parsed()
    ensures parsed { (parts : Parts) → AreWords parts → IsCompact parts (compact parts) }
    ensures same { (parts other : Parts) → AreWords parts → IsCompact other (compact parts)
        → other ≡ parts }
    ensures not_refused { (parts : Parts) (stop : ℕ) → AreWords parts
        → IsMisformedAt (compact parts) stop → ⊥ }
{}

/// What is printed of parts, within the limits, is read from a file as the same parts.
pub fn printed_is_read()
    ensures { (parts : Parts) → AreWords parts → length (compact parts) ≤ compact_max
        → length parts.disclosures ≤ count_max → ReadsCompact (compact parts) parts }
{}

/// What a key binding token hashes is the compact text up to and with its last tilde.
pub fn hashed_is_front()
    ensures { (parts : Parts) (text : List ℕ) → IsCompact parts text
        → IsUpToLastTilde text (hashed parts) }
{}

/// A text stops at one place.
pub fn one_stop()
    ensures { (text : List ℕ) (m n : ℕ) → IsStop text m → IsStop text n → m ≡ n }
{}

/// A text that is read is not refused, and one that is refused has one fault.
pub fn one_verdict()
    ensures not_both { (text : List ℕ) (parts : Parts) (fault : Fault) → ReadsCompact text parts
        → IsCompactRefused text fault → ⊥ }
    ensures one_fault { (text : List ℕ) (f g : Fault) → IsCompactRefused text f
        → IsCompactRefused text g → f ≡ g }
    ensures one_value { (text : List ℕ) (p q : Parts) → ReadsCompact text p → ReadsCompact text q
        → p ≡ q }
{}
