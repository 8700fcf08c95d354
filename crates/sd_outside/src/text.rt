// Texts that are owned, and say so where there is no memory.
ghost use Rattle.std.specs.Prelude.{◌≡◌, IfOk, string_bytes};

use crate::NoMemory;
use std::alloc::Global;
use std::cmp::Ordering;
use std::marker::Model;

/// An owned text. Contracts see its bytes, which are UTF-8, and texts are equal
/// and ordered by them.
#[derive(Debug, Drop)]
pub struct TextBox {
    text: String,
}

impl Model for TextBox {
    ghost use Rattle.std.specs.Prelude.{List, ℕ, string_bytes};

    ghost Value = { List ℕ };

    ghost view = { λ t. string_bytes t.text };
}

impl TextBox {
    /// A copy of a text.
    pub fn make(alloc: Global, text: &str) -> Result<TextBox, NoMemory>
        ensures { IfOk result (λ t. t ≡ text.now) }
    {
        Ok(TextBox {
            text: String::from_str(alloc, text)?,
        })
    }

    /// The text of a string, with no copy.
    pub fn from_string(text: String) -> TextBox
        ensures { result ≡ string_bytes text }
    {
        TextBox { text }
    }

    /// The string, with no copy.
    pub fn into_string(self) -> String
        ensures { string_bytes result ≡ self }
    {
        let TextBox { text } = self;
        text
    }

    /// The text.
    pub fn as_str(&self) -> &str
        ensures { result.now ≡ self.now }
    {
        self.text.as_str()
    }
}

/// A copy of a text, where there is one.
pub fn copy_text(alloc: Global, text: &Option<TextBox>) -> Result<Option<TextBox>, NoMemory>
    ensures { IfOk result (λ copy. copy ≡ text.now) }
{
    match text {
        Some(text) => Ok(Some(TextBox::make(alloc, text.as_str())?)),
        None => Ok(None),
    }
}

impl PartialEq for TextBox {
    ghost use Rattle.std.specs.Prelude.{nat_eq};
    ghost use Rattle.std.specs.Cmp.{partial_equiv_from_equiv};
    ghost use Rattle.std.specs.Cmp.Lexicographic.{pointwise, nat_list_eq_equiv};

    ghost eq = { pointwise nat_eq };

    ghost laws = { partial_equiv_from_equiv nat_list_eq_equiv };

    fn eq(&self, other: &TextBox) -> bool {
        self.text == other.text
    }
}

impl Eq for TextBox {
    ghost use Rattle.std.specs.Cmp.Lexicographic.{nat_list_eq_equiv};

    ghost laws = { nat_list_eq_equiv };
}

impl PartialOrd for TextBox {
    ghost use Rattle.std.specs.Prelude.{Some};
    ghost use Rattle.std.specs.Ordering.{nat_cmp};
    ghost use Rattle.std.specs.Cmp.Lexicographic.{slice_cmp, texts_po};

    ghost partial_cmp = { λ x y. Some (slice_cmp nat_cmp x y) };

    ghost laws = { texts_po };

    fn partial_cmp(&self, other: &TextBox) -> Option<Ordering> {
        Some(self.cmp(other))
    }
}

impl Ord for TextBox {
    ghost use Rattle.std.proofs.Common.{rules};
    ghost use Rattle.std.specs.Ordering.{nat_cmp};
    ghost use Rattle.std.specs.Cmp.Lexicographic.{slice_cmp, nat_list_cmp_total, texts_ties};

    ghost cmp = { slice_cmp nat_cmp };

    ghost total = { nat_list_cmp_total };

    ghost matches_partial_cmp = { Prim.search rules };

    ghost matches_eq = { texts_ties };

    fn cmp(&self, other: &TextBox) -> Ordering {
        self.text.cmp(&other.text)
    }
}
