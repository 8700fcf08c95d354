// Names of algorithms that sign.
ghost use Rattle.std.specs.Prelude.{◌≡◌, IfOk, IfSome, IfNone};
ghost use Rattle.hmac_sign.specs.AlgNames.{IsNoAlgName};
ghost use Rattle.hmac_sign.specs.Algs.{alg_text};

use crate::Alg;
use sd_outside::{NoMemory, TextBox};
use std::alloc::Global;
use std::marker::Model;

/// The name of an algorithm that signs, as the `alg` of a JWS header has it (RFC 7515 section
/// 4.1.1). It is neither empty nor `none`, the name of an unsecured JWS (RFC 7518 section 3.6).
/// Contracts see its text.
#[derive(Debug, Drop)]
pub struct AlgName<'a> {
    text: &'a str,
}

impl<'a> Model for AlgName<'a> {
    ghost use Rattle.claim_tree.specs.Tree.{Text};
    ghost use Rattle.hmac_sign.specs.AlgNames.{IsNoAlgName};

    ghost Value = { Text };

    ghost view = { λ name. name.text.now };

    ghost invariant = { λ name. IsNoAlgName name.text.now → ⊥ };
}

impl<'a> AlgName<'a> {
    /// The name of this text, if it is one.
    pub fn new(text: &'a str) -> Option<AlgName<'a>>
        ensures same { IfSome result (λ name. name ≡ text.now) }
        ensures a_name { IfSome result (λ _. IsNoAlgName text.now → ⊥) }
        ensures none { IfNone result (IsNoAlgName text.now) }
    {
        match text {
            "" | "none" => None,
            _ => Some(AlgName { text }),
        }
    }

    // The name of an algorithm that is known.
    pub(crate) fn of(alg: Alg) -> AlgName<'static>
        ensures { result ≡ alg_text alg }
    {
        AlgName { text: alg.name() }
    }

    /// Its text.
    pub fn as_str(&self) -> &'a str
        ensures same { result.now ≡ self.now }
        ensures a_name { IsNoAlgName self.now → ⊥ }
    {
        self.text
    }
}

/// A name of an algorithm that signs, as [`AlgName`] says, with a copy of its text. Contracts see
/// its text.
#[derive(Debug, Drop)]
pub struct AlgNameBox {
    text: TextBox,
}

impl Model for AlgNameBox {
    ghost use Rattle.claim_tree.specs.Tree.{Text};
    ghost use Rattle.hmac_sign.specs.AlgNames.{IsNoAlgName};

    ghost Value = { Text };

    ghost view = { λ name. name.text };

    ghost invariant = { λ name. IsNoAlgName name.text → ⊥ };
}

impl AlgNameBox {
    /// A copy of a name.
    pub fn make(alloc: Global, name: &AlgName<'_>) -> Result<AlgNameBox, NoMemory>
        ensures { IfOk result (λ copy. copy ≡ name.now) }
    {
        let text = TextBox::make(alloc, name.text)?;
        Ok(AlgNameBox { text })
    }

    /// The name.
    pub fn name(&self) -> AlgName<'_>
        ensures { result ≡ self.now }
    {
        AlgName {
            text: self.text.as_str(),
        }
    }
}
