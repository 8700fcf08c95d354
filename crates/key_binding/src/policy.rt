// What a verifier asks of a key binding token (RFC 9901 section 7.3).
ghost use Rattle.std.specs.Prelude.{◌≡◌};
ghost use Rattle.key_binding.specs.Judged.{binding_rules};
ghost use Rattle.key_binding.specs.JudgedSteps.{rules_seen};

use crate::Caller;
use hmac_sign::KeySet;
use sd_outside::{TextBox, TextList};

/// What a verifier wants of a key binding token.
#[derive(Drop)]
pub struct BindingPolicy {
    /// The audiences of which it is to be for one: the names by which the verifier goes.
    pub aud: TextList,
    /// The nonce that the verifier gave.
    pub nonce: TextBox,
    /// The keys of the holders.
    pub keys: KeySet,
    /// How old it may be, in seconds.
    pub max_age: u32,
}

/// Who may sign a key binding token.
#[derive(Clone, Copy)]
pub enum Holders<'a> {
    /// The holder whose key the processed payload names, with HS256.
    Keys(&'a KeySet),
    /// Whom a caller says that checks signatures itself.
    Caller(Caller<'a>),
}

/// What is asked of a key binding token, whoever may sign it.
#[derive(Clone, Copy)]
pub struct BindingRules<'a> {
    /// Who may sign it.
    pub holders: Holders<'a>,
    /// The audiences of which it is to be for one: the names by which the verifier goes.
    pub aud: &'a TextList,
    /// The nonce that the verifier gave.
    pub nonce: &'a TextBox,
    /// How old it may be, in seconds.
    pub max_age: u32,
}

impl BindingPolicy {
    /// What it asks of a key binding token.
    pub fn rules(&self) -> BindingRules<'_>
        ensures { rules_seen result ≡ binding_rules self.now }
    {
        BindingRules {
            holders: Holders::Keys(&self.keys),
            aud: &self.aud,
            nonce: &self.nonce,
            max_age: self.max_age,
        }
    }
}
