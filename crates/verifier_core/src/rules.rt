// The rules for a token and its signature.
ghost use Rattle.std.specs.Prelude.{◌≡◌};
ghost use Rattle.std.specs.Option.{option_copied};
ghost use Rattle.verifier_core.specs.Verdict.{asked};

use hmac_sign::KeySet;
use key_binding::{BindingRules, Caller};
use sd_outside::{TextBox, TextList};
use std::marker::Model;

/// Who may sign a token.
#[derive(Clone, Copy)]
pub enum Issuers<'a> {
    /// The holders of these keys, with these of the known algorithms.
    Keys {
        keys: &'a KeySet,
        algs: &'a TextList,
    },
    /// The issuers that a caller knows, which checks signatures itself.
    Caller(Caller<'a>),
}

/// The rules for a token itself.
#[derive(Drop)]
pub struct Rules<'a> {
    /// Who may sign it.
    pub issuers: Issuers<'a>,
    /// The type that the header has to name (RFC 7515 section 4.1.9), if the rules name one.
    pub typ: Option<&'a TextBox>,
}

impl<'a> Rules<'a> {
    /// Returns the rules for a set of keys, with these algorithms, and a type.
    pub fn of_keys(keys: &'a KeySet, algs: &'a TextList, typ: Option<&'a TextBox>) -> Rules<'a>
        ensures { result ≡ asked keys.now algs.now (option_copied typ.entry) }
    {
        Rules {
            issuers: Issuers::Keys { keys, algs },
            typ,
        }
    }
}

impl<'a> Model for Rules<'a> {
    ghost use Rattle.std.specs.Option.{option_copied};
    ghost use Rattle.verifier_core.specs.Verdict.{Rules as Seen};
    ghost use Rattle.verifier_core.specs.Seen.{issuers_of};

    ghost Value = { Seen };

    ghost view = { λ r. record { issuers = issuers_of r.issuers; typ = option_copied r.typ } };
}

/// The rules for a token file: for the token itself, for the claims of its processed payload, and
/// for a key binding token, if one is required.
#[derive(Drop)]
pub(crate) struct Demands<'a> {
    pub(crate) rules: Rules<'a>,
    pub(crate) iss: Option<&'a TextList>,
    pub(crate) require: &'a TextList,
    pub(crate) skew: u32,
    pub(crate) binding: Option<BindingRules<'a>>,
}

impl<'a> Model for Demands<'a> {
    ghost use Rattle.std.specs.Option.{option_copied, option_map};
    ghost use Rattle.key_binding.specs.JudgedSteps.{rules_seen};
    ghost use Rattle.verifier_core.specs.Verdict.{Demands as Seen};

    ghost Value = { Seen };

    ghost view = { λ d. record {
      rules = d.rules;
      iss = option_copied d.iss;
      require = d.require.now;
      skew = d.skew;
      binding = option_map rules_seen d.binding;
    } };
}
