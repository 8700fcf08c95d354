// What is asked of a holder, whoever may have signed the token, and whoever
// signs the key binding token.
ghost use Rattle.std.specs.Prelude.{◌≡◌, map, option_map};
ghost use Rattle.hmac_sign.specs.Algs.{algs as known, alg_text};
ghost use Rattle.holder_core.specs.Asked.{asked_by, asked_by_caller, binding_asked, caller_binding};
ghost use Rattle.holder_core.specs.AskedSeen.{binding_seen};

use crate::{Ask, BindingAsk, CallerAsk, CallerBinding};
use claim_tree::PathList;
use key_binding::{Caller, SignatureAnswer};
use sd_outside::{TextBox, TextList};
use std::marker::Model;
use verifier_core::{Issuers, Rules};

#[derive(Drop)]
pub(crate) struct Asked<'a> {
    pub(crate) rules: Rules<'a>,
    pub(crate) want: &'a PathList,
    pub(crate) binding: Option<AskedBinding<'a>>,
}

// What a key binding token is to say, and the name of the holder's key, where
// the claim `cnf` has to tell one.
#[derive(Clone, Copy)]
pub(crate) struct AskedBinding<'a> {
    pub(crate) kid: Option<&'a TextBox>,
    pub(crate) aud: &'a TextBox,
    pub(crate) nonce: &'a TextBox,
}

impl<'a> Model for Asked<'a> {
    ghost use Rattle.std.specs.Prelude.{option_map};
    ghost use Rattle.holder_core.specs.Asked.{Asked as Seen};
    ghost use Rattle.holder_core.specs.AskedSeen.{binding_seen};

    ghost Value = { Seen };

    ghost view = { λ a. record {
      rules = a.rules;
      want = a.want.now;
      binding = option_map binding_seen a.binding;
    } };
}

impl<'a> AskedBinding<'a> {
    fn by_keys(ask: &'a BindingAsk) -> AskedBinding<'a>
        ensures { binding_seen result ≡ binding_asked ask.now }
    {
        AskedBinding {
            kid: Some(&ask.kid),
            aud: &ask.aud,
            nonce: &ask.nonce,
        }
    }

    fn by_caller(ask: &'a CallerBinding) -> AskedBinding<'a>
        ensures { binding_seen result ≡ caller_binding ask.now }
    {
        AskedBinding {
            kid: ask.kid.as_ref(),
            aud: &ask.aud,
            nonce: &ask.nonce,
        }
    }
}

impl<'a> Asked<'a> {
    // What is asked where the keys are held, with the algorithms that are known.
    pub(crate) fn by_keys(ask: &'a Ask, algs: &'a TextList) -> Asked<'a>
        requires { algs.now ≡ map alg_text known }
        ensures { result ≡ asked_by ask.now }
    {
        let binding = match &ask.binding {
            Some(binding) => Some(AskedBinding::by_keys(binding)),
            None => None,
        };
        Asked {
            rules: Rules::of_keys(&ask.keys, algs, None),
            want: &ask.want,
            binding,
        }
    }

    // What is asked where a caller checks the issuer's signature, and said this of it.
    pub(crate) fn by_caller(ask: &'a CallerAsk, answer: Option<SignatureAnswer>) -> Asked<'a>
        ensures { result ≡ asked_by_caller ask.now answer }
    {
        let binding = match &ask.binding {
            Some(binding) => Some(AskedBinding::by_caller(binding)),
            None => None,
        };
        let issuers = Issuers::Caller(Caller {
            algs: &ask.algs,
            answer,
        });
        Asked {
            rules: Rules { issuers, typ: None },
            want: &ask.want,
            binding,
        }
    }
}
