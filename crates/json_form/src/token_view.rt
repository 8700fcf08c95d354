// A token that is borrowed.
ghost use Rattle.std.specs.Prelude.{◌≡◌, ◌^◌, ◌<◌, length};
ghost use Rattle.std.specs.Option.{option_map};
ghost use Rattle.compact_form.specs.Views.{jwt_of};

use crate::Disclosures;
use claim_tree::TreeMap;
use compact_form::{JwtView, Parts, View};
use std::marker::Model;

// The parts, wherever they stand.
#[derive(Debug, Drop)]
enum Lent<'a> {
    // in a compact text
    Text(View<'a>),
    // each in a text of its own
    Apart(&'a Parts),
}

/// A token that is borrowed: its parts, wherever they stand, and what a JSON serialization says
/// beside them. Contracts see the token.
#[derive(Debug, Drop)]
pub struct TokenView<'a> {
    parts: Lent<'a>,
    outer: &'a TreeMap,
}

impl<'a> Model for TokenView<'a> {
    ghost use Rattle.json_form.specs.declared.token.Token.{Token};
    ghost use Rattle.json_form.specs.Code.{token_code};

    ghost Value = { Token };

    ghost coded = { token_code };

    ghost use Rattle.json_form.specs.Source.{lent_parts};

    ghost view = { λ t. record { parts = lent_parts t.parts; outer = t.outer.now } };
}

impl<'a> TokenView<'a> {
    /// The token whose parts stand in a compact text, with these members of an unprotected header.
    pub fn in_text(parts: View<'a>, outer: &'a TreeMap) -> TokenView<'a>
        ensures { result ≡ record { parts = parts.entry; outer = outer.now } }
    {
        TokenView {
            parts: Lent::Text(parts),
            outer,
        }
    }

    // The token whose parts are texts of their own.
    pub(crate) fn apart(parts: &'a Parts, outer: &'a TreeMap) -> TokenView<'a>
        ensures { result ≡ record { parts = parts.now; outer = outer.now } }
    {
        TokenView {
            parts: Lent::Apart(parts),
            outer,
        }
    }

    /// The issuer's JWT.
    pub fn signed(&self) -> JwtView<'a>
        ensures { jwt_of result ≡ self.now.parts.signed }
    {
        match &self.parts {
            Lent::Text(view) => view.signed(),
            Lent::Apart(parts) => parts.signed.view(),
        }
    }

    /// The disclosures, in their order.
    pub fn disclosures(&self) -> Disclosures<'a>
        ensures value { result ≡ self.now.parts.disclosures }
        ensures countable { length result < 2 ^ 64 }
    {
        match &self.parts {
            Lent::Text(view) => Disclosures::in_text(view.pieces()),
            Lent::Apart(parts) => Disclosures::in_list(&parts.disclosures),
        }
    }

    /// The number of disclosures.
    pub fn count(&self) -> usize
        ensures { result ≡ length self.now.parts.disclosures }
    {
        match &self.parts {
            Lent::Text(view) => view.count(),
            Lent::Apart(parts) => parts.disclosures.len(),
        }
    }

    /// The key binding token, where there is one.
    pub fn binding(&self) -> Option<JwtView<'a>>
        ensures { option_map jwt_of result ≡ self.now.parts.binding }
    {
        match &self.parts {
            Lent::Text(view) => view.binding(),
            Lent::Apart(parts) => match &parts.binding {
                Some(binding) => Some(binding.view()),
                None => None,
            },
        }
    }

    /// The members of the unprotected header other than `disclosures` and `kb_jwt` (RFC 9901
    /// section 8). A compact token has none.
    pub fn outer(&self) -> &'a TreeMap
        ensures { result.now ≡ self.now.outer }
    {
        self.outer
    }
}
