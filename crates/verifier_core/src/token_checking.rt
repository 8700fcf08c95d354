// The check of a token: the conditions 5 to 21.
ghost use Rattle.std.specs.Prelude.{◌≡◌, ◌<◌, ◌-◌, ◌^◌, length, IfOk, IfErr};
ghost use Rattle.std.specs.Option.{option_copied};
ghost use Rattle.claim_tree.specs.View.{tree_of};
ghost use Rattle.marked_tree.specs.Marked.{strip as strip_of};
ghost use Rattle.marked_tree.specs.View.{marked_of};
ghost use Rattle.json_form.specs.Alone.{alone};
ghost use Rattle.verifier_core.specs.Verdict.{TokenFails, IsChecked, HasHash, asked};
ghost use Rattle.verifier_core.specs.Check.{OnFault, IsCounted, IsCountedWithin, IsUncounted};
ghost use Rattle.refusals.specs.Faults.{placed};
ghost use Rattle.refusals.specs.Lowest.{IsLowest};
ghost use Rattle.verifier_core.specs.declared.token_checking.VerifyError.{VerifyError};

use crate::{Content, Rules};
use claim_tree::{Tree, TreeMap};
use compact_form::View;
use digest_index::Steps;
use disclosure::{DisclosureReader, HashAlg};
use hmac_sign::KeySet;
use json_form::{Token, TokenView};
use marked_tree::{Marked, strip};
use refusals::{Condition, Fault, Place};
use sd_outside::{NoMemory, TextBox, TextList};
use std::alloc::Global;

/// The contents of a checked token.
#[derive(Debug, Drop)]
pub struct Checked {
    /// The processed payload.
    pub payload: Tree,
    /// The processed payload, in which each node that a disclosure shows has the number of that
    /// disclosure.
    pub marked: Marked,
    /// The algorithm of the token's digests.
    pub hash: HashAlg,
}

/// Why a token is not accepted.
#[derive(Clone, Copy, Debug, PartialEq, Eq)]
pub enum VerifyError {
    /// Memory ran out.
    Memory,
    /// The lowest condition that fails, with its least place.
    Fault(Fault),
}

impl From<NoMemory> for VerifyError {
    ghost use Rattle.verifier_core.specs.declared.token_checking.VerifyError.TheVariants.{Memory};

    ghost from_gives = { λ _ e. e ≡ Memory };

    fn from(_: NoMemory) -> Self {
        VerifyError::Memory
    }
}

// The fault of a condition at a position.
pub(crate) fn fails_at(condition: Condition, place: usize) -> VerifyError
    ensures { result ≡ VerifyError.Fault (placed condition place) }
{
    VerifyError::Fault(condition.fault_at(Place::At(place)))
}

// The conditions 5 to 21 of a token, owned or borrowed.
fn check(
    alloc: Global,
    token: &TokenView<'_>,
    rules: &Rules<'_>,
    steps: &mut Steps,
) -> Result<Checked, VerifyError>
    requires few { length token.now.parts.disclosures < 2 ^ 32 - 1 }
    ensures checked { IfOk result (λ c. IsChecked token.now rules.now (marked_of c.marked)) }
    ensures payload { IfOk result (λ c. tree_of c.payload ≡ strip_of (marked_of c.marked)) }
    ensures hash { IfOk result (λ c. HasHash token.now c.hash) }
    ensures refused { IfErr result (λ e. OnFault e (IsLowest (TokenFails token.now rules.now))) }

    // the look-ups
    ensures counted { IfOk result (λ _. IsCounted token.now steps.old steps.new) }
    ensures within { IsCountedWithin token.now steps.old steps.new }
    ensures uncounted { IsUncounted (TokenFails token.now rules.now) steps.old steps.new }
{
    let mut reader = DisclosureReader::new(alloc);
    let content = match Content::read(alloc, &mut reader, token, rules) {
        Ok(content) => content,
        Err(error) => return Err(error),
    };
    let hash = content.hash();
    let marked = match content.open(alloc, steps) {
        Ok(marked) => marked,
        Err(error) => return Err(error),
    };
    let payload = strip(alloc, &marked)?;
    Ok(Checked {
        payload,
        marked,
        hash,
    })
}

/// Checks a token itself: the conditions 5 to 21, RFC 9901 section 7.3, without
/// its key binding token.
///
/// The header, the signature, the payload and the disclosures are judged in this order, and the
/// error is the first condition that fails. `steps` counts the look-ups of digests.
pub fn check_token(
    alloc: Global,
    token: &Token,
    keys: &KeySet,
    algs: &TextList,
    typ: Option<&TextBox>,
    steps: &mut Steps,
) -> Result<Checked, VerifyError>
    requires few { length token.now.parts.disclosures < 2 ^ 32 - 1 }
    ensures checked { IfOk result
        (λ c. IsChecked token.now (asked keys.now algs.now (option_copied typ.entry))
        (marked_of c.marked)) }
    ensures payload { IfOk result (λ c. tree_of c.payload ≡ strip_of (marked_of c.marked)) }
    ensures hash { IfOk result (λ c. HasHash token.now c.hash) }
    ensures refused { IfErr result
        (λ e. OnFault e
        (IsLowest (TokenFails token.now (asked keys.now algs.now (option_copied typ.entry))))) }

    // the look-ups
    ensures counted { IfOk result (λ _. IsCounted token.now steps.old steps.new) }
    ensures within { IsCountedWithin token.now steps.old steps.new }
    ensures uncounted { IsUncounted
        (TokenFails token.now (asked keys.now algs.now (option_copied typ.entry))) steps.old
        steps.new }
{
    check(
        alloc,
        &token.view(),
        &Rules::of_keys(keys, algs, typ),
        steps,
    )
}

/// Checks a compact token as [`check_token`] does, with its parts borrowed from the string.
pub fn check_view(
    alloc: Global,
    view: &View<'_>,
    keys: &KeySet,
    algs: &TextList,
    typ: Option<&TextBox>,
    steps: &mut Steps,
) -> Result<Checked, VerifyError>
    requires few { length view.now.disclosures < 2 ^ 32 - 1 }
    ensures checked { IfOk result
        (λ c. IsChecked (alone view.now) (asked keys.now algs.now (option_copied typ.entry))
        (marked_of c.marked)) }
    ensures payload { IfOk result (λ c. tree_of c.payload ≡ strip_of (marked_of c.marked)) }
    ensures hash { IfOk result (λ c. HasHash (alone view.now) c.hash) }
    ensures refused { IfErr result
        (λ e. OnFault e
        (IsLowest
        (TokenFails (alone view.now)
        (asked keys.now algs.now (option_copied typ.entry))))) }

    // the look-ups
    ensures counted { IfOk result (λ _. IsCounted (alone view.now) steps.old steps.new) }
    ensures within { IsCountedWithin (alone view.now) steps.old steps.new }
    ensures uncounted { IsUncounted
        (TokenFails (alone view.now) (asked keys.now algs.now (option_copied typ.entry))) steps.old
        steps.new }
{
    let outer = TreeMap::new(alloc);
    let token = TokenView::in_text(view.copy(), &outer);
    check(alloc, &token, &Rules::of_keys(keys, algs, typ), steps)
}
