// The content of a token: read by the conditions 5 to 13, and opened by the
// conditions 14 to 21.
ghost use Rattle.std.specs.Prelude.{◌≡◌, ◌≤◌, ◌<◌, ◌-◌, ◌^◌, length, IfOk, IfErr, OnOk};
ghost use Rattle.sd_outside.specs.Limits.{json_depth_max};
ghost use Rattle.claim_tree.specs.Tree.{depth};
ghost use Rattle.claim_tree.specs.View.{tree_of};
ghost use Rattle.refusals.specs.Lowest.{IsLowest};
ghost use Rattle.marked_tree.specs.Marked.{strip as strip_of};
ghost use Rattle.marked_tree.specs.View.{marked_of};
ghost use Rattle.verifier_core.specs.Verdict.{TokenFails, IsChecked, HasHash};
ghost use Rattle.verifier_core.specs.Asking.{IsEarlyOrSigned};
ghost use Rattle.verifier_core.specs.Verdicts.{IsCheckedAs};
ghost use Rattle.verifier_core.specs.Check.{OnFault, IsUnopened, IsContent, OfToken, IsOpening, IsSigned, process_fault, judged_of};

use crate::check_signed::{check_signed, fails};
use crate::given_reading::read_given;
use crate::payload_reading::read_payload;
use crate::token_checking::fails_at;
use crate::{Rules, VerifyError};
use claim_tree::Tree;
use digest_index::Steps;
use digest_sites::GivenList;
use disclosure::{DisclosureReader, HashAlg};
use json_form::TokenView;
use marked_tree::Marked;
use rebuild_core::{ProcessError, process_payload, process_seeded, seed_of};
use refusals::Condition;
use std::alloc::Global;
use std::marker::Model;

/// The content of a token that passes the conditions 5 to 13: its payload, the algorithm of its
/// digests, and its disclosures. [`Content::open`] or [`Content::open_payload`] opens it.
#[derive(Drop)]
pub struct Content {
    body: Tree,
    hash: HashAlg,
    given: GivenList,
    // By which digests are hashed, so that it costs no more to look up some of them than others.
    seed: u64,
}

impl Model for Content {
    ghost use Rattle.verifier_core.specs.Content.{Content as Seen, content_code};

    ghost Value = { Seen };

    ghost coded = { content_code };

    ghost use Rattle.claim_tree.specs.View.{tree_of};
    ghost use Rattle.verifier_core.specs.Content.{IsReadyToOpen};

    ghost view = { λ c. record { body = tree_of c.body; hash = c.hash; given = c.given } };

    ghost invariant = { λ c. IsReadyToOpen (tree_of c.body) c.given };
}

fn refusal(error: ProcessError) -> VerifyError
    ensures { result ≡ process_fault error }
{
    match error {
        ProcessError::Memory => VerifyError::Memory,
        ProcessError::RepeatedDisclosure(i) => fails_at(Condition::RepeatedDisclosure, i),
        ProcessError::ReservedMisused(i) => fails_at(Condition::ReservedMisused, i),
        ProcessError::RepeatedDigest(i) => fails_at(Condition::RepeatedDigest, i),
        ProcessError::Unreferenced(i) => fails_at(Condition::UnreferencedDisclosure, i),
        ProcessError::WrongShape(i) => fails_at(Condition::WrongShape, i),
        ProcessError::ReservedName(i) => fails_at(Condition::ReservedName, i),
        ProcessError::NameClash(i) => fails_at(Condition::NameClash, i),
        ProcessError::TooDeep => fails(Condition::TooDeep),
    }
}

// Turns a result of processing into a result of verifying.
fn judged<T>(processed: Result<T, ProcessError>) -> Result<T, VerifyError>
    ensures { result ≡ judged_of processed }
{
    match processed {
        Ok(shown) => Ok(shown),
        Err(error) => Err(refusal(error)),
    }
}

impl Content {
    /// Judges a token by the conditions 5 to 13, RFC 9901 section 7.3, and reads its content. The
    /// header, the signature, the payload and the disclosures are judged in this order, and the
    /// error is the first condition that fails. A caller that keeps the reader reads many tokens in
    /// the same memory.
    pub fn read(
        alloc: Global,
        reader: &mut DisclosureReader,
        token: &TokenView<'_>,
        rules: &Rules<'_>,
    ) -> Result<Content, VerifyError>
        requires few { length token.now.parts.disclosures < 2 ^ 32 - 1 }
        ensures content { IfOk result (IsContent token.now rules.now) }
        ensures refused { IfErr result
            (λ e. OnFault e (IsLowest (TokenFails token.now rules.now))) }
        ensures unopened { IfErr result (λ e. OnFault e IsUnopened) }

        // whose signature is good
        ensures signed { OnOk result (IsSigned token.now.parts.signed token.now.outer rules.now) }
        ensures early { IfErr result (λ e. OnFault e (IsEarlyOrSigned token.now rules.now)) }
    {
        let signed = token.signed();
        if let Err(error) = check_signed(alloc, &mut reader.json, signed, token.outer(), rules) {
            return Err(error);
        }
        let (body, hash) = match read_payload(alloc, &mut reader.json, signed.payload) {
            Ok(read) => read,
            Err(error) => return Err(error),
        };
        let given = match read_given(alloc, reader, hash, token.count(), token.disclosures()) {
            Ok(given) => given,
            Err(error) => return Err(error),
        };
        let seed = seed_of(signed.signature, &given);
        Ok(Content {
            body,
            hash,
            given,
            seed,
        })
    }

    /// Returns the algorithm of the token's digests.
    pub fn hash(&self) -> HashAlg
        ensures { OfToken self.now (λ token rules. HasHash token result) }
    {
        self.hash
    }

    /// Judges the content by the conditions 14 to 21, and returns the processed payload, in which
    /// each node that a disclosure shows has the number of the disclosure. `steps` counts the
    /// look-ups of digests.
    pub fn open(self, alloc: Global, steps: &mut Steps) -> Result<Marked, VerifyError>
        ensures checked { OfToken self
            (λ token rules. IfOk result (λ marked. IsChecked token rules (marked_of marked))) }
        ensures shallow { IfOk result
            (λ marked. depth (strip_of (marked_of marked)) ≤ json_depth_max) }
        ensures opened { OfToken self
            (λ token rules. IsOpening token rules result steps.old steps.new) }
    {
        judged(process_seeded(alloc, self.body, self.given, self.seed, steps))
    }

    /// Judges the content as [`Content::open`] does, and returns the processed payload without
    /// marks. Neither call copies the signed payload or the values of the disclosures.
    pub fn open_payload(self, alloc: Global, steps: &mut Steps) -> Result<Tree, VerifyError>
        ensures checked { OfToken self
            (λ token rules. IfOk result (λ payload. IsCheckedAs token rules (tree_of payload))) }
        ensures opened { OfToken self
            (λ token rules. IsOpening token rules result steps.old steps.new) }
    {
        judged(process_payload(alloc, self.body, self.given, self.seed, steps))
    }
}
