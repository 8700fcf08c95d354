// What the disclosures of a token give.
ghost use Rattle.std.specs.Prelude.{◌≡◌, ◌<◌, ◌^◌, length, IfOk, IfErr, OnOk};
ghost use Rattle.std.specs.List.{AllZip};
ghost use Rattle.rebuild_core.specs.Answer.{ValuesShallow};
ghost use Rattle.disclosure.specs.DisclosureRefusals.{IsDisclosureRefused};
ghost use Rattle.verifier_core.specs.Verdict.{Gives};
ghost use Rattle.verifier_core.specs.Check.{OnFault, Adds, IsUnreadAt, unread_at};

use crate::token_checking::{VerifyError, fails_at};
use digest_sites::{Given, GivenList};
use disclosure::{DisclosureError, DisclosureReader, HashAlg, digest};
use json_form::Disclosures;
use refusals::Condition;
use std::alloc::Global;

// Reads one more disclosure.
fn push_given(
    alloc: Global,
    hash: HashAlg,
    reader: &mut DisclosureReader,
    given: &mut GivenList,
    text: &str,
) -> Result<(), DisclosureError>
    ensures ok { OnOk result (Adds hash text.now given.old given.new) }
    ensures refused { IfErr result (IsDisclosureRefused text.now) }
{
    let disclosed = reader.read_disclosed(alloc, text)?;
    given.push(Given {
        digest: digest(alloc, hash, text)?,
        name: disclosed.name,
        value: disclosed.value,
    })?;
    Ok(())
}

fn unread(i: usize, error: DisclosureError) -> VerifyError
    ensures { result ≡ unread_at i error }
{
    match error {
        DisclosureError::Memory => VerifyError::Memory,
        _ => fails_at(Condition::DisclosureUnreadable, i),
    }
}

// Condition 13. There is memory for so many at first.
pub(crate) fn read_given(
    alloc: Global,
    reader: &mut DisclosureReader,
    hash: HashAlg,
    count: usize,
    disclosures: Disclosures<'_>,
) -> Result<GivenList, VerifyError>
    requires { length disclosures < 2 ^ 64 }
    ensures ok { IfOk result (AllZip (Gives hash) disclosures.entry) }
    ensures shallow { IfOk result ValuesShallow }
    ensures refused { IfErr result (λ e. OnFault e (IsUnreadAt hash disclosures.entry)) }
{
    let mut given = GivenList::with_capacity(alloc, count)?;
    for (i, text) in disclosures.enumerate() {
        if let Err(error) = push_given(alloc, hash, reader, &mut given, text) {
            return Err(unread(i, error));
        }
    }
    Ok(given)
}
