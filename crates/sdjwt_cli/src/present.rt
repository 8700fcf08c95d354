// The command `present`: the compact text of what a holder shows of a token.
ghost use Rattle.std.specs.Prelude.{◌≡◌, ◌≢◌, ◌≤◌, ℕ, List, length, IfOk, IfErr, string_bytes, codes};
ghost use Rattle.compact_form.specs.Compact.{AreWords, compact};
ghost use Rattle.sd_outside.specs.Limits.{compact_max};
ghost use Rattle.hmac_sign.specs.Hmac.{IsGood, hs256_key};
ghost use Rattle.holder_core.specs.Asked.{asked_by};
ghost use Rattle.holder_core.specs.Present.{IsPresented, IsNotPresented};
ghost use Rattle.holder_core.specs.PresentFile.{IsPresentFileRefused, IsPresentFile};
ghost use Rattle.holder_core.specs.declared.errors.PresentError.{PresentError};
ghost use Rattle.selection_core.specs.Never.{Judges, never_rule};
ghost use Rattle.sdjwt_cli.specs.Presenting.{signing_key, Presents, DoesNotPresent};
ghost use Rattle.sdjwt_cli.specs.PresentingSteps.{IsLineOf, IsRefusalOf};
ghost use Rattle.cli_parts.specs.Stops.{OnRefused, OnUnreadable, NotUnread, NotUnreadable};
ghost use Rattle.cli_parts.specs.Lines.{line};
ghost use Rattle.cli_parts.specs.Telling.{TellsFileFault};

use claim_tree::{Path, PathList};
use cli_parts::{Stop, as_line, readable};
use compact_form::{Parts, print};
use digest_index::Steps;
use hmac_sign::{Hs256Key, KeyShort};
use holder_core::{Ask, PresentError, PresentFile, read_present, refusal_line};
use selection_core::{Consent, NeverPlaces};
use std::alloc::Global;

// The key that signs: one of zeros where no key binding token is asked for, which signs nothing.
fn signer(key: Option<Hs256Key>) -> Hs256Key
    ensures { result ≡ signing_key key }
{
    if let Some(key) = key {
        return key;
    }
    match Hs256Key::new(&[0; 32]) {
        Ok(key) => key,
        Err(KeyShort) => unreachable!(),
    }
}

// What is presented of a token where no place is shown to which a path of `never` leads.
pub(crate) fn present_parts(
    alloc: Global,
    token_file: &[u8],
    ask: &Ask,
    never: PathList,
    key: &mut Hs256Key,
    now: u64,
) -> Result<Parts, PresentError>
    ensures presented { IfOk result
        (IsPresented never_rule never token_file.now (asked_by ask.now) (codes "HS256")
        (IsGood (hs256_key key.old)) now) }
    ensures words { IfOk result AreWords }
    ensures short { IfOk result (λ parts. length (compact parts) ≤ compact_max) }
    ensures refused { IfErr result
        (IsNotPresented never_rule never token_file.now (asked_by ask.now) (codes "HS256")
        (IsGood (hs256_key key.old)) now) }
    ensures signed { IfErr result (λ error. error ≢ PresentError.SignFailed) }
{
    let never = NeverPlaces::of(never)?;
    let consent = Consent::new(
        |place: &Path|
            ensures { Judges never place.now result }
        { never.may_be_shown(place) },
    );
    let mut steps = Steps::new();
    holder_core::present(alloc, token_file, ask, &consent, key, now, &mut steps)
}

// The line of what is presented, or of the refusal.
fn told(alloc: Global, presented: Result<Parts, PresentError>) -> Result<String, Stop>
    requires words { IfOk presented AreWords }
    ensures presents { IfOk result (λ text. IsLineOf presented (string_bytes text)) }
    ensures refuses { IfErr result (λ stop. OnRefused stop (IsRefusalOf presented)) }
    ensures readable { IfErr result NotUnreadable }
    ensures read { IfErr result NotUnread }
{
    match presented {
        Ok(parts) => Ok(as_line(print(alloc, &parts)?)?),
        Err(PresentError::Memory) => Err(Stop::Memory),
        Err(error) => Err(Stop::Refused(as_line(refusal_line(alloc, &error)?)?)),
    }
}

// The answer for what a present order says, of whatever file.
fn present_for(
    alloc: Global,
    said: PresentFile,
    token_file: &[u8],
    now: u64,
) -> Result<String, Stop>
    ensures presents { (file : List ℕ) → IsPresentFile file said
        → IfOk result (λ text. Presents file token_file.now now (string_bytes text)) }
    ensures refuses { (file : List ℕ) → IsPresentFile file said
        → IfErr result (λ stop. OnRefused stop (DoesNotPresent file token_file.now now)) }
    ensures readable { IfErr result NotUnreadable }
    ensures read { IfErr result NotUnread }
{
    let PresentFile { ask, never, key } = said;
    let mut key = signer(key);
    let presented = present_parts(alloc, token_file, &ask, never, &mut key, now);
    told(alloc, presented)
}

/// The answer to an order file and a token file, at a moment.
pub fn present(
    alloc: Global,
    order_file: &[u8],
    token_file: &[u8],
    now: u64,
) -> Result<String, Stop>
    ensures presents { IfOk result
        (λ text. Presents order_file.now token_file.now now (string_bytes text)) }
    ensures refuses { IfErr result
        (λ stop. OnRefused stop (DoesNotPresent order_file.now token_file.now now)) }
    ensures unreadable { IfErr result
        (λ stop. OnUnreadable stop (TellsFileFault (IsPresentFileRefused order_file.now))) }
    ensures read { IfErr result NotUnread }
{
    let said = readable(alloc, read_present(alloc, order_file))?;
    present_for(alloc, said, token_file, now)
}
