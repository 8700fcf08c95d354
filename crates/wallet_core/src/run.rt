// A run of the wallet.
ghost use Rattle.std.specs.Prelude.{◌≡◌, ◌≤◌, ℕ, List, ◌∷◌, map, IfOk, IfErr, IsErrOf, string_bytes};
ghost use Rattle.std.specs.List.{AllZip};
ghost use Rattle.sd_outside.specs.Causes.{Rose};
ghost use Rattle.cli_parts.specs.Outside.{outside};
ghost use Rattle.cli_parts.specs.Runs.{IsFetched, MissesWord, RunKeeps};
ghost use Rattle.cli_parts.specs.Stops.{IsReply, OnUnread, NotRefused, NotUnread, NotUnreadable};
ghost use Rattle.compact_form.specs.Compact.{AreWords};
ghost use Rattle.selection_core.specs.Never.{Judges, never_rule};
ghost use Rattle.wallet_core.specs.Meets.{Meets};
ghost use Rattle.wallet_core.specs.Picked.{IsPicked, IsFewest, HasNoAnswer};
ghost use Rattle.wallet_core.specs.WalletRun.{PicksFromFiles, WalletAnswers, WalletEnds, none_text, picked_text};
ghost use Rattle.wallet_core.specs.declared.error.WalletError.TheVariants.{NoAnswer};

use crate::words::wallet_words;
use crate::{CredentialList, Picked, Query, QueryFile, WalletError, answer, read_query};
use claim_tree::{Path, PathList};
use cli_parts::{FETCH_MAX, Stop, as_line, end_run, fetch_file, readable, tell};
use compact_form::print;
use digest_index::Steps;
use refusals::{Place, Refusal, placed_line};
use sd_outside::{Cabinet, NoMemory, Sink, Status};
use selection_core::{Consent, NeverPlaces};
use std::alloc::Global;

// The token files of these names, which stand behind that of the query file.
fn fetch_tokens<C: Cabinet>(
    alloc: Global,
    cab: &mut C,
    names: &[String],
) -> Result<CredentialList, Stop>
    ensures all { IfOk result
        (λ held. AllZip (IsFetched (C.holds cab.old)) (map string_bytes names.now) held) }
    ensures refuses { IfErr result NotRefused }
    ensures unreadable { IfErr result NotUnreadable }
    ensures unread { IfErr result
        (λ stop. OnUnread stop
        (λ word. (query : List ℕ)
        → MissesWord (query ∷ map string_bytes names.now) word (C.missed cab.new))) }
    ensures rose { IfErr result
        (λ stop. OnUnread stop (λ _. Rose (C.faults cab.old) (C.faults cab.new))) }
    ensures held { (other : List ℕ) → C.holds cab.new other ≡ C.holds cab.old other }
    ensures later { C.faults cab.old ≤ C.faults cab.new }
{
    let mut held = CredentialList::new(alloc);
    for (k, name) in names.iter().enumerate() {
        let file = fetch_file(alloc, cab, name.as_str(), FETCH_MAX, k + 1)?;
        held.push(file)?;
    }
    Ok(held)
}

// The answer where no place is shown to which a path of `never` leads.
fn answer_shown(
    alloc: Global,
    held: &CredentialList,
    query: &Query,
    never: PathList,
) -> Result<Picked, WalletError>
    ensures picked { IfOk result (IsPicked (Meets never_rule never) held.now query.now) }
    ensures fewest { IfOk result (IsFewest never_rule never held.now query.now) }
    ensures words { IfOk result (λ choice. AreWords choice.parts) }
    ensures none { IsErrOf result NoAnswer → HasNoAnswer never_rule never held.now query.now }
{
    let never = NeverPlaces::of(never)?;
    let consent = Consent::new(
        |place: &Path|
            ensures { Judges never place.now result }
        { never.may_be_shown(place) },
    );
    let mut steps = Steps::new();
    answer(alloc, held, query, &consent, &mut steps)
}

// The lines of a credential that is picked.
fn picked_lines(alloc: Global, choice: &Picked) -> Result<String, NoMemory>
    requires words { AreWords choice.now.parts }
    ensures { IfOk result (λ text. string_bytes text ≡ picked_text choice.now) }
{
    let index = choice.index;
    let mut lines = format!(in alloc; "credential {index}\n")?;
    lines.push_str(print(alloc, &choice.parts)?.as_str())?;
    lines.push_str("\n")?;
    Ok(lines)
}

// The line that tells that no credential answers.
fn none_line(alloc: Global) -> Result<String, NoMemory>
    ensures { IfOk result (λ text. string_bytes text ≡ none_text) }
{
    as_line(placed_line(alloc, Refusal::NoCredentialAnswers, Place::Nowhere)?)
}

/// The answer to a query file over token files: the position of the credential that answers the
/// query with the fewest disclosures, and the compact text of what it presents.
pub fn answer_files(alloc: Global, query_file: &[u8], held: &CredentialList) -> Result<String, Stop>
    ensures replies { IsReply (WalletAnswers query_file.now held.now) result }
    ensures read { IfErr result NotUnread }
{
    let said = readable(alloc, read_query(alloc, query_file))?;
    let QueryFile { query, never } = said;
    match answer_shown(alloc, held, &query, never) {
        Ok(choice) => Ok(picked_lines(alloc, &choice)?),
        Err(WalletError::Memory) => Err(Stop::Memory),
        Err(WalletError::NoAnswer) => Err(Stop::Refused(none_line(alloc)?)),
    }
}

// The answer over the files that the cabinet has under the names.
fn fetch_answer<C: Cabinet>(
    alloc: Global,
    cab: &mut C,
    query: &str,
    tokens: &[String],
) -> Result<String, Stop>
    ensures replies { IsReply
        (PicksFromFiles (C.holds cab.old) query.now (map string_bytes tokens.now)) result }
    ensures misses { IfErr result
        (λ stop. OnUnread stop
        (λ word.
        MissesWord (query.now ∷ map string_bytes tokens.now) word (C.missed cab.new))) }
    ensures rose { IfErr result
        (λ stop. OnUnread stop (λ _. Rose (C.faults cab.old) (C.faults cab.new))) }
    ensures held { (other : List ℕ) → C.holds cab.new other ≡ C.holds cab.old other }
    ensures later { C.faults cab.old ≤ C.faults cab.new }
{
    let file = fetch_file(alloc, cab, query, FETCH_MAX, 0)?;
    let held = fetch_tokens(alloc, cab, tokens)?;
    answer_files(alloc, file.bytes(), &held)
}

/// Runs the wallet that the words ask for: `wallet`, the name of a query file,
/// and those of 1 to 64 token files.
///
/// The position of the credential that answers the query with the fewest disclosures goes to `out`,
/// and the compact text of what it presents, in one piece. What each status says of the outside
/// before and after is `WalletEnds`, by cases.
pub fn run_wallet<C: Cabinet, O: Sink, E: Sink>(
    alloc: Global,
    words: &[String],
    cab: &mut C,
    out: &mut O,
    err: &mut E,
) -> Status
    ensures ends { WalletEnds (map string_bytes words.now)
        (outside C.Cabinet O.Sink E.Sink cab.old out.old err.old)
        (outside C.Cabinet O.Sink E.Sink cab.new out.new err.new) result }
    ensures keeps { RunKeeps (outside C.Cabinet O.Sink E.Sink cab.old out.old err.old)
        (outside C.Cabinet O.Sink E.Sink cab.new out.new err.new) }
{
    let Some((query, tokens)) = wallet_words(words) else {
        return tell(err, "usage\n", Status::Usage);
    };
    end_run(alloc, fetch_answer(alloc, cab, query, tokens), out, err)
}
