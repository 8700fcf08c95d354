// The second part: how a token is written.
ghost use Rattle.std.specs.Prelude.{◌≡◌, ◌≤◌, ◌<◌, ◌↔◌, List, length, IfOk, IfSome, IfNone, IsTrue};
ghost use Rattle.std.specs.List.{AllZip};
ghost use Rattle.sd_outside.specs.Limits.{json_depth_max};
ghost use Rattle.claim_tree.specs.Tree.{Tree as SeenTree, depth as depth_of};
ghost use Rattle.claim_tree.specs.View.{tree_of};
ghost use Rattle.digest_sites.specs.Given.{Given as SeenGiven};
ghost use Rattle.digest_sites.specs.GivenView.{given_of};
ghost use Rattle.rebuild_core.specs.Answer.{IsPayload, ValuesShallow};
ghost use Rattle.rebuild_core.specs.Payload.{without_alg as without_alg_of};
ghost use Rattle.audit_core.specs.Audited.{IsWrittenAs, GivesSalted};
ghost use Rattle.audit_core.specs.AuditSteps.{NamesHash, IsUnsalted, HasUnsalted, IsOtherPayload, IsWrittenWith};

use crate::json_parts::JsonPartReader;
use claim_tree::{Tree, get};
use digest_sites::{Given, GivenList};
use disclosure::{Disclosed, HashAlg, digest};
use json_form::{Disclosures, TokenView};
use rebuild_core::{seed_of, without_alg};
use sd_outside::NoMemory;
use std::alloc::Global;

// What is read of a token that is written as it is to be.
#[derive(Debug, Drop)]
pub(crate) struct Written {
    pub(crate) body: Tree,
    pub(crate) given: GivenList,
    // By which digests are hashed, so that it costs no more to look up some of them than others.
    pub(crate) seed: u64,
}

// The same, with the payload without its own `_sd_alg`.
pub(crate) fn bare(written: Written) -> Written
    ensures body { tree_of result.body ≡ without_alg_of (tree_of written.body) }
    ensures given { result.given ≡ written.given }
{
    let Written { body, given, seed } = written;
    Written {
        body: without_alg(body),
        given,
        seed,
    }
}

// What a text gives, where it is a disclosure that is written so and has a salt of 16 bytes.
fn read_one(
    alloc: Global,
    hash: HashAlg,
    reader: &mut JsonPartReader,
    text: &str,
) -> Result<Option<Given>, NoMemory>
    ensures some { IfOk result
        (λ given. IfSome given (λ g. GivesSalted hash text.now (given_of g))) }
    ensures depth { IfOk result
        (λ given. IfSome given (λ g. depth_of (tree_of g.value) ≤ json_depth_max)) }
    ensures none { IfOk result (λ given. IfNone given (IsUnsalted text.now)) }
{
    let Some(Disclosed { name, value }) = reader.read_salted(alloc, text)? else {
        return Ok(None);
    };
    Ok(Some(Given {
        digest: digest(alloc, hash, text)?,
        name,
        value,
    }))
}

// What the disclosures give, where each is such. They are so many.
fn read_given(
    alloc: Global,
    hash: HashAlg,
    count: usize,
    reader: &mut JsonPartReader,
    disclosures: Disclosures<'_>,
) -> Result<Option<GivenList>, NoMemory>
    ensures some { IfOk result (λ read. IfSome read (AllZip (GivesSalted hash) disclosures.entry)) }
    ensures shallow { IfOk result (λ read. IfSome read ValuesShallow) }
    ensures none { IfOk result (λ read. IfNone read (HasUnsalted hash disclosures.entry)) }
{
    let mut given = GivenList::with_capacity(alloc, count)?;
    for text in disclosures {
        match read_one(alloc, hash, reader, text)? {
            Some(one) => given.push(one)?,
            None => return Ok(None),
        }
    }
    Ok(Some(given))
}

// Whether the payload names the hash.
fn names_hash(body: &Tree, hash: HashAlg) -> bool
    ensures { IsTrue result ↔ NamesHash hash (tree_of body.now) }
{
    match get(body, "_sd_alg") {
        Some(Tree::Text(name)) => name.as_str() == hash.name(),
        _ => false,
    }
}

// The payload, where it is the text of one that names the hash.
fn read_payload(
    alloc: Global,
    hash: HashAlg,
    reader: &mut JsonPartReader,
    part: &str,
) -> Result<Option<Tree>, NoMemory>
    ensures some { IfOk result (λ read. IfSome read (λ body. IsWrittenAs part.now (tree_of body))) }
    ensures hash { IfOk result (λ read. IfSome read (λ body. NamesHash hash (tree_of body))) }
    ensures object { IfOk result (λ read. IfSome read (λ body. IsPayload (tree_of body))) }
    ensures depth { IfOk result
        (λ read. IfSome read (λ body. depth_of (tree_of body) ≤ json_depth_max)) }
    ensures none { IfOk result (λ read. IfNone read (IsOtherPayload hash part.now)) }
{
    let Some(body) = reader.read(alloc, part)? else {
        return Ok(None);
    };
    if !names_hash(&body, hash) {
        return Ok(None);
    }
    Ok(Some(body))
}

// What is read of a token, where it is written with this hash and has so many disclosures.
pub(crate) fn read_written(
    alloc: Global,
    hash: HashAlg,
    hidden: u32,
    token: &TokenView<'_>,
) -> Result<Option<Written>, NoMemory>
    ensures some { IfOk result
        (λ read.
        IfSome read (λ w. IsWrittenWith hash hidden token.now.parts (tree_of w.body) w.given)) }
    ensures object { IfOk result (λ read. IfSome read (λ w. IsPayload (tree_of w.body))) }
    ensures depth { IfOk result
        (λ read. IfSome read (λ w. depth_of (tree_of w.body) ≤ json_depth_max)) }
    ensures shallow { IfOk result (λ read. IfSome read (λ w. ValuesShallow w.given)) }
    ensures count { IfOk result (λ read. IfSome read (λ w. length w.given ≡ hidden)) }
    ensures none { IfOk result
        (λ read. IfNone read
        ((body : SeenTree) (given : List SeenGiven)
        → IsWrittenWith hash hidden token.now.parts body given → ⊥)) }
{
    let count = token.count();
    if count != hidden as usize {
        return Ok(None);
    }
    let mut reader = JsonPartReader::new(alloc);
    let signed = token.signed();
    let Some(body) = read_payload(alloc, hash, &mut reader, signed.payload)? else {
        return Ok(None);
    };
    match read_given(alloc, hash, count, &mut reader, token.disclosures())? {
        Some(given) => Ok(Some(Written {
            body,
            seed: seed_of(signed.signature, &given),
            given,
        })),
        None => Ok(None),
    }
}
