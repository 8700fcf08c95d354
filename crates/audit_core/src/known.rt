// The digests of disclosures, to be looked up.
ghost use Rattle.std.specs.Prelude.{◌≡◌, ◌||◌, IfOk, OnOk, bytes_eq};
ghost use Rattle.claim_tree.specs.Tree.{Text};
ghost use Rattle.audit_core.specs.Audited.{is_given};
ghost use Rattle.audit_core.specs.Strange.{is_in};

use digest_index::Seeded;
use digest_sites::GivenList;
use sd_outside::NoMemory;
use std::alloc::Global;
use std::collections::HashSet;

// Puts a digest among those, unless it is there.
fn add<'a>(digests: &mut HashSet<&'a str, Seeded>, digest: &'a str) -> Result<(), NoMemory>
    ensures { OnOk result
        ((other : Text)
        → is_in digests.new.keys other
        ≡ (bytes_eq other digest.now || is_in digests.old.keys other)) }
{
    digests.insert(digest)?;
    Ok(())
}

pub(crate) fn has(digests: &HashSet<&str, Seeded>, digest: &str) -> bool
    ensures { result ≡ is_in digests.now.keys digest.now }
{
    digests.contains(digest)
}

// The digests of the disclosures, hashed with the seed.
pub(crate) fn digests_of<'a>(
    alloc: Global,
    given: &'a GivenList,
    seed: u64,
) -> Result<HashSet<&'a str, Seeded>, NoMemory>
    ensures { IfOk result
        (λ set. (digest : Text) → is_in set.keys digest ≡ is_given given.now digest) }
{
    let mut digests = HashSet::with_capacity_and_hasher(alloc, given.len(), Seeded::new(seed))?;
    for one in given.items() {
        add(&mut digests, one.digest.as_str())?;
    }
    Ok(digests)
}
