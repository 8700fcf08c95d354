// Digests that are equal.
ghost use Rattle.std.specs.Prelude.{IfOk, IfSome, IfNone};
ghost use Rattle.sd_outside.specs.Lists.{Repeats, AtNone};
ghost use Rattle.issuer_core.specs.Clash.{IsFirstClash};

use digest_index::{DigestIndex, Steps};
use sd_outside::{NoMemory, TextList};
use std::alloc::Global;

/// The places of two texts that are equal: the first whose text stands earlier as well, and where
/// it first does, the earlier place first. Each text costs one look-up.
pub fn first_clash(alloc: Global, digests: &TextList) -> Result<Option<(usize, usize)>, NoMemory>
    ensures clash { IfOk result
        (λ clash. IfSome clash (λ places. IsFirstClash digests.now places.0 places.1)) }
    ensures none { IfOk result (λ clash. IfNone clash (AtNone (Repeats digests.now))) }
{
    let mut index = DigestIndex::with_seed(alloc, digests.len(), 0)?;
    let mut steps = Steps::new();
    for j in 0..digests.len() {
        let digest = digests.at(j).unwrap();
        let i = index.intern(digest.as_str(), &mut steps)?;
        if i < j {
            return Ok(Some((i, j)));
        }
    }
    Ok(None)
}
