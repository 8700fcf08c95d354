// Tests of numbered texts and their seeds.
use digest_index::{DigestIndex, Steps};
use sd_outside::NoMemory;
use std::alloc::Global;
use std::test::Fail;

// Texts with blanks between them, one of which is empty, that differ by little.
const ALIKE: &str =
    "jsu9yVulwQQlhFlM_3JlzMaSFzglhQG0DpfayQwLUK4  jsu9yVulwQQlhFlM_3JlzMaSFzglhQG0DpfayQwLUK5 JSU9YVULWQQLHFLM_3JLZMASFZGLHQG0DPFAYQWLUK4 jsu9yVulwQQlhFlM_3JlzMaSFzglhQG0DpfayQwLUK \0 Möbius Mo\u{308}bius";

// The numbers below 1000, with a blank behind each.
fn numbers(alloc: Global) -> Result<String, NoMemory> {
    let mut all = String::new(alloc);
    for number in 0..1000 {
        all.push_str(format!(in alloc; "{number} ")?.as_str())?;
    }
    Ok(all)
}

// Whether the pieces of a text have the positions in which they stand, and others have none.
fn are_numbered<'a>(
    index: &mut DigestIndex<'a>,
    steps: &mut Steps,
    all: &'a str,
) -> Result<bool, NoMemory> {
    for (i, text) in all.split(' ').enumerate() {
        if index.intern(text, steps)? != i || index.find(text, steps) != Some(i) {
            return Ok(false);
        }
    }
    Ok(index.find("Mobius", steps).is_none() && index.find("jsu9", steps).is_none())
}

// Whether an index numbers so many pieces of a text by first sight, with so many look-ups.
fn is_kept<'a>(
    index: DigestIndex<'a>,
    all: &'a str,
    count: usize,
    look_ups: u64,
) -> Result<bool, NoMemory> {
    let mut index = index;
    let mut steps = Steps::new();
    let first = are_numbered(&mut index, &mut steps, all)?;
    let again = are_numbered(&mut index, &mut steps, all)?;
    Ok(first && again && index.len() == count && steps.count() == look_ups)
}

// The same of an index with a seed and of the numbers.
fn is_seeded(alloc: Global, seed: u64, all: &str) -> Result<bool, NoMemory> {
    let index = DigestIndex::with_seed(alloc, 10, seed)?;
    // the last piece is empty
    is_kept(index, all, 1001, 4008)
}

#[test]
fn texts_are_numbered_by_first_sight_under_each_seed(rt: HostRuntime) -> Result<(), Fail> {
    assert!(rt; is_kept(DigestIndex::new(rt.alloc()), ALIKE, 8, 36) == Ok(true));
    let all = numbers(rt.alloc())?;
    for seed in [0, 1, 0x8000_0000_0000_0000, 0xffff_ffff_ffff_ffff] {
        assert!(rt;
            is_seeded(rt.alloc(), seed, all.as_str()) == Ok(true),
            "{seed}"
        );
    }
    Ok(())
}
