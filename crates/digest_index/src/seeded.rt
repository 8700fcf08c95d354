// The hasher of an index, with a seed that its maker gives.
use std::hash::{BuildHasher, DefaultHasher, Hasher};

/// Makes hashers that stand behind a seed. They are SipHash-1-3, so that which
/// keys collide can't be known without the seed.
#[derive(Clone, Copy, Debug)]
pub struct Seeded {
    start: DefaultHasher,
}

impl Seeded {
    /// Hashes that begin with this seed. No contract speaks of it: it changes no answer of a set.
    pub fn new(seed: u64) -> Seeded {
        let mut start = DefaultHasher::new();
        start.write_u64(seed);
        Seeded { start }
    }
}

impl BuildHasher for Seeded {
    type Hasher = DefaultHasher;

    ghost build_hasher = { λ s. s.start };

    fn build_hasher(&self) -> DefaultHasher {
        self.start
    }
}
