// A signer that keeps what it is asked to sign, and what a rule of consent keeps.
ghost use Rattle.hmac_sign.specs.Algs.{alg_text};
ghost use Rattle.hmac_sign.specs.declared.alg.Alg.TheVariants.{Hs256};

use claim_tree::Path;
use hmac_sign::{AlgName, Hs256Key, SignError, Signatures, Signer};
use sd_outside::ByteBox;
use std::alloc::Global;
use std::cell::Cell;
use std::process::Abort;

// The key of 32 bytes 2, or one that fails to sign.
#[derive(Drop)]
pub(crate) struct Recorder {
    key: Hs256Key,
    fails: bool,
    faults: u64,
    // each text that it was asked to sign, behind a blank
    pub(crate) asked: String,
}

impl Recorder {
    pub(crate) fn new(rt: &impl Abort, alloc: Global, fails: bool) -> Recorder {
        Recorder {
            key: Hs256Key::new(&[2; 32]).expect(rt, "a key"),
            fails,
            faults: 0,
            asked: String::new(alloc),
        }
    }
}

// Each signature counts as good, since nothing is proved of these.
impl Signatures for Recorder {
    ghost good = { λ _ _ _ _. Unit };
}

// Where there is no memory to keep a text, a test misses it.
impl Signer for Recorder {
    ghost faults = { λ s. s.faults };

    ghost alg_name_of = { λ _. alg_text Hs256 };

    fn alg_name(&self) -> AlgName<'_> {
        self.key.alg_name()
    }

    fn sign(&mut self, alloc: Global, head: &str, body: &str) -> Result<ByteBox, SignError> {
        let _ = self.asked.push_str(" ");
        let _ = self.asked.push_str(head);
        let _ = self.asked.push_str(".");
        let _ = self.asked.push_str(body);
        if self.fails {
            self.faults = self.faults.saturating_add(1);
            return Err(SignError::Failed);
        }
        self.key.sign(alloc, head, body)
    }
}

// Notes a place that a rule is asked for: the digits of the number are the depths of the places.
pub(crate) fn noted(places: &Cell<u64>, place: &Path) -> bool {
    let depth = place.len() as u64;
    places.set(places.get().saturating_mul(10).saturating_add(depth));
    true
}
