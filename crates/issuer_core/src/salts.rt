// Salts from a seed, RFC 9901 section 4.2.1: the words of a ChaCha20 stream, four at a time.
ghost use Rattle.std.specs.Prelude.{◌≡◌, ◌+◌, ◌<◌, ◌^◌, ℕ, List, Some, length, IfOk, slice_get};
ghost use Rattle.issuer_core.specs.Salts.{salt_piece, salt_of};
ghost use Rattle.issuer_core.specs.SaltSteps.{IsBeforePiece};

use b64url_text::encode;
use rand_chacha::ChaCha20Rng;
use rand_core::SeedableRng;
use rand_core::utils::NextWord;
use sd_outside::{NoMemory, TextList};
use std::alloc::Global;

// The next four words, each as four bytes with the lowest first.
fn next_piece(rng: &mut ChaCha20Rng) -> [u8; 16]
    ensures { (seed : List ℕ) → (k : ℕ) → k < 2 ^ 64 → IsBeforePiece rng.old seed k
        → (result ≡ salt_piece seed k) × IsBeforePiece rng.new seed (k + 1) }
{
    let [a0, a1, a2, a3] = rng.next_word().to_le_bytes();
    let [b0, b1, b2, b3] = rng.next_word().to_le_bytes();
    let [c0, c1, c2, c3] = rng.next_word().to_le_bytes();
    let [d0, d1, d2, d3] = rng.next_word().to_le_bytes();
    [
        a0, a1, a2, a3, b0, b1, b2, b3, c0, c1, c2, c3, d0, d1, d2, d3,
    ]
}

// The first salts of a seed.
pub(crate) fn salts_of(alloc: Global, seed: &[u8; 32], count: usize) -> Result<TextList, NoMemory>
    ensures count { IfOk result (λ salts. length salts ≡ count) }
    ensures each { IfOk result
        (λ salts. (k : ℕ) → k < count → slice_get salts k ≡ Some (salt_of seed.now k)) }
{
    let mut rng = ChaCha20Rng::from_seed(*seed);
    let mut salts = TextList::new(alloc);
    for _ in 0..count {
        let piece = next_piece(&mut rng);
        salts.push(encode(alloc, &piece)?)?;
    }
    Ok(salts)
}
