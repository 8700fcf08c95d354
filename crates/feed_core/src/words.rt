// The words of a feed.
ghost use Rattle.std.specs.Prelude.{◌≡◌, ◌≢◌, ◌<◌, ◌≤◌, ℕ, List, [], ◌∷◌, None, map, IfSome, string_bytes};
ghost use Rattle.std.specs.Fmt.{decimal};
ghost use Rattle.sd_outside.specs.Limits.{feed_max};
ghost use Rattle.feed_core.specs.FeedRun.{IsFeed};

use claim_tree::position;

// The most bytes that a feed may be asked to take.
const MOST_MAX: usize = 1_073_741_824;

// A number of bytes that a feed may be asked to take, from 1 on.
fn within_limits(most: usize) -> Option<usize>
    ensures same { IfSome result (λ allowed. allowed ≡ most) }
    ensures some { IfSome result (λ allowed. 0 < allowed) }
    ensures within { IfSome result (λ allowed. allowed ≤ feed_max) }
    ensures none { result ≡ None → (other : ℕ) → 0 < other → other ≤ feed_max
        → decimal other ≢ decimal most }
{
    if most == 0 || MOST_MAX < most {
        return None;
    }
    Some(most)
}

// The number of bytes whose decimal digits the word is.
fn most_of(word: &str) -> Option<usize>
    ensures digits { IfSome result (λ most. decimal most ≡ word.now) }
    ensures some { IfSome result (λ most. 0 < most) }
    ensures within { IfSome result (λ most. most ≤ feed_max) }
    ensures none { result ≡ None → (most : ℕ) → 0 < most → most ≤ feed_max
        → decimal most ≢ word.now }
{
    let most = position(word, MOST_MAX + 1)?;
    within_limits(most)
}

// The policy file and the number of bytes that these three words ask for.
fn named_by<'a>(name: &str, policy: &'a str, most: &str) -> Option<(&'a str, usize)>
    ensures some { IfSome result
        (λ named. IsFeed (name.now ∷ policy.now ∷ most.now ∷ []) named.0.now named.1) }
    ensures none { result ≡ None → (other : List ℕ) (count : ℕ)
        → IsFeed (name.now ∷ policy.now ∷ most.now ∷ []) other count → ⊥ }
{
    if name != "feed" {
        return None;
    }
    let most = most_of(most)?;
    Some((policy, most))
}

// The name of the policy file, and the most bytes that are taken.
pub(crate) fn feed_words(words: &[String]) -> Option<(&str, usize)>
    ensures some { IfSome result
        (λ named. IsFeed (map string_bytes words.now) named.0.now named.1) }
    ensures none { result ≡ None → (policy : List ℕ) (most : ℕ)
        → IsFeed (map string_bytes words.now) policy most → ⊥ }
{
    match words {
        [name, policy, most] => named_by(name.as_str(), policy.as_str(), most.as_str()),
        _ => None,
    }
}
