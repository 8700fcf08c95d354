// The words of a wallet.
ghost use Rattle.std.specs.Prelude.{◌≡◌, ℕ, List, None, map, IfSome, string_bytes};
ghost use Rattle.wallet_core.specs.WalletRun.{IsWallet};

/// The most tokens that a wallet is asked to look through.
pub const TOKENS_MAX: usize = 64;

// The names of the query file and of the token files.
pub(crate) fn wallet_words(words: &[String]) -> Option<(&str, &[String])>
    ensures some { IfSome result
        (λ named.
        IsWallet (map string_bytes words.now) named.0.now (map string_bytes named.1.now)) }
    ensures none { result ≡ None → (query : List ℕ) (tokens : List (List ℕ))
        → IsWallet (map string_bytes words.now) query tokens → ⊥ }
{
    let [name, query, tokens @ ..] = words else {
        return None;
    };
    if name.as_str() != "wallet" || tokens.is_empty() || TOKENS_MAX < tokens.len() {
        return None;
    }
    Some((query.as_str(), tokens))
}
