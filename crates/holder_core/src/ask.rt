// What is asked of a holder, with keys or without.
use claim_tree::PathList;
use hmac_sign::{AlgNameBox, KeySet};
use sd_outside::{TextBox, TextList};

/// What is asked of a holder.
#[derive(Drop)]
pub struct Ask {
    /// The keys of the issuers that are trusted.
    pub keys: KeySet,
    /// The places that are wanted.
    pub want: PathList,
    /// What the key binding token is to say, where one is asked for.
    pub binding: Option<BindingAsk>,
}

/// What a key binding token is to say, RFC 9901 section 4.3.
#[derive(Drop)]
pub struct BindingAsk {
    /// The name of the holder's key, which the claim `cnf` has to tell (RFC 7800 section 3.4).
    pub kid: TextBox,
    /// The verifier.
    pub aud: TextBox,
    /// What the verifier gave for this one use.
    pub nonce: TextBox,
}

/// What is asked of a holder, where the caller checks the issuer's signature
/// and makes the holder's.
#[derive(Drop)]
pub struct CallerAsk {
    /// The algorithms of the issuer's signatures that the caller checks, of which see
    /// [`Caller`](key_binding::Caller).
    pub algs: TextList,
    /// The places that are wanted.
    pub want: PathList,
    /// What the key binding token is to say, where one is asked for.
    pub binding: Option<CallerBinding>,
}

/// What a key binding token is to say that the caller signs.
#[derive(Drop)]
pub struct CallerBinding {
    /// The algorithm of the signature, by its name in RFC 7518 section 3.1 or RFC 8037 section 3.1.
    pub alg: AlgNameBox,
    /// The name of the holder's key, where the claim `cnf` has to tell one (RFC
    /// 7800 section 3.4). Where the claim has the key itself, or its digest,
    /// there is none, and the caller finds its key by the payload.
    pub kid: Option<TextBox>,
    /// The verifier.
    pub aud: TextBox,
    /// What the verifier gave for this one use.
    pub nonce: TextBox,
}
