// The algorithms of signatures.
ghost use Rattle.std.specs.Prelude.{◌≡◌, ◌≢◌, Some, IfOk, IfSome, IfNone, map};
ghost use Rattle.hmac_sign.specs.Algs.{algs, alg_text, alg_of_text as alg_of_text_by, block_length, key_least};
ghost use Rattle.hmac_sign.specs.declared.alg.Alg.{Alg};

use crate::AlgName;
use sd_outside::{NoMemory, TextBox, TextList};
use std::alloc::Global;

/// An algorithm of signatures, by its name in RFC 7518 section 3.1.
#[derive(Clone, Copy, Debug, PartialEq, Eq)]
pub enum Alg {
    /// HMAC with SHA-256.
    Hs256,
    /// HMAC with SHA-384.
    Hs384,
    /// HMAC with SHA-512.
    Hs512,
}

impl Alg {
    /// Its name, as the `alg` of a header has it.
    pub fn name(self) -> &'static str
        ensures { result.now ≡ alg_text self }
    {
        match self {
            Alg::Hs256 => "HS256",
            Alg::Hs384 => "HS384",
            Alg::Hs512 => "HS512",
        }
    }

    /// Its name, as a signer tells it.
    pub fn alg_name(self) -> AlgName<'static>
        ensures { result ≡ alg_text self }
    {
        AlgName::of(self)
    }

    /// The fewest bytes of a key, as many as the hash has (RFC 7518 section 3.2).
    pub fn key_min(self) -> usize
        ensures { result ≡ key_least self }
    {
        match self {
            Alg::Hs256 => 32,
            Alg::Hs384 => 48,
            Alg::Hs512 => 64,
        }
    }

    // The bytes of a block of its hash.
    pub(crate) fn block_len(self) -> usize
        ensures { result ≡ block_length self }
    {
        match self {
            Alg::Hs256 => 64,
            Alg::Hs384 | Alg::Hs512 => 128,
        }
    }
}

/// The algorithm of a name.
pub fn alg_named(name: &str) -> Option<Alg>
    ensures named { IfSome result (λ alg. name.now ≡ alg_text alg) }
    ensures other { IfNone result ((alg : Alg) → name.now ≢ alg_text alg) }
    ensures value { result ≡ alg_of_text_by name.now }
{
    match name {
        "HS256" => Some(Alg::Hs256),
        "HS384" => Some(Alg::Hs384),
        "HS512" => Some(Alg::Hs512),
        _ => None,
    }
}

/// The names of all of them.
pub fn alg_names(alloc: Global) -> Result<TextList, NoMemory>
    ensures { IfOk result (λ names. names ≡ map alg_text algs) }
{
    let mut names = TextList::new(alloc);
    names.push(TextBox::make(alloc, Alg::Hs256.name())?)?;
    names.push(TextBox::make(alloc, Alg::Hs384.name())?)?;
    names.push(TextBox::make(alloc, Alg::Hs512.name())?)?;
    Ok(names)
}
