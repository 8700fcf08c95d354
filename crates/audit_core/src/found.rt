// What is found of the digests that are of no disclosure.
ghost use Rattle.std.specs.Prelude.{◌≡◌, ◌↔◌, map, IfOk, IsTrue};
ghost use Rattle.audit_core.specs.Audited.{IsDigestText, hash_length as hash_length_of};
ghost use Rattle.audit_core.specs.Found.{AreDigests, site_text};

use crate::standing::standing_of;
use b64url_text::decode_into;
use digest_sites::Site;
use disclosure::HashAlg;
use sd_outside::{NoMemory, TextBox};
use std::alloc::Global;

// How many bytes a hash has.
fn hash_length(hash: HashAlg) -> usize
    ensures { result ≡ hash_length_of hash }
{
    match hash {
        HashAlg::Sha256 => 32,
        HashAlg::Sha384 => 48,
        HashAlg::Sha512 => 64,
    }
}

// Whether a text has the form of a digest, which is never longer than 86 letters.
fn is_digest(hash: HashAlg, digest: &str) -> bool
    ensures { IsTrue result ↔ IsDigestText hash digest.now }
{
    let mut room = [0; 66];
    if digest.len() > 86 {
        return false;
    }
    match decode_into(digest.as_bytes(), &mut room) {
        Ok(count) => count == hash_length(hash),
        Err(_) => false,
    }
}

// Whether the digest of each site has this form.
pub(crate) fn are_digests(hash: HashAlg, sites: &[Site]) -> bool
    ensures { IsTrue result ↔ AreDigests hash sites.now }
{
    for site in sites {
        if !is_digest(hash, site.digest.as_str()) {
            return false;
        }
    }
    true
}

// Where the sites stand, each as one text.
pub(crate) fn standings_of(alloc: Global, sites: &[Site]) -> Result<Vec<TextBox>, NoMemory>
    ensures { IfOk result (λ standings. standings.items ≡ map site_text sites.now) }
{
    let mut standings = Vec::with_capacity(alloc, sites.len())?;
    for site in sites {
        standings.push(standing_of(alloc, site.kind, &site.at)?)?;
    }
    Ok(standings)
}
