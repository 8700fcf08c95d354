//! Many tokens under one policy, which is read once.
//!
//! A handle holds a policy or none. C begins with one of zeros, which holds
//! none, and ends with [`sdjwt_policy_free`].
ghost use Rattle.std.specs.Prelude.{◌≡◌, ◌≢◌, None, Some, IsSomeAnd};
ghost use Rattle.sd_outside.specs.Status.{status_number};
ghost use Rattle.sdjwt_c.specs.Handed.{HandsBy};
ghost use Rattle.verifier_core.specs.PolicyFile.{IsPolicyFile};
ghost use Rattle.sdjwt_c.specs.Policies.{PolicyAnswers, UnderAnswers, SetsNonce};
ghost use Rattle.sdjwt_c.specs.PolicySteps.{nonce_number};

use crate::answer::{hand, leave};
use crate::boxed::{put, read, take};
use crate::handle::SdjwtPolicy;
use sd_outside::Status;
use sdjwt_cli::commands;
use std::alloc::Global;
use verifier_core::{NonceError, Policy};

/// Reads a policy, which the handle holds from then on in place of what it held. Where it is none,
/// the handle holds what it held before. The answer is empty.
#[unsafe(no_mangle)]
pub extern "C" fn sdjwt_policy_new(
    alloc: Global,
    handle: &mut SdjwtPolicy,
    policy: &[u8],
    room: &mut [u8],
    len: &mut usize,
) -> u8
    ensures answers { HandsBy ⊥ (λ reply. PolicyAnswers policy.now reply) room.old room.new len.new
        result }
    ensures holds { result ≡ 0 → IsSomeAnd handle.new.held (IsPolicyFile policy.now) }
    ensures kept { result ≢ 0 → handle.new.held ≡ handle.old.held }
{
    match read(alloc, policy) {
        Ok(kept) => {
            put(handle, kept);
            leave(Status::Done, len).number()
        }
        Err(stop) => hand(Err(stop), room, len).number(),
    }
}

/// The processed payload of a token that is accepted under the policy of the
/// handle. Where that holds none, the call is misused.
#[unsafe(no_mangle)]
pub extern "C" fn sdjwt_policy_verify(
    alloc: Global,
    handle: &mut SdjwtPolicy,
    token: &[u8],
    now: u64,
    room: &mut [u8],
    len: &mut usize,
) -> u8
    ensures answers { HandsBy (handle.old.held ≡ None)
        (λ reply. IsSomeAnd handle.old.held (λ policy. UnderAnswers policy token.now now reply))
        room.old room.new len.new result }
    ensures kept { handle.new.held ≡ handle.old.held }
{
    let Some(policy) = take(alloc, handle) else {
        return leave(Status::Usage, len).number();
    };
    let answer = commands::verify_under(alloc, &policy, token, now);
    put(handle, policy);
    hand(answer, room, len).number()
}

// The status of a nonce that was to be set.
fn nonce_status(set: Result<(), NonceError>) -> Status
    ensures { status_number result ≡ nonce_number set }
{
    match set {
        Ok(()) => Status::Done,
        Err(NonceError::Memory) => Status::Memory,
        Err(NonceError::NoBinding) => Status::Usage,
        Err(NonceError::TooLong) => Status::Usage,
    }
}

// Sets the nonce of a policy, where it takes it.
fn with_nonce(alloc: Global, policy: &mut Policy, nonce: &str) -> Status
    ensures { SetsNonce (Some policy.old) nonce.now (Some policy.new) (status_number result) }
{
    nonce_status(policy.set_nonce(alloc, nonce))
}

/// Sets the nonce that the policy of the handle wants of a key binding token, for the calls that
/// follow. The call is misused where the handle holds none, where its policy asks for no key
/// binding token, and where the nonce is no UTF-8 or has more than 256 bytes.
#[unsafe(no_mangle)]
pub extern "C" fn sdjwt_policy_nonce(alloc: Global, handle: &mut SdjwtPolicy, nonce: &[u8]) -> u8
    ensures { SetsNonce handle.old.held nonce.now handle.new.held result }
{
    let Ok(nonce) = str::from_utf8(nonce) else {
        return Status::Usage.number();
    };
    let Some(mut held) = take(alloc, handle) else {
        return Status::Usage.number();
    };
    let status = with_nonce(alloc, &mut held, nonce);
    put(handle, held);
    status.number()
}

/// Frees the policy of the handle, which holds none from then on.
#[unsafe(no_mangle)]
pub extern "C" fn sdjwt_policy_free(alloc: Global, handle: &mut SdjwtPolicy)
    ensures { handle.new.held ≡ None }
{
    *handle = SdjwtPolicy::none(alloc);
}
