// A policy on the heap, on its way into a handle and out of it.
ghost use Rattle.std.specs.Prelude.{◌≡◌, None, Some, IfOk, IfErr};
ghost use Rattle.std.specs.Option.{option_map};
ghost use Rattle.verifier_core.specs.PolicyFile.{IsPolicyFile, IsPolicyFileRefused};
ghost use Rattle.cli_parts.specs.Stops.{OnUnreadable, NotRefused, NotUnread};
ghost use Rattle.cli_parts.specs.Telling.{TellsFileFault};

use crate::handle::SdjwtPolicy;
use crate::loose::Loose;
use cli_parts::{Stop, policy_of};
use std::alloc::Global;
use std::mem;
use verifier_core::Policy;

// The policy of a handle, which holds none from then on.
pub(crate) fn take(alloc: Global, handle: &mut SdjwtPolicy) -> Option<Box<Policy>>
    ensures policy { option_map (λ policy. policy.value) result ≡ handle.old.held }
    ensures left { handle.new.held ≡ None }
{
    let policy = mem::replace(handle, SdjwtPolicy::none(alloc)).into_loose()?;
    Some(policy.into_box())
}

// Lets a handle hold this policy.
pub(crate) fn put(handle: &mut SdjwtPolicy, policy: Box<Policy>)
    ensures { handle.new.held ≡ Some policy.value }
{
    *handle = SdjwtPolicy::of(Loose::of(policy));
}

// The policy that a file says.
pub(crate) fn read(alloc: Global, file: &[u8]) -> Result<Box<Policy>, Stop>
    ensures policy { IfOk result (λ policy. IsPolicyFile file.now policy.value) }
    ensures unreadable { IfErr result
        (λ stop. OnUnreadable stop (TellsFileFault (IsPolicyFileRefused file.now))) }
    ensures fit { IfErr result NotRefused }
    ensures read { IfErr result NotUnread }
{
    match Box::new(alloc, policy_of(alloc, file)?) {
        Ok(policy) => Ok(policy),
        Err(_) => Err(Stop::Memory),
    }
}
