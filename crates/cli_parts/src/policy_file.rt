// The policy of a file.
ghost use Rattle.std.specs.Prelude.{IfOk, IfErr};
ghost use Rattle.verifier_core.specs.PolicyFile.{IsPolicyFileRefused, IsPolicyFile};
ghost use Rattle.cli_parts.specs.Stops.{OnUnreadable, NotRefused, NotUnread};
ghost use Rattle.cli_parts.specs.Telling.{TellsFileFault};

use crate::{Stop, readable};
use std::alloc::Global;
use verifier_core::{Policy, read_policy};

/// The policy of a file, or the line that tells why there is none.
pub fn policy_of(alloc: Global, file: &[u8]) -> Result<Policy, Stop>
    ensures policy { IfOk result (IsPolicyFile file.now) }
    ensures unreadable { IfErr result
        (λ stop. OnUnreadable stop (TellsFileFault (IsPolicyFileRefused file.now))) }
    ensures fit { IfErr result NotRefused }
    ensures read { IfErr result NotUnread }
{
    readable(alloc, read_policy(alloc, file))
}
