// The handle of a policy, as C has it: a struct of one pointer, which is null where it holds none.
ghost use Rattle.std.specs.Prelude.{◌≡◌, Option, None, Some};
ghost use Rattle.std.specs.Coded.{coded_option};
ghost use Rattle.std.specs.Option.{option_map};
ghost use Rattle.verifier_core.specs.declared.policy.Policy.{Policy as Kept};
ghost use Rattle.verifier_core.specs.contracts.policy.Policy.{the_row};
ghost use Rattle.sdjwt_c.specs.Held.{holds};

use crate::loose::Loose;
use std::alloc::Global;
use std::marker::{Model, Send};
use std::ptr::null_mut;
use verifier_core::Policy;

/// A policy, or none. It owns the policy.
#[repr(C)]
pub struct SdjwtPolicy {
    at: *mut u8,
    alloc: Global,
    /// The policy that it holds.
    pub ghost held: { Option Kept } by { coded_option (the_row.coded) },
}

impl Model for SdjwtPolicy {
    ghost also_owns = { λ h. holds h.alloc h.at h.held };
}

impl SdjwtPolicy {
    // A handle that holds no policy.
    pub(crate) fn none(alloc: Global) -> SdjwtPolicy
        ensures { result.held ≡ None }
    {
        SdjwtPolicy {
            at: null_mut(),
            alloc,
        }
    }

    // A handle that holds this policy.
    pub(crate) fn of(policy: Loose<Policy, Global>) -> SdjwtPolicy
        ensures { result.held ≡ Some policy.value }
    {
        let Loose { at, alloc } = policy;
        SdjwtPolicy {
            at: at as *mut u8,
            alloc,
        }
    }

    // The policy that it holds.
    pub(crate) fn into_loose(self) -> Option<Loose<Policy, Global>>
        ensures { option_map (λ policy. policy.value) result ≡ self.held }
    {
        let SdjwtPolicy { at, alloc } = self;
        if at.is_null() {
            None
        } else {
            Some(Loose {
                at: at as *mut Policy,
                alloc,
            })
        }
    }
}

// C may take a handle from thread to thread, if one call at a time has it.
unsafe impl Send for SdjwtPolicy {}

impl Drop for SdjwtPolicy {
    fn drop(self) {
        if let Some(policy) = self.into_loose() {
            drop(policy.into_box());
        }
    }
}
