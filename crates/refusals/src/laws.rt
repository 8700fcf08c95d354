//! A law about the definitions of conditions and faults. It holds for every value.
ghost use Rattle.std.specs.Prelude.{◌≡◌};
ghost use Rattle.refusals.specs.declared.fault.Fault.{Fault};
ghost use Rattle.refusals.specs.declared.condition.Condition.{Condition};
ghost use Rattle.refusals.specs.Condition.{number_of};
ghost use Rattle.refusals.specs.Faults.{fault_at, failed_of};

/// Each condition has its own number, and a fault names one condition at one place.
pub fn one_condition()
    ensures one { (condition other : Condition) → number_of condition ≡ number_of other
        → condition ≡ other }
    ensures fault { (fault : Fault) → fault ≡ fault_at (failed_of fault) fault.place }
{}
