// The consent of a holder: a rule which places may be shown.
ghost use Rattle.std.specs.Prelude.{◌≡◌};
ghost use Rattle.selection_core.specs.Consent.{Allows};

use claim_tree::Path;
use std::marker::Model;

/// A rule that says which places may be shown, and that may be asked for every place. Contracts see
/// the rule, of which `Allows` tells what it may answer.
#[derive(Drop)]
pub struct Consent<F: Fn(&Path) -> bool> {
    rule: F,
}

impl<F: Fn(&Path) -> bool> Model for Consent<F> {
    ghost Value = { F };

    ghost view = { λ c. c.rule };
}

impl<F: Fn(&Path) -> bool> Consent<F> {
    /// Keeps a rule that may be asked for every place. It takes no memory.
    pub fn new(rule: F) -> Consent<F>
        requires { F.IsAlwaysCallable rule }
        ensures rule { result ≡ rule }
        ensures callable { F.IsAlwaysCallable result }
    {
        Consent { rule }
    }

    /// What the rule says of a place: whether it may be shown. It takes no memory.
    pub fn test(&self, place: &Path) -> bool
        requires callable { F.IsAlwaysCallable self.now }
        ensures { Allows F.Fn self.now place.now result }
    {
        (self.rule)(place)
    }
}
