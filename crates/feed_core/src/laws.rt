//! What the definitions of a feed say together. Each law holds for every value.
ghost use Rattle.std.specs.Prelude.{◌≡◌, ◌≤◌, ◌⊎◌, ◌+◌, ◌++◌, ℕ, List, Some, take};
ghost use Rattle.sd_outside.specs.Causes.{Rose};
ghost use Rattle.sd_outside.specs.Limits.{file_max};
ghost use Rattle.sd_outside.specs.declared.status.Status.{Status};
ghost use Rattle.verifier_core.specs.PolicyFile.{IsPolicyFile};
ghost use Rattle.verifier_core.specs.declared.policy.Policy.{Policy};
ghost use Rattle.feed_core.specs.Feed.{FeedState, Takes};
ghost use Rattle.feed_core.specs.FeedRun.{FeedOutside, IsFeed, FeedEnds};

/// How the input is cut into pieces does not matter: what two pieces do one after the other is what
/// both do as one piece, and a piece does one thing alone.
pub fn any_cut()
    ensures goes_on { (start middle last : FeedState) (piece next text more : List ℕ)
        → Takes start middle piece text → Takes middle last next more
        → Takes start last (piece ++ next) (text ++ more) }
    ensures one_step { (before after other : FeedState) (piece text more : List ℕ)
        → Takes before after piece text → Takes before other piece more → after ≡ other }
    ensures one_text { (before after other : FeedState) (piece text more : List ℕ)
        → Takes before after piece text → Takes before other piece more → text ≡ more }
{}

/// Where the words are those of a feed, the cabinet tells a policy file of its form, nothing
/// failed, and the source gave no more than it may, all was told, or there was no memory.
pub fn completes()
    ensures { (words : List (List ℕ)) (before after : FeedOutside) (now : ℕ) (name content : List ℕ)
        (most : ℕ) (policy : Policy) (status : Status) → IsFeed words name most
        → before.files.holds name ≡ Some content → IsPolicyFile (take (file_max + 1) content) policy
        → (Rose before.files.faults after.files.faults → ⊥)
        → (Rose before.source.faults after.source.faults → ⊥)
        → (Rose before.files.out.faults after.files.out.faults → ⊥)
        → after.source.taken ≤ before.source.taken + most → FeedEnds words before after now status
        → (status ≡ Status.Done) ⊎ (status ≡ Status.Memory) }
{}
