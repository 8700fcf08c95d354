// The rule of consent by the places that are never shown.
ghost use Rattle.std.specs.Prelude.{◌↔◌, IfOk};
ghost use Rattle.marked_tree.specs.Paths.{Path as Steps};
ghost use Rattle.selection_core.specs.Never.{MayBeShown, Judges};

use claim_tree::{Path, PathList, is_prefix};
use marked_tree::compare_paths;
use sd_outside::NoMemory;
use std::marker::Model;

/// The places that a holder never shows, with all that is inside them. Contracts see paths by which
/// the same places may be shown as by those that were given.
///
/// The paths are sorted once, and those inside another are dropped, so that a
/// place is judged by one search by halves.
#[derive(Debug, Drop)]
pub struct NeverPlaces {
    outermost: Vec<Path>,
}

impl Model for NeverPlaces {
    ghost use Rattle.std.specs.Prelude.{List};
    ghost use Rattle.marked_tree.specs.Paths.{Path as Steps};
    ghost use Rattle.selection_core.specs.Outermost.{AreOutermost};

    ghost Value = { List Steps };

    ghost view = { λ n. n.outermost.items };

    ghost invariant = { λ n. AreOutermost n.outermost.items };
}

impl NeverPlaces {
    /// The places of these paths, whose order means nothing.
    pub fn of(paths: PathList) -> Result<NeverPlaces, NoMemory>
        ensures same { IfOk result
            (λ never. (at : Steps) → MayBeShown never at ↔ MayBeShown paths at) }
    {
        let mut outermost = paths.into_elements();
        outermost.sort_by(|one, other| compare_paths(one, other))?;
        outermost.dedup_by(|inner, outer| is_prefix(outer, inner));
        Ok(NeverPlaces { outermost })
    }

    /// Whether no path leads to the place: the rule of a holder who says which
    /// places are never shown. It takes no memory.
    pub fn may_be_shown(&self, place: &Path) -> bool
        ensures { Judges self.now place.now result }
    {
        let paths = self.outermost.as_slice();
        let behind = paths.partition_point(|path| compare_paths(path, place).is_le());
        behind == 0 || !is_prefix(&paths[behind - 1], place)
    }
}
