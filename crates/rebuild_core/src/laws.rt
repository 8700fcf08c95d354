//! Laws over every payload and every list of disclosures.
ghost use Rattle.rebuild_core.specs.Laws.{OneSite, SizeBound, PayloadSizeBound, Presentation, Ranks, ChoiceShown, OneNode};
ghost use Rattle.rebuild_core.specs.AllShown.{ShownIsSound};

/// Where no disclosure is given twice, no digest stands twice, no reserved name
/// is misused and each disclosure is reached, each stands at one site, and
/// opening needs no more fuel than there are disclosures.
pub fn one_site()
    ensures { OneSite }
{}

/// There the processed payload has no more nodes than the payload, with its own `_sd_alg` or
/// without it, and the values together.
pub fn size_bound()
    ensures opened { SizeBound }
    ensures payload { PayloadSizeBound }
{}

/// A closed choice of the disclosures, in any order, is sound again, and opens to the processed
/// payload without what was not chosen, each mark being the place in that order.
pub fn presentation()
    ensures { Presentation }
{}

/// In rising order the place of a number is its rank.
pub fn ranks()
    ensures { Ranks }
{}

/// The disclosures on the way to wanted paths, in their order, are sound again,
/// and open to the processed payload without what is hidden and leads to none
/// of these paths, each mark being its rank among the chosen.
pub fn choice_shown()
    ensures { ChoiceShown }
{}

/// Each disclosure is the mark of exactly one node of the processed payload,
/// and no other number is.
pub fn one_node()
    ensures { OneNode }
{}

/// Where no digest stands twice and each disclosure is the mark of a node, conditions 14 to 20
/// hold, if nothing that is shown has a reserved name and each `_sd` is a list of texts.
pub fn shown_is_sound()
    ensures { ShownIsSound }
{}
