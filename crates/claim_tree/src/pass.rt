// How often a text was read before, and which of its members are wanted.
ghost use Rattle.std.specs.Prelude.{◌≡◌};
ghost use Rattle.claim_tree.specs.Passes.{is_wanted, member_pass};

// The names of the members that are wanted, in each object.
#[derive(Clone, Copy, Drop)]
pub(crate) struct Wanted<'a> {
    pub(crate) names: &'a [&'a str],
    // the one of them that is wanted as it stands
    pub(crate) whole: &'a str,
}

// One reading of a text.
#[derive(Clone, Copy, Drop)]
pub(crate) enum Pass<'a> {
    // The first one: there is no tree where a number is not whole, or where the
    // names of a great object do not ascend.
    First,
    // One of a text that was judged: null stands for each number that is not
    // whole, and names may come in any order.
    Again,
    // The same, and members that are not wanted are passed over.
    Named(Wanted<'a>),
}

impl<'a> Wanted<'a> {
    fn has(self, name: &str) -> bool
        ensures { result ≡ is_wanted self.entry name.now }
    {
        self.names.iter().any(|other| *other == name)
    }
}

impl<'a> Pass<'a> {
    // How the member of a name is read, or None where it is passed over.
    pub(crate) fn of_member(self, name: &str) -> Option<Pass<'a>>
        ensures { result ≡ member_pass self.entry name.now }
    {
        let Pass::Named(wanted) = self else {
            return Some(self);
        };
        if !wanted.has(name) {
            None
        } else if wanted.whole == name {
            Some(Pass::Again)
        } else {
            Some(self)
        }
    }
}
