// What still stands at a place of a cut.
ghost use Rattle.std.specs.Prelude.{◌≡◌};
ghost use Rattle.outcome_walk.specs.Walking.{first_standing, stands};

/// Which sides of the group that is open at a place still stand: whether all that was found in it may be old, and whether it may be new.
#[derive(Clone, Copy, PartialEq, Eq, Debug)]
pub struct Sides {
    pub old: bool,
    pub new: bool,
}

impl Sides {
    /// The place leaves what was found.
    pub fn stands(self) -> bool
        ensures { result ≡ stands self }
    {
        self.old || self.new
    }
}

/// The first place that stands.
pub fn first_standing(sides: &[Sides]) -> Option<usize>
    ensures { result ≡ first_standing sides.now }
{
    for (place, sides) in sides.iter().enumerate() {
        if sides.stands() {
            return Some(place);
        }
    }
    None
}
