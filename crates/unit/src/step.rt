// A unit as a slice goes by.
ghost use Rattle.std.specs.Prelude.{◌≡◌};
ghost use Rattle.unit.specs.Step.{until_due, gone_after, left_after, unit_after};

use crate::Unit;

impl Unit {
    // The slices until it is due.
    #[tactic(auto, unfolding(crate::specs::Step::until_due))]
    pub fn until_due(self, deadline: u16) -> u16
        ensures { result ≡ until_due deadline self }
    {
        deadline.saturating_sub(self.gone)
    }

    // The slices gone a slice later: one more, held at the separation, for a kind ever released.
    #[tactic(auto, unfolding(crate::specs::Step::gone_after))]
    fn gone_after(self, separation: u16) -> u16
        ensures { result ≡ gone_after separation self }
    {
        if self.released {
            separation.min(self.gone.saturating_add(1))
        } else {
            self.gone
        }
    }

    // The slices left a slice later: one less where it was served.
    #[tactic(auto, unfolding(crate::specs::Step::left_after))]
    fn left_after(self, served: bool) -> u16
        ensures { result ≡ left_after served self }
    {
        self.left.saturating_sub(u16::from(served))
    }

    // The unit a slice later, served in it or not.
    pub fn after(self, served: bool, separation: u16) -> Unit
        ensures { result ≡ unit_after served separation self }
    {
        Unit {
            gone: self.gone_after(separation),
            left: self.left_after(served),
            released: self.released,
        }
    }
}
