// Whether a unit is in form.
ghost use Rattle.std.specs.Prelude.{◌≡◌};
ghost use Rattle.unit.specs.Form.{untouched, due_in_time, underway, unit_in_form, empty_unit, fits_place};

use crate::Unit;
use plan::Kind;

impl Unit {
    #[tactic(auto, unfolding(crate::specs::Form::untouched))]
    fn is_untouched(self) -> bool
        ensures { result ≡ untouched self }
    {
        self.gone == 0 && self.left == 0
    }

    #[tactic(auto, unfolding(crate::specs::Form::due_in_time))]
    fn is_in_time(self, deadline: u16) -> bool
        ensures { result ≡ due_in_time deadline self }
    {
        self.left == 0 || self.gone < deadline
    }

    #[tactic(auto, unfolding(crate::specs::Form::underway))]
    fn is_underway(self, kind: Kind) -> bool
        ensures { result ≡ underway kind self }
    {
        self.gone <= kind.separation && self.left <= kind.length && self.is_in_time(kind.deadline)
    }

    #[tactic(auto, unfolding(crate::specs::Form::unit_in_form))]
    fn in_form(self, kind: Kind) -> bool
        ensures { result ≡ unit_in_form kind self }
    {
        if self.released {
            self.is_underway(kind)
        } else {
            self.is_untouched()
        }
    }

    #[tactic(auto, unfolding(crate::specs::Form::empty_unit, crate::specs::Form::untouched))]
    fn is_empty(self) -> bool
        ensures { result ≡ empty_unit self }
    {
        self == Unit::empty()
    }

    // Whether it may stand at its place: in form where the plan has that kind, zeros where not.
    pub fn fits_place(self, used: bool, kind: Kind) -> bool
        ensures { result ≡ fits_place used kind self }
    {
        if used {
            self.in_form(kind)
        } else {
            self.is_empty()
        }
    }
}
