// Whether a kind may start a unit after this one: 13, 14.
ghost use Rattle.std.specs.Prelude.{◌≡◌};
ghost use Rattle.plan.specs.Order.{within};
ghost use Rattle.unit.specs.Start.{early, startable};

use crate::Unit;
use answer::Answer;
use plan::Kind;

#[tactic(auto, unfolding(plan::specs::Order::within))]
fn fits(length: u32, most: u16) -> bool
    ensures { result ≡ within most length }
{
    length != 0 && length <= u32::from(most)
}

impl Unit {
    #[tactic(auto, unfolding(crate::specs::Start::early))]
    fn is_early(self, separation: u16) -> bool
        ensures { result ≡ early separation self }
    {
        self.released && self.gone < separation
    }

    // Whether the kind may start one of that length after this one.
    #[tactic(auto, unfolding(crate::specs::Start::startable))]
    pub fn may_start(self, kind: Kind, length: u32) -> Answer
        ensures { result ≡ startable kind self length }
    {
        if !fits(length, kind.length) {
            return Answer::bare(13);
        }
        if self.is_early(kind.separation) {
            return Answer::bare(14);
        }
        Answer::Good
    }
}
