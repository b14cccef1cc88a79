// A showing: the row of the slice to come is written, and the state kept.
//
// Of n kinds, a of them with slices left and a card to their project, on m cards for p projects, that
// is at most 16(a + p) steps for the ranks, none of them a branch, and 3n + p + m for the rest, after
// a check of 40 + n + 2p.
ghost use Rattle.std.specs.Prelude.{◌≡◌};
ghost use Rattle.rack.specs.Show.{Shows};

use crate::State;
use crate::form::answer_of;
use answer::Answer;

impl State {
    // Writes the row of the slice to come. The record order, 10, 16, 9.
    pub fn show(self, row: &mut [u8]) -> Answer
        ensures { Shows self row.old result row.new }
    {
        let checked = self.check();
        let Ok(found) = &checked else {
            return answer_of(&checked);
        };
        if row.len() < usize::from(self.plan.cards) {
            return Answer::bare(9);
        }
        let seat = self.seats(&found.works, &found.until);
        self.write_row(&seat, row);
        Answer::Good
    }
}
