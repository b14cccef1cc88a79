// Advancing: the state that follows is handed back.
//
// Of n kinds, a of them with slices left and a card to their project, for p projects, that is at most
// 16(a + p) steps for the ranks, none of them a branch, and 3n + p for the rest, after a check of
// 40 + n + 2p.
ghost use Rattle.std.specs.Prelude.{◌≡◌, ◌+◌, ◌%◌, ◌<◌};
ghost use Rattle.rack.specs.Advance.{advance_of};

use crate::form::answer_of;
use crate::{Next, State};
use answer::Answer;

// The slice after one of a frame: the first after the last.
fn slice_after(slice: u8, frame: u8) -> u8
    requires { slice < frame }
    ensures { result ≡ (slice + 1) % frame }
{
    let next = slice + 1;
    if next == frame { 0 } else { next }
}

impl State {
    // Runs one slice: one slice more gone for each kind ever released, one less left for each that
    // sits, one less in its project's sum, and the next slice.
    pub fn advance(mut self) -> Next
        ensures { result ≡ advance_of self }
    {
        let checked = self.check();
        let Ok(found) = &checked else {
            return Next {
                answer: answer_of(&checked),
                state: self,
            };
        };
        let seat = self.seats(&found.works, &found.until);
        let plan = self.plan;
        let kinds = plan.kind;
        let mut unit = self.unit;
        let mut sum = self.sum;
        // kept: an index; an iterator over one of the four arrays would index the others still.
        for i in 0..usize::from(plan.kinds) {
            let kind = kinds[i];
            let number = seat[i];
            unit[i] = unit[i].after(number != 0, kind.separation);
            if number == 0 {
                continue;
            }
            sum[usize::from(kind.project)] -= 1;
        }
        self.slice = slice_after(self.slice, plan.frame);
        self.unit = unit;
        self.sum = sum;
        Next {
            answer: Answer::Good,
            state: self,
        }
    }
}
