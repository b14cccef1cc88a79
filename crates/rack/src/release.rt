// A release: a unit of a kind starts, with a length.
ghost use Rattle.std.specs.Prelude.{◌≡◌};
ghost use Rattle.rack.specs.Release.{release_answer, release_of};

use crate::form::answer_of;
use crate::{Next, State};
use answer::Answer;
use unit::Unit;

impl State {
    // Starts a unit of the kind, with that length, by which its project's sum rises. The record
    // order, 10, 16, 12, 13, 14.
    pub fn release(mut self, kind: usize, length: u32) -> Next
        ensures { result ≡ release_of self kind length }
    {
        let checked = self.check();
        let Ok(_) = checked else {
            return Next {
                answer: answer_of(&checked),
                state: self,
            };
        };
        if !self.in_use(kind) {
            return Next {
                answer: Answer::bare(12),
                state: self,
            };
        }
        let its_kind = self.plan.kind[kind];
        let answer = self.unit[kind].may_start(its_kind, length);
        let Answer::Good = answer else {
            return Next {
                answer,
                state: self,
            };
        };
        self.unit[kind] = Unit {
            gone: 0,
            left: length as u16,
            released: true,
        };
        self.sum[usize::from(its_kind.project)] += length as u16;
        Next {
            answer,
            state: self,
        }
    }
}
