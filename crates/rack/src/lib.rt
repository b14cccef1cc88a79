// The dispatcher: a state that is started on a plan, takes releases, and runs slice by slice.
//
// Document 01, "Running", and the refusals 8 to 14 of "Numbers given back when we say no"; document
// 02 (vii), the row of sums and the refusal 16, and (ix), the slice within the frame in place of a
// clock. A state goes in by value and the next one is handed back. Every record is answered,
// whatever its fields hold.
#![tactic(auto)]

mod advance;
mod form;
mod release;
mod row;
mod show;

ghost use Rattle.std.specs.Prelude.{◌≡◌, ◌<◌};
ghost use Rattle.rack.specs.State.{fresh_of, no_state, kind_places, used};
ghost use Rattle.rack.specs.Start.{start_of};

use answer::Answer;
use plan::Plan;
use unit::Unit;
use verdict::judge;

// The plan that runs, the slice within its frame, a place for each kind's unit, and a place for each
// project's sum of slices left. Places beyond the plan's kinds and projects hold zeros.
#[derive(Clone, Copy)]
pub struct State {
    pub plan: Plan,
    pub slice: u8,
    pub unit: [Unit; Plan::KINDS],
    pub sum: [u16; Plan::PROJECTS],
}

// What a call answers, and the state that it hands back.
// kept: no Result, since document 01 has it: "a refused slice or release gives back the state handed in".
#[derive(Clone, Copy)]
pub struct Next {
    pub answer: Answer,
    pub state: State,
}

impl State {
    // How many places of kinds are looked through.
    pub(crate) fn places(self) -> usize
        ensures { result ≡ kind_places self }
    {
        usize::from(self.plan.kinds)
    }

    // Whether a place is a kind's.
    pub(crate) fn in_use(self, place: usize) -> bool
        ensures { result ≡ used self place }
    {
        place < usize::from(self.plan.kinds)
    }

    // The plan at slice 0, with no kind ever released and nothing left.
    pub(crate) fn fresh(plan: Plan) -> Self
        ensures { result ≡ fresh_of plan }
    {
        State {
            plan,
            slice: 0,
            unit: [Unit::empty(); Plan::KINDS],
            sum: [0; Plan::PROJECTS],
        }
    }

    // The all-zero state.
    pub fn empty() -> Self
        ensures { result ≡ no_state }
    {
        State::fresh(Plan::empty())
    }

    // The fresh state of a plan that is admitted.
    pub fn start(plan: Plan) -> Next
        ensures { result ≡ start_of plan }
    {
        let verdict = judge(plan);
        let answer = verdict.answer;
        let Answer::Good = answer else {
            return Next {
                answer,
                state: State::empty(),
            };
        };
        Next {
            answer,
            state: State::fresh(plan),
        }
    }
}
