// Rescuing a damaged plan file: document 02 (viii). Bytes that pass 1 and 2 are made into a plan that
// passes 2 to 6, and each change is listed in six bytes. Any bytes and any buffer are answered; what
// follows the plan's bytes is never looked at.
#![tactic(auto)]

mod entries;
mod mended;

ghost use Rattle.std.specs.Prelude.{◌≡◌};
ghost use Rattle.plan.specs.Record.{no_plan};
ghost use Rattle.rescue.specs.Rescue.{Rescues};

use answer::Answer;
use plan::Plan;

// The answer, the plan (all zero on a refusal) and how many bytes of the list were written.
// kept: no Result, since document 01 has it: "any plan .. that its answer carries is zero when refused".
#[derive(Clone, Copy)]
pub struct Rescued {
    pub answer: Answer,
    pub plan: Plan,
    pub count: usize,
}

// The bytes of the longest list: 57 entries.
pub const LONGEST: usize = 342;

fn refused(answer: Answer) -> Rescued
    ensures { (result.answer ≡ answer) × (result.plan ≡ no_plan) × (result.count ≡ 0) }
{
    Rescued {
        answer,
        plan: Plan::empty(),
        count: 0,
    }
}

// Makes a plan that passes 2 to 6 of the bytes' plan, and writes the changes to the front of list.
pub fn rescue(bytes: &[u8], list: &mut [u8]) -> Rescued
    ensures { Rescues bytes.now list.old result list.new }
{
    let standing = plan_reader::standing(bytes);
    let counts = standing.answer;
    let Answer::Good = counts else {
        return refused(counts);
    };
    let damaged = standing.plan;
    let plan = mended::plan_for(damaged);
    if plan.kinds == 0 {
        return refused(Answer::bare(20));
    }
    let notes = entries::changes(bytes, damaged);
    let count = notes.count;
    if list.len() < count {
        return refused(Answer::bare(9));
    }
    list[..count].copy_from_slice(&notes.bytes[..count]);
    Rescued {
        answer: Answer::Good,
        plan,
        count,
    }
}
