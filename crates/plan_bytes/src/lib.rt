// Plan bytes: document 01, "Plan bytes". One layout, specs/Parts.antt, states both directions:
// `plan_reader` reads by it and `plan_writer` writes by it.
#![tactic(auto)]

ghost use Rattle.std.specs.Prelude.{◌≡◌};
ghost use Rattle.plan_bytes.specs.Parts.{size};

use answer::Answer;
use plan::Plan;

// The bytes of each part.
pub const HEADER: usize = 3;

pub const PROJECT: usize = 2;

pub const KIND: usize = 5;

// Fields of so many bits.
pub const BITS_1: u64 = 2;

pub const BITS_2: u64 = 4;

pub const BITS_3: u64 = 8;

pub const BITS_4: u64 = 16;

pub const BITS_5: u64 = 32;

pub const BITS_7: u64 = 128;

pub const BITS_10: u64 = 1024;

pub const BITS_12: u64 = 4096;

// All that stands behind a field in its part: of the header, of a project, of a unit kind.
pub const BEHIND_FRAME: u64 = BITS_4;

pub const BEHIND_KINDS: u64 = BITS_7 * BEHIND_FRAME;

pub const BEHIND_PROJECTS: u64 = BITS_5 * BEHIND_KINDS;

pub const BEHIND_CARDS: u64 = BITS_4 * BEHIND_PROJECTS;

pub const BEHIND_BUDGET: u64 = BITS_2;

pub const BEHIND_CEILING: u64 = BITS_10 * BEHIND_BUDGET;

pub const BEHIND_LENGTH: u64 = BITS_1;

pub const BEHIND_DEADLINE: u64 = BITS_12 * BEHIND_LENGTH;

pub const BEHIND_SEPARATION: u64 = BITS_12 * BEHIND_DEADLINE;

pub const BEHIND_PROJECT: u64 = BITS_12 * BEHIND_SEPARATION;

// What reading found: the answer, the plan (all zero where it is refused) and how many bytes it
// took.
// kept: no Result, since document 01 has it: "A refused read gives an all-zero plan and 0 bytes taken".
#[derive(Clone, Copy)]
pub struct Reading {
    pub answer: Answer,
    pub plan: Plan,
    pub taken: usize,
}

// The bytes that a plan with these counts takes.
pub fn size(plan: Plan) -> usize
    ensures { result ≡ size plan }
{
    HEADER + PROJECT * plan.projects as usize + KIND * plan.kinds as usize
}
