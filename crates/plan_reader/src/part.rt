// The parts of a plan's bytes, each read from the front of what is given.
ghost use Rattle.std.specs.Prelude.{◌≡◌, ◌==◌, ◌≤◌, List, ℕ, length};
ghost use Rattle.plan_bytes.specs.Parts.{headed, project_from, kind_from};
ghost use Rattle.plan_bytes.specs.Reading.{header_spare, project_spare, kind_spare};

use plan::{Kind, Plan, Project};
use plan_bytes::{
    BEHIND_BUDGET, BEHIND_CARDS, BEHIND_CEILING, BEHIND_DEADLINE, BEHIND_FRAME, BEHIND_KINDS,
    BEHIND_LENGTH, BEHIND_PROJECT, BEHIND_PROJECTS, BEHIND_SEPARATION, BITS_1, BITS_2, BITS_3,
    BITS_4, BITS_5, BITS_7, BITS_10, BITS_12, HEADER, KIND, PROJECT,
};

// What some bytes say, and whether every spare bit in them is zero.
// kept: a flag and no Option, since `standing` takes the value whatever the spare bits are.
#[derive(Clone, Copy)]
pub struct Part<T> {
    pub value: T,
    pub clean: bool,
}

// What stands at places of a plan's bytes: a project or a unit kind.
pub(crate) trait Place: Copy {
    ghost WIDTH: { ℕ };

    ghost read: { List ℕ → Self };

    ghost spare: { List ℕ → ℕ };

    // The bytes of a place.
    const WIDTH: usize;

    // What stands at the front of s, with its spare bits.
    fn from_front(s: &[u8]) -> Part<Self>
        requires { WIDTH ≤ length s.now }
        ensures { (result.value ≡ read s.now) × (result.clean ≡ (spare s.now == 0)) };
}

// The counts at the front of s, with the spare bits after them.
pub(crate) fn header_from(s: &[u8]) -> Part<Plan>
    requires { 3 ≤ length s.now }
    ensures { (result.value ≡ headed s.now) × (result.clean ≡ (header_spare s.now == 0)) }
{
    let fields = codec::number(s, HEADER);
    Part {
        value: Plan {
            cards: (fields / BEHIND_CARDS % BITS_4) as u8,
            projects: (fields / BEHIND_PROJECTS % BITS_4) as u8,
            kinds: (fields / BEHIND_KINDS % BITS_5) as u8,
            frame: (fields / BEHIND_FRAME % BITS_7) as u8,
            ..Plan::empty()
        },
        clean: fields % BITS_4 == 0,
    }
}

impl Place for Project {
    ghost WIDTH = { 2 };

    ghost read = { project_from };

    ghost spare = { project_spare };

    const WIDTH: usize = PROJECT;

    fn from_front(s: &[u8]) -> Part<Self> {
        let fields = codec::number(s, PROJECT);
        Part {
            value: Project {
                ceiling: (fields / BEHIND_CEILING % BITS_4) as u8,
                budget: (fields / BEHIND_BUDGET % BITS_10) as u16,
            },
            clean: fields % BITS_2 == 0,
        }
    }
}

impl Place for Kind {
    ghost WIDTH = { 5 };

    ghost read = { kind_from };

    ghost spare = { kind_spare };

    const WIDTH: usize = KIND;

    fn from_front(s: &[u8]) -> Part<Self> {
        let fields = codec::number(s, KIND);
        Part {
            value: Kind {
                project: (fields / BEHIND_PROJECT % BITS_3) as u8,
                separation: (fields / BEHIND_SEPARATION % BITS_12) as u16,
                deadline: (fields / BEHIND_DEADLINE % BITS_12) as u16,
                length: (fields / BEHIND_LENGTH % BITS_12) as u16,
            },
            clean: fields % BITS_1 == 0,
        }
    }
}
