// A plan: cards, a frame, projects and their unit kinds; and whether its record is in order.
//
// Document 01, "What the base holds" and the refusals 2 to 7 of "Numbers given back when we say
// no". A plan goes by value. Every record is answered, whatever its fields hold.
#![tactic(auto)]

mod check;
mod ordered;

ghost use Rattle.std.specs.Prelude.{◌≡◌};
ghost use Rattle.plan.specs.Record.{no_plan};

pub use ordered::Ordered;

// A project's ceiling and budget.
#[derive(Clone, Copy, Default, PartialEq)]
pub struct Project {
    pub ceiling: u8,
    pub budget: u16,
}

// A unit kind: the project it names, and its separation, deadline and length in slices.
#[derive(Clone, Copy, Default, PartialEq)]
pub struct Kind {
    pub project: u8,
    pub separation: u16,
    pub deadline: u16,
    pub length: u16,
}

// The counts of cards, projects and kinds, the frame's length, and a place for each project and
// each kind. Places beyond the counts hold zeros.
#[derive(Clone, Copy)]
pub struct Plan {
    pub cards: u8,
    pub projects: u8,
    pub kinds: u8,
    pub frame: u8,
    pub project: [Project; Plan::PROJECTS],
    pub kind: [Kind; Plan::KINDS],
}

impl Kind {
    pub const LONGEST: u16 = 4095;
}

impl Plan {
    pub const CARDS: usize = 8;

    pub const PROJECTS: usize = 8;

    pub const KINDS: usize = 16;

    pub const FRAME: usize = 64;

    // The all-zero plan.
    pub fn empty() -> Self
        ensures { result ≡ no_plan }
    {
        Plan {
            cards: 0,
            projects: 0,
            kinds: 0,
            frame: 0,
            project: [Project::default(); Plan::PROJECTS],
            kind: [Kind::default(); Plan::KINDS],
        }
    }
}
