// The parts of a plan's bytes, each written at its place.
ghost use Rattle.std.specs.Prelude.{◌≡◌, ℕ, ◌≤◌, [], ◌∷◌, length};
ghost use Rattle.std.proofs.lemmas.List.Edits.{sets};
ghost use Rattle.codec.specs.Pack.{pack};
ghost use Rattle.plan.specs.Record.{no_project, no_kind};
ghost use Rattle.plan_bytes.specs.Parts.{header_bytes, project_widths, kind_widths};

use plan::{Kind, Plan, Project};
use plan_bytes::{
    BEHIND_BUDGET, BEHIND_CARDS, BEHIND_CEILING, BEHIND_DEADLINE, BEHIND_FRAME, BEHIND_KINDS,
    BEHIND_LENGTH, BEHIND_PROJECT, BEHIND_PROJECTS, BEHIND_SEPARATION, HEADER, KIND, PROJECT,
};

// The header of a plan, at the front of out.
pub(crate) fn put_header(plan: Plan, out: &mut [u8])
    requires { 3 ≤ length out.old }
    ensures { out.new ≡ sets out.old 0 (header_bytes plan) }
{
    let fields = u64::from(plan.cards) * BEHIND_CARDS
        + u64::from(plan.projects) * BEHIND_PROJECTS
        + u64::from(plan.kinds) * BEHIND_KINDS
        + u64::from(plan.frame) * BEHIND_FRAME;
    codec::put_number(fields, &mut out[..HEADER]);
}

// What is written at places of a plan's bytes: a project or a unit kind.
// kept: beside the reader's trait of that name, since reading and writing share the width alone.
pub(crate) trait Place: Copy {
    ghost WIDTH: { ℕ };

    ghost none: { Self };

    ghost packed: { Self → ℕ };

    // The bytes of a place.
    const WIDTH: usize;

    // Its fields as one number.
    fn fields(self) -> u64
        ensures { result ≡ packed self };
}

impl Place for Project {
    ghost WIDTH = { 2 };

    ghost none = { no_project };

    ghost packed = { λ v. pack project_widths (v.ceiling ∷ v.budget ∷ 0 ∷ []) };

    const WIDTH: usize = PROJECT;

    fn fields(self) -> u64 {
        u64::from(self.ceiling) * BEHIND_CEILING + u64::from(self.budget) * BEHIND_BUDGET
    }
}

impl Place for Kind {
    ghost WIDTH = { 5 };

    ghost none = { no_kind };

    ghost packed = { λ v. pack kind_widths (v.project ∷ v.separation ∷ v.deadline ∷ v.length ∷ 0 ∷ []) };

    const WIDTH: usize = KIND;

    fn fields(self) -> u64 {
        u64::from(self.project) * BEHIND_PROJECT
            + u64::from(self.separation) * BEHIND_SEPARATION
            + u64::from(self.deadline) * BEHIND_DEADLINE
            + u64::from(self.length) * BEHIND_LENGTH
    }
}
