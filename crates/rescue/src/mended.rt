// The plan that is made of a damaged one: ceilings and budgets, then deadlines, then the kinds that
// stay, in their order.
ghost use Rattle.std.specs.Prelude.{◌≡◌, ◌≤◌, replicate};
ghost use Rattle.laws.specs.Written.{written};
ghost use Rattle.plan.specs.Record.{no_project};
ghost use Rattle.rescue.specs.Mended.{project_for, project_for_at, kind_for, kept, plan_for};

use plan::{Kind, Plan, Project};

// Its ceiling and then its budget, which is judged with the new ceiling.
pub(crate) fn project_for(project: Project, cards: u8, frame: u8) -> Project
    ensures { result ≡ project_for cards frame project }
{
    let ceiling = project.ceiling.max(1).min(cards);
    let budget = project
        .budget
        .max(1)
        .min(u16::from(ceiling) * u16::from(frame));
    Project { ceiling, budget }
}

pub(crate) fn kind_for(kind: Kind) -> Kind
    ensures { result ≡ kind_for kind }
{
    Kind {
        deadline: kind.deadline.min(kind.separation),
        ..kind
    }
}

// Whether a kind stays, judged with its new deadline.
pub(crate) fn kept(kind: Kind, projects: u8) -> bool
    ensures { result ≡ kept projects kind }
{
    let mended = kind_for(kind);
    mended.project < projects && mended.length != 0 && mended.length <= mended.deadline
}

fn projects_for(plan: Plan) -> [Project; Plan::PROJECTS]
    requires { plan.projects ≤ 8 }
    ensures { result ≡ written plan.projects (project_for_at plan) (replicate 8 no_project) }
{
    let mut project = Plan::empty().project;
    for (j, damaged) in plan.project[..usize::from(plan.projects)]
        .iter()
        .enumerate()
    {
        project[j] = project_for(*damaged, plan.cards, plan.frame);
    }
    project
}

pub(crate) fn plan_for(plan: Plan) -> Plan
    requires { (plan.projects ≤ 8) × (plan.kinds ≤ 16) }
    ensures { result ≡ plan_for plan }
{
    let mut kind = Plan::empty().kind;
    let mut kinds: u8 = 0;
    for damaged in &plan.kind[..usize::from(plan.kinds)] {
        if kept(*damaged, plan.projects) {
            kind[usize::from(kinds)] = kind_for(*damaged);
            kinds += 1;
        }
    }
    Plan {
        kinds,
        project: projects_for(plan),
        kind,
        ..plan
    }
}
