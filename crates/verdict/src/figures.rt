// The figures that the comparison of a kind goes by, whether the plan is admitted or not: the
// workload W, and for each k of 1 to the ceiling S(k,D) with its bad slice. Any record and any kind
// number is answered: the record order first, then 12.
ghost use Rattle.std.specs.Prelude.{◌≡◌, ◌<◌};
ghost use Rattle.answer.specs.declared.Answer.TheVariants.{Good};
ghost use Rattle.verdict.specs.Figures.{no_figures, figures_with, figures_of};

use crate::all_cards;
use answer::Answer;
use plan::{Ordered, Plan};

// The answer, and beside it how many k there are, the workload, and S(k,D) and its bad slice with
// those of k at place k - 1. Places beyond the ceiling hold 0, and on a refusal everything does.
// kept: no Result, since document 01 has it: "any .. figure .. that its answer carries is zero when refused".
#[derive(Clone, Copy)]
pub struct Figures {
    pub answer: Answer,
    pub widths: u8,
    pub workload: u32,
    // kept: two arrays, as `figures_of` and the C interface have them.
    pub supply: [u32; Plan::CARDS],
    pub slice: [u8; Plan::CARDS],
}

fn no_figures(answer: Answer) -> Figures
    ensures { result ≡ no_figures answer }
{
    Figures {
        answer,
        widths: 0,
        workload: 0,
        supply: [0u32; Plan::CARDS],
        slice: [0u8; Plan::CARDS],
    }
}

// The figures of a kind of a plan in order.
fn figures_on(ordered: Ordered, i: u8) -> Figures
    requires { i < ordered.plan.kinds }
    ensures { result ≡ figures_with ordered.plan i Good }
{
    let plan = ordered.plan;
    let all = all_cards(ordered);
    let kind = plan.kind[i as usize];
    let project = kind.project as usize;
    let ceiling = plan.project[project].ceiling;
    let cards = all[project];
    let others = workload::workload(plan, i as usize) as u32;
    let mut supply = [0u32; Plan::CARDS];
    let mut slice = [0u8; Plan::CARDS];
    // kept: by place, since one call gives what stands there in both arrays.
    for below in 0..ceiling {
        let given = supply::supply(cards, plan.frame, below + 1, kind.deadline);
        supply[below as usize] = given.value;
        slice[below as usize] = given.slice;
    }
    Figures {
        answer: Answer::Good,
        widths: ceiling,
        workload: others,
        supply,
        slice,
    }
}

// What a kind asks and what it is given, at each k.
pub fn kind_figures(plan: Plan, kind: usize) -> Figures
    ensures { result ≡ figures_of plan kind }
{
    let order = plan.check();
    let Answer::Good = order else {
        return no_figures(order);
    };
    if plan.kinds as usize <= kind {
        return no_figures(Answer::bare(12));
    }
    figures_on(Ordered { plan }, kind as u8)
}
