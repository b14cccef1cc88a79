// The admission verdict: document 01, "Supply and verdict". Any record is answered: the record
// order first, then 8 with the first kind that has no k.
#![tactic(auto)]

mod figures;

ghost use Rattle.std.specs.Prelude.{◌≡◌, replicate, ◌+◌, ◌*◌, ◌≤◌, ◌<◌, eqb};
ghost use Rattle.answer.specs.Answer.{not_admitted, refuse};
ghost use Rattle.plan.specs.Order.{kind_of};
ghost use Rattle.verdict.specs.Verdict.{admitted, verdict_of, judged};
ghost use Rattle.verdict.specs.Steps.{run_cards, project_cards, all_cards, fit_on};

use answer::Answer;
pub use figures::{Figures, kind_figures};
use plan::{Ordered, Plan};
use supply::Fit;

// The answer, and beside it document 01's k for each kind: the most cards that count at one
// slice, hence a width; and the bad slice to arrive in for that k. Places beyond the kinds hold 0,
// and on a refusal every place does.
// kept: no Result, since document 01 has it: "A refused verdict gives k 0 for every kind".
#[derive(Clone, Copy)]
pub struct Verdict {
    pub answer: Answer,
    // kept: two arrays, as `judged` and the C interface have them.
    pub width: [u8; Plan::KINDS],
    pub slice: [u8; Plan::KINDS],
}

fn refused(answer: Answer) -> Verdict
    ensures { result ≡ record { answer = answer; width = replicate 16 0; slice = replicate 16 0 } }
{
    Verdict {
        answer,
        width: [0u8; Plan::KINDS],
        slice: [0u8; Plan::KINDS],
    }
}

// The cards that a run of cells holds at each slice of the frame.
fn run_cards(first: u16, budget: u16, frame: u8) -> [u8; Plan::FRAME]
    requires { (0 < frame) × (frame ≤ 64) × (first ≤ 512) × (budget ≤ 8 * frame) }
    ensures { result ≡ run_cards first budget frame }
{
    let end = first + budget;
    let mut cards = [0u8; Plan::FRAME];
    for (s, held) in cards[..frame as usize].iter_mut().enumerate() {
        let below = layout::cards_below(first, frame, s as u8);
        *held = (layout::cards_below(end, frame, s as u8) - below) as u8;
    }
    cards
}

// The cards that each project holds at each slice of the frame.
fn all_cards(ordered: Ordered) -> [[u8; Plan::FRAME]; Plan::PROJECTS]
    ensures { result ≡ all_cards ordered.plan }
{
    let plan = ordered.plan;
    let mut cards = [[0u8; Plan::FRAME]; Plan::PROJECTS];
    let mut first: u16 = 0;
    for (j, project) in plan.project[..plan.projects as usize].iter().enumerate() {
        cards[j] = run_cards(first, project.budget, plan.frame);
        first += project.budget;
    }
    cards
}

// The k, the excess and the bad slice of a kind, from the cards that its project holds.
fn fit_on(ordered: Ordered, cards: [u8; Plan::FRAME], i: u8) -> Fit
    requires { (i < ordered.plan.kinds) × (cards ≡ project_cards ordered.plan (kind_of ordered.plan i).project) }
    ensures { result ≡ fit_on ordered.plan i }
{
    let plan = ordered.plan;
    let kind = plan.kind[i as usize];
    let ceiling = plan.project[kind.project as usize].ceiling;
    let others = workload::workload(plan, i as usize);
    supply::least_fit(
        cards,
        plan.frame,
        ceiling,
        kind.length,
        others as u32,
        kind.deadline,
    )
}

// 8 for a kind with no k.
fn told(fit: Fit, place: u8) -> Answer
    requires { fit.excess ≤ 16777215 }
    ensures { result ≡ refuse (eqb fit.width 0) (not_admitted place fit.excess fit.slice) }
{
    if fit.width == 0 {
        return Answer::not_admitted(place, fit.excess as u32, fit.slice);
    }
    Answer::Good
}

// The verdict on a plan in order.
fn fits(ordered: Ordered) -> Verdict
    ensures { result ≡ verdict_of ordered.plan (admitted ordered.plan) }
{
    let plan = ordered.plan;
    let cards = all_cards(ordered);
    let mut width = [0u8; Plan::KINDS];
    let mut slice = [0u8; Plan::KINDS];
    for (i, kind) in plan.kind[..plan.kinds as usize].iter().enumerate() {
        let place = i as u8;
        let fit = fit_on(ordered, cards[kind.project as usize], place);
        let answer = told(fit, place);
        let Answer::Good = answer else {
            return refused(answer);
        };
        width[i] = fit.width;
        slice[i] = fit.slice;
    }
    Verdict {
        answer: Answer::Good,
        width,
        slice,
    }
}

// Whether a plan is admitted, and with which k and bad slice for each kind.
pub fn judge(plan: Plan) -> Verdict
    ensures { result ≡ judged plan }
{
    let order = plan.check();
    let Answer::Good = order else {
        return refused(order);
    };
    fits(Ordered { plan })
}
