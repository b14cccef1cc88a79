// The smallest budget of a project: document 02 (i). Any record and any project number is answered:
// the record order with that budget left open, then 8 where not even qF serves, then 7.
//
// A project's supply does not depend on its first cell, so its cells are laid from cell 0 on; and a
// greater budget never takes a fit away, so the least one is found by halving: at most ten
// judgements of the project's kinds, the one at qF among them.
#![tactic(auto)]

ghost use Rattle.std.specs.Prelude.{◌≡◌, ◌+◌, ◌*◌, ◌≤◌, ◌<◌, length, take};
ghost use Rattle.answer.specs.declared.Answer.TheVariants.{Good};
ghost use Rattle.answer.specs.Answer.{◌and_then◌};
ghost use Rattle.plan.specs.Order.{budgets_fit};
ghost use Rattle.plan.specs.Open.{with_budget, InOrderOpen};
ghost use Rattle.smallest_budget.specs.Smallest.{most_budget, served_with, least_budget, served_at_most, sum_fits};
ghost use Rattle.smallest_budget.specs.Smallest.{smallest_with, smallest_of};
ghost use Rattle.smallest_budget.specs.Steps.{cards_with, asked_of, fit_by, served_by};

use answer::Answer;
use plan::Plan;

// The answer, and beside it the least budget; 0 on a refusal.
// kept: no Result, since document 01 has it: "any .. figure .. that its answer carries is zero when refused".
#[derive(Clone, Copy)]
pub struct Smallest {
    pub answer: Answer,
    pub budget: u16,
}

fn refused(answer: Answer) -> Smallest
    ensures { result ≡ record { answer = answer; budget = 0 } }
{
    Smallest { answer, budget: 0 }
}

// The cards that a budget from cell 0 on holds at each slice of the frame.
fn cards_with(budget: u16, frame: u8) -> [u8; Plan::FRAME]
    requires { (0 < frame) × (frame ≤ 64) × (budget ≤ 8 * frame) }
    ensures { result ≡ cards_with budget frame }
{
    let whole = budget / frame as u16;
    let rest = (budget % frame as u16) as usize;
    let mut cards = [0u8; Plan::FRAME];
    for (s, held) in cards[..frame as usize].iter_mut().enumerate() {
        *held = (whole + u16::from(s < rest)) as u8;
    }
    cards
}

// What is asked of a kind: its project, its length, its deadline and its workload. No budget changes
// it, and these are lent, so that no record is copied for a budget that is tried.
#[derive(Clone, Copy)]
struct Asked {
    project: u8,
    length: u16,
    deadline: u16,
    workload: u32,
}

// 8 at the first of the project's kinds that has no k with this budget.
fn served_with(project: u8, frame: u8, ceiling: u8, asked: &[Asked], budget: u16) -> Answer
    requires { (length asked.now ≤ 16) × (0 < frame) × (frame ≤ 64) × (budget ≤ 8 * frame) }
    ensures { result ≡ served_by project asked.now (fit_by frame ceiling asked.now budget) }
{
    let cards = cards_with(budget, frame);
    for (i, kind) in asked.iter().enumerate() {
        if kind.project != project {
            continue;
        }
        let fit = supply::least_fit(
            cards,
            frame,
            ceiling,
            kind.length,
            kind.workload,
            kind.deadline,
        );
        if fit.width == 0 {
            return Answer::not_admitted(i as u8, fit.excess as u32, fit.slice);
        }
    }
    Answer::Good
}

// A plan in order but for one project's budget, which is left open.
#[derive(Clone, Copy)]
struct Open {
    plan: Plan,
    project: u8,
    ghost in_order: { InOrderOpen plan project },
}

impl Open {
    // What is asked of each kind of the plan.
    fn asked(self) -> [Asked; Plan::KINDS]
        ensures { result ≡ asked_of self.plan }
    {
        let nothing = Asked {
            project: 0,
            length: 0,
            deadline: 0,
            workload: 0,
        };
        let mut asked = [nothing; Plan::KINDS];
        for (i, kind) in self.plan.kind[..self.plan.kinds as usize]
            .iter()
            .enumerate()
        {
            asked[i] = Asked {
                project: kind.project,
                length: kind.length,
                deadline: kind.deadline,
                workload: workload::workload(self.plan, i) as u32,
            };
        }
        asked
    }

    // The least budget that serves, where the most does: of a budget that does not serve and a
    // greater one that does, one of the two comes half way to the other.
    fn least_budget(self, asked: &[Asked], most: u16) -> u16
        requires { (asked.now ≡ take self.plan.kinds (asked_of self.plan))
            × (most ≡ most_budget self.plan self.project) × (served_with self.plan self.project most ≡ Good) }
        ensures { result ≡ least_budget self.plan self.project }
    {
        let ceiling = self.plan.project[self.project as usize].ceiling;
        let mut below: u16 = 0;
        let mut enough = most;
        // kept: a search by halving, over budgets and not over a slice.
        while below + 1 < enough {
            let middle = (below + enough) / 2;
            let served = served_with(self.project, self.plan.frame, ceiling, asked, middle);
            let Answer::Good = served else {
                below = middle;
                continue;
            };
            enough = middle;
        }
        enough
    }

    // 7 with this budget written in. Nothing before it is refused then.
    fn sum_fits(self, budget: u16) -> Answer
        requires { (0 < budget) × (budget ≤ most_budget self.plan self.project) }
        ensures { result ≡ budgets_fit (with_budget self.plan self.project budget) }
    {
        let mut filled = self.plan;
        filled.project[self.project as usize].budget = budget;
        filled.check()
    }

    // 8, then 7, then the least budget.
    fn smallest(self) -> Smallest
        ensures { result ≡ smallest_with self.plan self.project
            (served_at_most self.plan self.project and_then sum_fits self.plan self.project) }
    {
        let all = self.asked();
        let asked = &all[..self.plan.kinds as usize];
        let ceiling = self.plan.project[self.project as usize].ceiling;
        let most = ceiling as u16 * self.plan.frame as u16;
        let served = served_with(self.project, self.plan.frame, ceiling, asked, most);
        let Answer::Good = served else {
            return refused(served);
        };
        let budget = self.least_budget(asked, most);
        let sum = self.sum_fits(budget);
        let Answer::Good = sum else {
            return refused(sum);
        };
        Smallest {
            answer: sum,
            budget,
        }
    }
}

// The least budget at which all of a project's kinds fit.
pub fn smallest_budget(plan: Plan, project: usize) -> Smallest
    ensures { result ≡ smallest_of plan project }
{
    let order = plan.check_open(project);
    let Answer::Good = order else {
        return refused(order);
    };
    let open = Open {
        plan,
        project: project as u8,
    };
    open.smallest()
}
