// Whether a state is in form and its sums are right, and the tests that every call on a state
// shares: the record order, 10, 16.
ghost use Rattle.std.specs.Prelude.{◌≡◌, ◌≤◌};
ghost use Rattle.rack.specs.Form.{sum_fits, sums_fit, sums_agree, ready};
ghost use Rattle.rack.specs.Found.{Finds, answered};

use crate::State;
use answer::{Answer, Refusal};
use plan::Plan;

// What the seats go by.
#[derive(Clone, Copy)]
pub(crate) struct Found {
    pub(crate) works: [u8; Plan::KINDS],
    pub(crate) until: [u16; Plan::KINDS],
}

// What a check answers: good, or the refusal.
pub(crate) fn answer_of(checked: &Result<Found, Refusal>) -> Answer
    ensures { result ≡ answered checked.now }
{
    match checked {
        Ok(_) => Answer::Good,
        Err(why) => Answer::No(*why),
    }
}

// Whether a stored sum may stand at its place: any where the plan has that project, 0 where not.
#[tactic(auto, unfolding(crate::specs::Form::sum_fits))]
fn sum_fits(used: bool, sum: u16) -> bool
    ensures { result ≡ sum_fits used sum }
{
    used || sum == 0
}

// Whether each stored sum may stand at its place.
fn sums_fit(sum: &[u16; Plan::PROJECTS], projects: usize) -> bool
    ensures { result ≡ sums_fit sum.now projects }
{
    for (j, sum) in sum.iter().enumerate() {
        if !sum_fits(j < projects, *sum) {
            return false;
        }
    }
    true
}

// Whether each project's stored sum is what was found left of it.
#[tactic(auto, using(crate::specs::Form::Properties::same_front), unfolding(crate::specs::Form::sums_agree))]
fn sums_agree(sum: &[u16; Plan::PROJECTS], left: &[u16; Plan::PROJECTS], projects: usize) -> bool
    requires { projects ≤ 8 }
    ensures { result ≡ sums_agree sum.now left.now projects }
{
    sum[..projects] == left[..projects]
}

impl State {
    // Whether the plan is in order, the state in form and its sums right: the record order, 10, 16.
    // One pass over the kinds: each place in form, what the seats go by put down, and its slices
    // left added to its project's. A record of which a place is read by a number that varies, or of
    // which a part is lent, is copied whole; so the arrays are taken out of the records, and this is
    // one function.
    pub(crate) fn check(self) -> Result<Found, Refusal>
        ensures { Finds self result }
    {
        if let Answer::No(why) = self.plan.check() {
            return Err(why);
        }
        if self.plan.frame <= self.slice {
            return Err(Refusal::bare(10));
        }
        let kinds = self.plan.kind;
        let units = self.unit;
        let sum = self.sum;
        let mut works = [0u8; Plan::KINDS];
        let mut until = [0u16; Plan::KINDS];
        let mut left = [0u16; Plan::PROJECTS];
        for (i, unit) in units.iter().enumerate() {
            let kind = kinds[i];
            if !unit.fits_place(self.in_use(i), kind) {
                return Err(Refusal::bare(10));
            }
            if unit.left == 0 {
                continue;
            }
            works[i] = kind.project + 1;
            until[i] = unit.until_due(kind.deadline);
            left[usize::from(kind.project)] += unit.left;
        }
        let projects = usize::from(self.plan.projects);
        if !sums_fit(&sum, projects) {
            return Err(Refusal::bare(10));
        }
        if !sums_agree(&sum, &left, projects) {
            return Err(Refusal::bare(16));
        }
        Ok(Found { works, until })
    }
}
