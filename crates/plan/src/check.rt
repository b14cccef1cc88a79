// The record check: 2, 3, 4, 5/6, 7, in that order. It answers any record, whatever its fields
// hold. Each stage's answer is opened with `let .. else`, and a refusal leaves at once.
mod open;

ghost use Rattle.std.specs.Prelude.{◌≡◌, ◌≤◌, ◌&&◌, ◌||◌, ◌*◌, Option, ℕ, Bool};
ghost use Rattle.plan.specs.Order.{within, empty_project, empty_kind, timed, sized, sizes, kind_in_range, checked};
ghost use Rattle.plan.specs.Order.{tidy_projects, tidy_kinds, unused, kinds_in_range, budgets};
ghost use Rattle.answer.specs.declared.Answer.TheVariants.{Good};
ghost use Rattle.plan.specs.Open.{projects_in_range_but};

use crate::{Kind, Plan, Project};
use answer::Answer;

fn within(x: u16, most: u16) -> bool
    ensures { result ≡ within most x }
{
    (1..=most).contains(&x)
}

impl Project {
    fn is_empty(self) -> bool
        ensures { result ≡ empty_project self }
    {
        self == Project::default()
    }

    // The ceiling, and the budget unless that is skipped.
    fn in_range(self, cards: u8, frame: u8, skipped: bool) -> bool
        ensures { result ≡ (within cards self.ceiling && (skipped || within (self.ceiling * frame) self.budget)) }
    {
        within(u16::from(self.ceiling), u16::from(cards))
            && (skipped || within(self.budget, u16::from(self.ceiling) * u16::from(frame)))
    }
}

impl Kind {
    fn is_empty(self) -> bool
        ensures { result ≡ empty_kind self }
    {
        self == Kind::default()
    }

    fn timed(self) -> bool
        ensures { result ≡ timed self }
    {
        self.length != 0
            && self.length <= self.deadline
            && self.deadline <= self.separation
            && self.separation <= Kind::LONGEST
    }

    fn in_range(self, projects: u8, place: u8) -> Answer
        ensures { result ≡ kind_in_range projects self place }
    {
        if projects <= self.project {
            return Answer::at_kind(5, place);
        }
        if !self.timed() {
            return Answer::at_kind(6, place);
        }
        Answer::Good
    }
}

impl Plan {
    fn sized(self) -> bool
        ensures { result ≡ sized self }
    {
        within(u16::from(self.cards), Plan::CARDS as u16)
            && within(u16::from(self.projects), Plan::PROJECTS as u16)
            && within(u16::from(self.kinds), Plan::KINDS as u16)
            && within(u16::from(self.frame), Plan::FRAME as u16)
    }

    // Whether the counts and the frame are in range. Reading asks this before it looks at a place.
    pub fn sizes(self) -> Answer
        ensures { result ≡ sizes self }
    {
        if !self.sized() {
            return Answer::bare(2);
        }
        Answer::Good
    }

    // "places beyond p .. hold zeros". This goes over all the places, as does the loop over the
    // kinds: where few are used, a loop whose length is known is quicker than one over the unused.
    fn projects_tidy(&self) -> bool
        ensures { result ≡ tidy_projects self.now }
    {
        for (j, project) in self.project.iter().enumerate() {
            if usize::from(self.projects) <= j && !project.is_empty() {
                return false;
            }
        }
        true
    }

    // "places beyond .. n hold zeros"
    fn kinds_tidy(&self) -> bool
        ensures { result ≡ tidy_kinds self.now }
    {
        for (i, kind) in self.kind.iter().enumerate() {
            if usize::from(self.kinds) <= i && !kind.is_empty() {
                return false;
            }
        }
        true
    }

    fn tidy(&self) -> bool
        ensures { result ≡ (tidy_projects self.now && tidy_kinds self.now) }
    {
        self.projects_tidy() && self.kinds_tidy()
    }

    fn unused(&self) -> Answer
        ensures { result ≡ unused self.now }
    {
        if !self.tidy() {
            return Answer::bare(3);
        }
        Answer::Good
    }

    // 4, at the first such project, with one budget skipped or none; and where there is no such
    // project, the sum of the budgets, which are added up while the projects are at hand.
    // kept: each stage that goes by the counts asks for counts in range; a type of such plans would
    // be made and opened in `check` and `check_open` alone.
    fn projects_in_range(&self, skipped: Option<usize>) -> (Answer, u32)
        requires { self.now.projects ≤ 8 }
        ensures { (result.0 ≡ projects_in_range_but skipped self.now) × (result.0 ≡ Good → result.1 ≡ budgets self.now) }
    {
        let mut sum: u32 = 0;
        for (j, project) in self.project[..usize::from(self.projects)]
            .iter()
            .enumerate()
        {
            if !project.in_range(self.cards, self.frame, skipped == Some(j)) {
                return (Answer::at_project(4, j as u8), sum);
            }
            sum += u32::from(project.budget);
        }
        (Answer::Good, sum)
    }

    // 5/6, at the first such kind.
    fn kinds_in_range(&self) -> Answer
        requires { self.now.kinds ≤ 16 }
        ensures { result ≡ kinds_in_range self.now }
    {
        for (i, kind) in self.kind[..usize::from(self.kinds)].iter().enumerate() {
            let answer = kind.in_range(self.projects, i as u8);
            let Answer::Good = answer else {
                return answer;
            };
        }
        Answer::Good
    }

    // Whether the record is in order. Every operation asks this first. The stages take the record
    // by reference, so that none makes a copy of it.
    pub fn check(self) -> Answer
        ensures { result ≡ checked self }
    {
        let sizes = self.sizes();
        let Answer::Good = sizes else {
            return sizes;
        };
        let unused = self.unused();
        let Answer::Good = unused else {
            return unused;
        };
        let (projects, budgets) = self.projects_in_range(None);
        let Answer::Good = projects else {
            return projects;
        };
        let kinds = self.kinds_in_range();
        let Answer::Good = kinds else {
            return kinds;
        };
        if u32::from(self.cards) * u32::from(self.frame) < budgets {
            return Answer::bare(7);
        }
        Answer::Good
    }
}
