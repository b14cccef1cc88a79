// The record check with one project's budget left open: 2, 3, 27, 4 but for that budget, 5/6. Any
// record and any project number is answered, and what the open budget holds has no say.
ghost use Rattle.std.specs.Prelude.{◌≡◌, ◌≤◌};
ghost use Rattle.plan.specs.Open.{project_there, ranges_open, checked_open};

use crate::Plan;
use answer::Answer;

impl Plan {
    fn project_there(&self, project: usize) -> Answer
        ensures { result ≡ project_there self.now project }
    {
        if usize::from(self.projects) <= project {
            return Answer::bare(27);
        }
        Answer::Good
    }

    // 27, 4, 5/6.
    fn ranges_open(&self, project: usize) -> Answer
        requires { (self.now.projects ≤ 8) × (self.now.kinds ≤ 16) }
        ensures { result ≡ ranges_open self.now project }
    {
        let there = self.project_there(project);
        let Answer::Good = there else {
            return there;
        };
        let (projects, _) = self.projects_in_range(Some(project));
        let Answer::Good = projects else {
            return projects;
        };
        self.kinds_in_range()
    }

    // Whether the record is in order but for the budget of one project, which is left open, and for
    // the sum of the budgets.
    pub fn check_open(self, project: usize) -> Answer
        ensures { result ≡ checked_open self project }
    {
        let sizes = self.sizes();
        let Answer::Good = sizes else {
            return sizes;
        };
        let unused = self.unused();
        let Answer::Good = unused else {
            return unused;
        };
        self.ranges_open(project)
    }
}
