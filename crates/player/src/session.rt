// A play, line by line: the plan's line, one for each command, and the last.
ghost use Rattle.std.specs.Prelude.{◌≡◌, ◌≤◌, not, ◌&&◌, eqb, length};
ghost use Rattle.answer.specs.Answer.{number};
ghost use Rattle.lines.specs.Line.{line_room};
ghost use Rattle.player.specs.Session.{unopened, is_over, stay, progress_of, refused_at, Leaves, Plays};

use crate::run::run;
use answer::Answer;
use lines::Line;
use rack::State;

// Where a play stands: before the plan, among the commands in a state, or after the last line, in
// the state that it came to.
#[derive(Clone, Copy)]
pub enum Session {
    Opening,
    Running(State),
    Over(State),
}

// What playing leaves: the session, the bytes taken, and the count of bytes printed.
#[derive(Clone, Copy)]
pub struct Progress {
    pub session: Session,
    pub taken: usize,
    pub count: usize,
}

// Whether more of the plan has to come first: it is cut short, and the input has not ended.
fn waits(answer: Answer, last: bool) -> bool
    ensures { result ≡ (not last && eqb (number answer) 1) }
{
    !last && answer.number() == 1
}

// The line of a refused plan is the last.
fn refused(answer: Answer, out: &mut [u8]) -> Progress
    requires { line_room ≤ length out.old }
    ensures { Leaves (refused_at answer) out.old result out.new }
{
    Progress {
        session: Session::Over(State::empty()),
        taken: 0,
        count: Line::Plan(answer).put(&[0; 8], out, 0),
    }
}

// The first line, and then the commands' lines.
fn open(bytes: &[u8], last: bool, out: &mut [u8]) -> Progress
    ensures { Plays unopened last bytes.now out.old result out.new }
{
    if out.len() < Line::ROOM {
        return Session::Opening.stay();
    }
    let reading = plan_reader::read(bytes);
    let answer = reading.answer;
    if waits(answer, last) {
        return Session::Opening.stay();
    }
    let Answer::Good = answer else {
        return refused(answer, out);
    };
    let start = State::start(reading.plan);
    let started = start.answer;
    let Answer::Good = started else {
        return refused(started, out);
    };
    let count = Line::Plan(started).put(&[0; 8], out, 0);
    run(
        start.state,
        bytes,
        last,
        out,
        reading.taken,
        count,
        out.len() - 1,
    )
}

impl Session {
    // Before the plan.
    pub fn new() -> Self
        ensures { result ≡ unopened }
    {
        Self::Opening
    }

    // Whether the last line was printed.
    pub fn is_over(self) -> bool
        ensures { result ≡ is_over self }
    {
        matches!(self, Session::Over(_))
    }

    // More input has to come first, or there is nothing more to print.
    fn stay(self) -> Progress
        ensures { result ≡ progress_of (stay self) }
    {
        Progress {
            session: self,
            taken: 0,
            count: 0,
        }
    }

    // Plays the bytes that are there: the lines that out has room for, from its front on. After
    // these bytes the input goes on, or has ended where last says so.
    pub fn play(self, bytes: &[u8], last: bool, out: &mut [u8]) -> Progress
        ensures { Plays self last bytes.now out.old result out.new }
    {
        match self {
            Session::Opening => open(bytes, last, out),
            Session::Running(state) => run(state, bytes, last, out, 0, 0, out.len()),
            Session::Over(_) => self.stay(),
        }
    }
}
