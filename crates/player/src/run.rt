// The commands' lines, one after the other. Every command hands its state on to the next, and a
// state is long: the loop keeps it in one place, and makes a session of it only at its end.
ghost use Rattle.std.specs.Prelude.{◌≡◌, not, ◌&&◌, ◌≤◌, ltb, eqb, length};
ghost use Rattle.player.specs.Session.{run_from, Leaves};

use crate::{Progress, Session};
use commands::Command;
use lines::Line;
use rack::State;

// Whether the input has ended, and none of its bytes are left.
fn is_end(last: bool, left: usize) -> bool
    ensures { result ≡ (last && eqb left 0) }
{
    last && left == 0
}

// Whether more of a command has to come first.
fn is_short(last: bool, left: usize) -> bool
    ensures { result ≡ (not last && ltb left 3) }
{
    !last && left < 3
}

// Plays commands from a state on, with so many bytes taken and so many printed: at most so many
// lines.
// kept: three of the seven are the loop's own and end in a Progress. A Progress in their place holds
// a Session, of which each turn would first have to take the state out.
pub(crate) fn run(
    mut state: State,
    bytes: &[u8],
    last: bool,
    out: &mut [u8],
    mut taken: usize,
    mut count: usize,
    most: usize,
) -> Progress
    requires { (taken ≤ length bytes.now) × (count ≤ length out.old) }
    ensures { Leaves (run_from state last bytes.now taken out.old count most)
        out.old result out.new }
{
    for _played in 0..most {
        if out.len() - count < Line::ROOM {
            return Progress {
                session: Session::Running(state),
                taken,
                count,
            };
        }
        let mut row = [0; 8];
        let left = bytes.len() - taken;
        if is_end(last, left) {
            return Progress {
                session: Session::Over(state),
                taken,
                count: Line::End(u32::from(state.slice)).put(&row, out, count),
            };
        }
        if is_short(last, left) {
            return Progress {
                session: Session::Running(state),
                taken,
                count,
            };
        }
        let Some(command) = Command::decode(&bytes[taken..]) else {
            return Progress {
                session: Session::Over(state),
                taken,
                count: Line::Bad(u32::from(state.slice)).put(&row, out, count),
            };
        };
        taken += 3;
        match command {
            Command::Slice => {
                let shown = state.show(&mut row);
                let line = Line::Slice(shown, u32::from(state.slice), state.plan.cards);
                count = line.put(&row, out, count);
                state = state.advance().state;
            }
            Command::Release(kind, e) => {
                let next = state.release(usize::from(kind), u32::from(e));
                count = Line::Release(kind, e, next.answer).put(&row, out, count);
                state = next.state;
            }
        }
    }
    Progress {
        session: Session::Running(state),
        taken,
        count,
    }
}
