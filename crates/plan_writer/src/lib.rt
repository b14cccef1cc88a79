// Writing a plan's bytes into a lent buffer: the record order, then 9. On a refusal the buffer
// keeps every byte; on success it keeps those past the plan's.
#![tactic(auto)]

mod part;

ghost use Rattle.std.specs.Prelude.{◌≡◌, ◌+◌, ◌*◌, ◌≤◌, ◌++◌, length, get_or, drop};
ghost use Rattle.codec.specs.Bytes.{bytes_of};
ghost use Rattle.plan_bytes.specs.Parts.{size, encoded};
ghost use Rattle.codec.specs.Places.{put_to};
ghost use Rattle.plan_bytes.specs.Writing.{Writes};

use crate::part::Place;
use answer::{Answer, Written};
use plan::Plan;
use plan_bytes::{HEADER, PROJECT, size};

// Stores places one after the other, from index start on.
fn store<T: Place>(places: &[T], out: &mut [u8], start: usize)
    requires { start + T.WIDTH * length places.now ≤ length out.old }
    ensures { out.new ≡ put_to (length places.now) (λ j. bytes_of T.WIDTH (T.packed (get_or places.now j T.none))) start T.WIDTH out.old }
{
    for (j, place) in places.iter().enumerate() {
        let at = start + T::WIDTH * j;
        codec::put_number(place.fields(), &mut out[at..at + T::WIDTH]);
    }
}

// The header, the projects and the unit kinds.
fn put(plan: Plan, out: &mut [u8])
    requires { (plan.projects ≤ 8) × (plan.kinds ≤ 16) × (size plan ≤ length out.old) }
    ensures { out.new ≡ encoded plan ++ drop (size plan) out.old }
{
    part::put_header(plan, out);
    store(&plan.project[..usize::from(plan.projects)], out, HEADER);
    let start = HEADER + PROJECT * usize::from(plan.projects);
    store(&plan.kind[..usize::from(plan.kinds)], out, start);
}

// Writes the plan's bytes to the front of out.
pub fn write(plan: Plan, out: &mut [u8]) -> Written
    ensures { Writes plan out.old result out.new }
{
    let checked = plan.check();
    let Answer::Good = checked else {
        return Written {
            answer: checked,
            count: 0,
        };
    };
    let count = size(plan);
    if out.len() < count {
        return Written {
            answer: Answer::bare(9),
            count: 0,
        };
    }
    put(plan, out);
    Written {
        answer: Answer::Good,
        count,
    }
}
