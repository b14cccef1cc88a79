// Reading a plan from the front of any bytes: 1 for the first three bytes, 2, 1 for the total, 3
// over every spare bit, then the record's 4, 5/6 and 7. What follows the plan is never looked at.
#![tactic(auto)]

mod part;

ghost use Rattle.std.specs.Prelude.{◌≡◌, ◌==◌, ◌*◌, ◌≤◌, length, drop};
ghost use Rattle.laws.specs.Written.{written};
ghost use Rattle.laws.specs.All.{all_to};
ghost use Rattle.plan.specs.Order.{sizes};
ghost use Rattle.plan.specs.Record.{no_plan};
ghost use Rattle.plan_bytes.specs.Parts.{projects_from, kinds_from, headed, decoded, size};
ghost use Rattle.plan_bytes.specs.Reading.{projects_spare, kinds_spare, places_spare, header_spare, body_answer, read_of, reading};
ghost use Rattle.plan_bytes.specs.Reading.{standing_in};

use crate::part::{Part, Place};
use answer::Answer;
use plan::Plan;
use plan_bytes::{HEADER, PROJECT, Reading, size};

// Fills places from the bytes that start with the first of them, each from the sub-slice that
// starts at it, and says whether every spare bit in them is zero.
fn fill<T: Place>(s: &[u8], places: &mut [T]) -> bool
    requires { T.WIDTH * length places.old ≤ length s.now }
    ensures { (places.new ≡ written (length places.old) (λ j. T.read (drop (T.WIDTH * j) s.now)) places.old)
        × (result ≡ all_to (length places.old) (λ j. T.spare (drop (T.WIDTH * j) s.now) == 0)) }
{
    let mut clean = true;
    for (j, place) in places.iter_mut().enumerate() {
        let part = T::from_front(&s[T::WIDTH * j..]);
        *place = part.value;
        clean &= part.clean;
    }
    clean
}

// "A refused read gives an all-zero plan and 0 bytes taken."
fn refused(answer: Answer) -> Reading
    ensures { (result.answer ≡ answer) × (result.plan ≡ no_plan) × (result.taken ≡ 0) }
{
    Reading {
        answer,
        plan: Plan::empty(),
        taken: 0,
    }
}

// The plan whose counts were read, with its places, and whether every spare bit in these is zero.
fn places(bytes: &[u8], plan: Plan) -> Part<Plan>
    requires { (plan ≡ headed bytes.now) × (plan.projects ≤ 8) × (plan.kinds ≤ 16) × (size plan ≤ length bytes.now) }
    ensures { (result.value ≡ decoded bytes.now) × (result.clean ≡ places_spare bytes.now) }
{
    let next = HEADER + PROJECT * usize::from(plan.projects);
    let mut project = plan.project;
    let mut kind = plan.kind;
    let projects = fill(&bytes[HEADER..], &mut project[..usize::from(plan.projects)]);
    let kinds = fill(&bytes[next..], &mut kind[..usize::from(plan.kinds)]);
    Part {
        value: Plan {
            project,
            kind,
            ..plan
        },
        clean: projects & kinds,
    }
}

// What comes after the header's own refusals.
fn body(bytes: &[u8], plan: Plan, clean: bool) -> Reading
    requires { (plan ≡ headed bytes.now) × (clean ≡ (header_spare bytes.now == 0)) × (sizes plan ≡ Answer.Good) }
    ensures { result ≡ reading (body_answer bytes.now) (decoded bytes.now) (size plan) }
{
    let total = size(plan);
    if bytes.len() < total {
        return refused(Answer::bare(1));
    }
    let placed = places(bytes, plan);
    if !(clean & placed.clean) {
        return refused(Answer::bare(3));
    }
    let plan = placed.value;
    let checked = plan.check();
    let Answer::Good = checked else {
        return refused(checked);
    };
    Reading {
        answer: Answer::Good,
        plan,
        taken: total,
    }
}

// Reads a plan from the front of bytes.
pub fn read(bytes: &[u8]) -> Reading
    ensures { result ≡ read_of bytes.now }
{
    if bytes.len() < HEADER {
        return refused(Answer::bare(1));
    }
    let header = part::header_from(bytes);
    let plan = header.value;
    let sizes = plan.sizes();
    let Answer::Good = sizes else {
        return refused(sizes);
    };
    body(bytes, plan, header.clean)
}

// The plan that stands at the front of bytes: 1 and 2 are asked, and nothing after them.
pub fn standing(bytes: &[u8]) -> Reading
    ensures { result ≡ standing_in bytes.now }
{
    let held = bytes.len();
    if held < HEADER {
        return refused(Answer::bare(1));
    }
    let header = part::header_from(bytes);
    let plan = header.value;
    let sizes = plan.sizes();
    let Answer::Good = sizes else {
        return refused(sizes);
    };
    let total = size(plan);
    if held < total {
        return refused(Answer::bare(1));
    }
    Reading {
        answer: Answer::Good,
        plan: places(bytes, plan).value,
        taken: total,
    }
}
