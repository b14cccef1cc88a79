// A plan or a state found in an image. Offsets and widths are those that crate `images` states. Every
// buffer is answered, whatever its length and its bytes.
#![tactic(auto)]

ghost use Rattle.std.specs.Prelude.{◌≡◌, ◌+◌, ◌≤◌, ◌<◌, length, drop};
ghost use Rattle.codec.specs.Bytes.{number_to};
ghost use Rattle.answer.specs.declared.Answer.TheVariants.{No};
ghost use Rattle.answer.specs.Answer.{bare, ◌and_then◌};
ghost use Rattle.plan.specs.Order.{checked};
ghost use Rattle.images.specs.Image.{slice_place, unit_widths, field, project_from, kind_from, slice_from};
ghost use Rattle.images.specs.Image.{unit_from};
ghost use Rattle.images.specs.Image.{sum_from};
ghost use Rattle.images.specs.Image.{projects_from, kinds_from, units_from, sums_from, plan_from, state_from, released_told};
ghost use Rattle.images.specs.Lent.{plan_found, state_found};

use answer::{Answer, Refusal};
use images::{
    KIND, KINDS_AT, PLAN, PROJECT, PROJECTS_AT, SLICE_AT, STATE, SUM, SUMS_AT, UNIT, UNITS_AT,
};
use plan::{Kind, Plan, Project};
use rack::State;
use std::array;
use unit::Unit;

// A field of one byte. Each field of a place is read by itself: a place read as one number, which is
// then divided, takes the compiler more instructions.
// kept: `at` beside `s`: of a closure that hands `&s[at..]` or a chunk on, `search` proves no answer (`returns` of `sums_from`).
fn byte(s: &[u8], at: usize) -> u8
    requires { at + 1 ≤ length s.now }
    ensures { (result ≡ number_to 1 (drop at s.now)) × (result < 256) }
{
    s[at]
}

// A field of two bytes.
fn two_bytes(s: &[u8], at: usize) -> u16
    requires { at + 2 ≤ length s.now }
    ensures { (result ≡ number_to 2 (drop at s.now)) × (result < 65536) }
{
    u16::from_be_bytes([s[at], s[at + 1]])
}

fn project_from(s: &[u8], at: usize) -> Project
    requires { at + 3 ≤ length s.now }
    ensures { result ≡ project_from (drop at s.now) }
{
    Project {
        ceiling: byte(s, at),
        budget: two_bytes(s, at + 1),
    }
}

fn kind_from(s: &[u8], at: usize) -> Kind
    requires { at + 7 ≤ length s.now }
    ensures { result ≡ kind_from (drop at s.now) }
{
    Kind {
        project: byte(s, at),
        separation: two_bytes(s, at + 1),
        deadline: two_bytes(s, at + 3),
        length: two_bytes(s, at + 5),
    }
}

fn projects_from(s: &[u8; PLAN]) -> [Project; Plan::PROJECTS]
    ensures { result ≡ projects_from 8 s.now }
{
    array::from_fn(|j| project_from(s, PROJECTS_AT + PROJECT * j))
}

fn kinds_from(s: &[u8; PLAN]) -> [Kind; Plan::KINDS]
    ensures { result ≡ kinds_from 16 s.now }
{
    array::from_fn(|i| kind_from(s, KINDS_AT + KIND * i))
}

fn plan_from(s: &[u8; PLAN]) -> Plan
    ensures { result ≡ plan_from s.now }
{
    let kind = kinds_from(s);
    let project = projects_from(s);
    Plan {
        cards: byte(s, 0),
        projects: byte(s, 1),
        kinds: byte(s, 2),
        frame: byte(s, 3),
        project,
        kind,
    }
}

fn slice_from(s: &[u8; STATE]) -> u8
    ensures { result ≡ slice_from (drop slice_place s.now) }
{
    byte(s, SLICE_AT)
}

fn unit_from(s: &[u8], at: usize) -> Unit
    requires { at + 5 ≤ length s.now }
    ensures { result ≡ unit_from (drop at s.now) }
{
    Unit {
        gone: two_bytes(s, at + 1),
        left: two_bytes(s, at + 3),
        released: byte(s, at) == 1,
    }
}

fn units_from(s: &[u8; STATE]) -> [Unit; Plan::KINDS]
    ensures { result ≡ units_from 16 s.now }
{
    array::from_fn(|i| unit_from(s, UNITS_AT + UNIT * i))
}

fn sum_from(s: &[u8], at: usize) -> u16
    requires { at + 2 ≤ length s.now }
    ensures { result ≡ sum_from (drop at s.now) }
{
    two_bytes(s, at)
}

fn sums_from(s: &[u8; STATE]) -> [u16; Plan::PROJECTS]
    ensures { result ≡ sums_from 8 s.now }
{
    array::from_fn(|j| sum_from(s, SUMS_AT + SUM * j))
}

// The state whose plan was read.
fn state_from(plan: Plan, s: &[u8; STATE]) -> State
    requires { plan ≡ plan_from s.now }
    ensures { result ≡ state_from s.now }
{
    let slice = slice_from(s);
    let unit = units_from(s);
    let sum = sums_from(s);
    State {
        plan,
        slice,
        unit,
        sum,
    }
}

// A unit's released byte.
fn released_at(s: &[u8], at: usize) -> u8
    requires { at + 5 ≤ length s.now }
    ensures { result ≡ field unit_widths (drop at s.now) 0 }
{
    byte(s, at)
}

// Whether every released byte is 0 or 1.
fn released_told(s: &[u8; STATE]) -> bool
    ensures { result ≡ released_told s.now }
{
    (0..Plan::KINDS).all(|i| released_at(s, UNITS_AT + UNIT * i) <= 1)
}

// Of an image with some other released byte: the record order, 10.
fn no_state(plan: Plan) -> Refusal
    ensures { No result ≡ (checked plan and_then bare 10) }
{
    match plan.check() {
        Answer::Good => Refusal::bare(10),
        Answer::No(why) => why,
    }
}

// The plan that an image says, whatever its fields hold: 9.
pub fn plan_of(image: &[u8]) -> Result<Plan, Refusal>
    ensures { result ≡ plan_found image.now }
{
    let Some(image) = image.first_chunk::<PLAN>() else {
        return Err(Refusal::bare(9));
    };
    Ok(plan_from(image))
}

// The state that an image says, whatever its fields hold: 9, and where a released byte is no
// state's the record order, 10. Only there is the plan checked: who takes the state checks it.
pub fn state_of(image: &[u8]) -> Result<State, Refusal>
    ensures { result ≡ state_found image.now }
{
    let Some(image) = image.first_chunk::<STATE>() else {
        return Err(Refusal::bare(9));
    };
    let plan = plan_of(image)?;
    if !released_told(image) {
        return Err(no_state(plan));
    }
    Ok(state_from(plan, image))
}
