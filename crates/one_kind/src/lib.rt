// A simple form for one-kind projects: document 02 (vi), after document 000's VC-IDT scheme. From a
// count of cards and a list of separations and lengths it builds a finished plan, in which each kind
// is a project of its own. Any number and any bytes are answered.
//
// The list is bytes, four a kind: the separation and then the length, the high byte first.
#![tactic(auto)]

ghost use Rattle.std.specs.Prelude.{◌≡◌, ◌+◌, ◌*◌, ◌≤◌, ◌<◌, length};
ghost use Rattle.one_kind.specs.Divisor.{divisor, divisor_to};
ghost use Rattle.one_kind.specs.Wanted.{kinds_in, field_at, separation_in, length_in};
ghost use Rattle.one_kind.specs.Built.{rounded_up, offered, counts, timed_alone, kinds_timed, plan_for, built_of};
ghost use Rattle.one_kind.specs.Steps.{Listed, Framed, refused, finished_of};

use answer::Answer;
use plan::{Kind, Plan, Project};

// The answer, and beside it the plan; all zero on a refusal.
// kept: no Result, since document 01 has it: "any plan .. that its answer carries is zero when refused".
#[derive(Clone, Copy)]
pub struct Built {
    pub answer: Answer,
    pub plan: Plan,
}

// The bytes of one kind in the list.
const BYTES: usize = 4;

// The greatest common divisor of two. The remainder falls at each call.
fn divisor(a: u16, b: u16) -> u16
    ensures { result ≡ divisor a b }
{
    if b == 0 {
        return a;
    }
    divisor(b, a % b)
}

// The separation in the four bytes of a kind.
fn separation(kind: &[u8]) -> u16
    requires { length kind.now ≡ 4 }
    ensures { result ≡ separation_in kind.now 0 }
{
    u16::from_be_bytes([kind[0], kind[1]])
}

// The length in them.
fn unit_length(kind: &[u8]) -> u16
    requires { length kind.now ≡ 4 }
    ensures { result ≡ length_in kind.now 0 }
{
    u16::from_be_bytes([kind[2], kind[3]])
}

// How many kinds are listed: none by bytes that are no list.
fn kinds_in(list: &[u8]) -> usize
    ensures { result ≡ kinds_in list.now }
{
    if list.len() % BYTES != 0 {
        return 0;
    }
    list.len() / BYTES
}

#[tactic(auto, unfolding(crate::specs::Built::offered, plan::specs::Order::within))]
fn offered(cards: u64, kinds: usize) -> bool
    ensures { result ≡ offered cards kinds }
{
    cards != 0 && cards <= Plan::CARDS as u64 && kinds != 0
}

// 17, 18.
fn counts(cards: u64, kinds: usize) -> Answer
    ensures { result ≡ counts cards kinds }
{
    if !offered(cards, kinds) {
        return Answer::bare(17);
    }
    if Plan::PROJECTS < kinds {
        return Answer::bare(18);
    }
    Answer::Good
}

// Whether a kind with this separation, which is its deadline too, is in range.
#[tactic(auto, unfolding(crate::specs::Built::timed_alone))]
fn timed_alone(separation: u16, length: u16) -> bool
    ensures { result ≡ timed_alone separation length }
{
    length != 0 && length <= separation && separation <= Kind::LONGEST
}

// 6, by kind.
fn kinds_timed(list: &[u8]) -> Answer
    requires { (4 * kinds_in list.now ≡ length list.now) × (kinds_in list.now ≤ 8) }
    ensures { result ≡ kinds_timed (separation_in list.now) (length_in list.now) (kinds_in list.now) }
{
    for (i, kind) in list.chunks_exact(BYTES).enumerate() {
        if !timed_alone(separation(kind), unit_length(kind)) {
            return Answer::at_kind(6, i as u8);
        }
    }
    Answer::Good
}

// The greatest common divisor of all separations.
fn common_divisor(list: &[u8]) -> u16
    requires { 4 * kinds_in list.now ≡ length list.now }
    ensures { result ≡ divisor_to (kinds_in list.now) (separation_in list.now) }
{
    let mut common: u16 = 0;
    for kind in list.chunks_exact(BYTES) {
        common = divisor(common, separation(kind));
    }
    common
}

// FC/T, rounded up.
fn rounded_up(frame: u8, separation: u16, length: u16) -> u16
    requires { (0 < separation) × (separation ≤ 4095) × (length ≤ separation) × (frame ≤ 64) }
    ensures { result ≡ rounded_up frame separation length }
{
    let separation = separation as u32;
    ((frame as u32 * length as u32 + (separation - 1)) / separation) as u16
}

// The finished plan: each kind is a project of its own, and its separation is its deadline too.
fn plan_for(cards: u8, list: &[u8], kinds: u8, frame: u8) -> Plan
    requires { (Listed cards list.now kinds) × (Framed list.now kinds frame) }
    ensures { result ≡ plan_for cards kinds (separation_in list.now) (length_in list.now) }
{
    let mut plan = Plan::empty();
    plan.cards = cards;
    plan.projects = kinds;
    plan.kinds = kinds;
    plan.frame = frame;
    for (i, bytes) in list.chunks_exact(BYTES).enumerate() {
        let separation = separation(bytes);
        let length = unit_length(bytes);
        let budget = rounded_up(frame, separation, length);
        plan.project[i] = Project { ceiling: 1, budget };
        plan.kind[i] = Kind {
            project: i as u8,
            separation,
            deadline: separation,
            length,
        };
    }
    plan
}

// A refusal comes with the all-zero plan.
fn refused(answer: Answer) -> Built
    ensures { result ≡ refused answer }
{
    Built {
        answer,
        plan: Plan::empty(),
    }
}

// 19, then 7, then the plan. Its record check has nothing else to refuse.
fn finished(cards: u8, list: &[u8], kinds: u8) -> Built
    requires { Listed cards list.now kinds }
    ensures { result ≡ finished_of cards list.now kinds }
{
    let frame = common_divisor(list);
    if (Plan::FRAME as u16) < frame {
        return refused(Answer::bare(19));
    }
    let plan = plan_for(cards, list, kinds, frame as u8);
    let sum = plan.check();
    let Answer::Good = sum else {
        return refused(sum);
    };
    Built { answer: sum, plan }
}

// The plan of one-kind projects for this many cards and this list.
pub fn build(cards: u64, list: &[u8]) -> Built
    ensures { result ≡ built_of cards list.now }
{
    let kinds = kinds_in(list);
    let counts = counts(cards, kinds);
    let Answer::Good = counts else {
        return refused(counts);
    };
    let timed = kinds_timed(list);
    let Answer::Good = timed else {
        return refused(timed);
    };
    finished(cards as u8, list, kinds as u8)
}
