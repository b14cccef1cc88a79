// The functions that another language calls to have a plan judged, on numbers and byte slices. A plan
// crosses as an image in a lent buffer, and every function answers one number.
#![tactic(auto)]

ghost use Rattle.std.specs.Prelude.{◌≡◌, ◌≤◌, ◌<◌, length};
ghost use Rattle.laws.specs.Written.{written};
ghost use Rattle.answer.specs.Word.{told};
ghost use Rattle.verdict_calls.specs.Exports.{verdict_byte, Judges, budget_told};
ghost use Rattle.verdict_calls.specs.Exports.{WritesFigures};

use answer::Answer;
use plan::Plan;

// The bytes of a verdict.
const VERDICT: usize = 32;

fn put_verdict(width: &[u8; Plan::KINDS], slice: &[u8; Plan::KINDS], k: &mut [u8])
    requires { 32 ≤ length k.old }
    ensures { k.new ≡ written 32 (verdict_byte width.now slice.now) k.old }
{
    k[..Plan::KINDS].copy_from_slice(width);
    k[Plan::KINDS..VERDICT].copy_from_slice(slice);
}

// The verdict on an image's plan: document 01's k for each kind, a byte each, and then the bad
// slice of each k.
pub fn parchbeetle_verdict(plan: &[u8], k: &mut [u8]) -> u64
    ensures { Judges plan.now k.old result k.new }
{
    let given = match image_reader::plan_of(plan) {
        Ok(given) => given,
        Err(why) => return Answer::No(why).told(0),
    };
    let verdict = verdict::judge(given);
    let answer = verdict.answer;
    let Answer::Good = answer else {
        return answer.told(0);
    };
    if k.len() < VERDICT {
        return Answer::bare(9).told(0);
    }
    put_verdict(&verdict.width, &verdict.slice, k);
    answer.told(0)
}

// Writes the figures of a kind of an image's plan, admitted or not. The count is how many k there are.
pub fn parchbeetle_figures(plan: &[u8], kind: u64, out: &mut [u8]) -> u64
    ensures { WritesFigures plan.now kind out.old result out.new }
{
    let given = match image_reader::plan_of(plan) {
        Ok(given) => given,
        Err(why) => return Answer::No(why).told(0),
    };
    let figures = verdict::kind_figures(given, kind as usize);
    let answer = figures.answer;
    let Answer::Good = answer else {
        return answer.told(0);
    };
    let done = image_writer::put_figures(figures, out);
    let Answer::Good = done else {
        return done.told(0);
    };
    let widths = u16::from(figures.widths);
    done.told(widths)
}

// The least budget of a project of an image's plan, in the bits of a count.
pub fn parchbeetle_smallest_budget(plan: &[u8], project: u64) -> u64
    ensures { result ≡ budget_told plan.now project }
{
    let given = match image_reader::plan_of(plan) {
        Ok(given) => given,
        Err(why) => return Answer::No(why).told(0),
    };
    let smallest = smallest_budget::smallest_budget(given, project as usize);
    let answer = smallest.answer;
    answer.told(smallest.budget)
}
