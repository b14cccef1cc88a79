// The functions that another language calls for a plan that is not there yet: built from a list, or
// rescued from damaged bytes. It crosses as an image in a lent buffer, and every function answers one
// number.
#![tactic(auto)]

ghost use Rattle.std.specs.Prelude.{◌<◌};
ghost use Rattle.laws.specs.Written.{written};
ghost use Rattle.answer.specs.Word.{told};
ghost use Rattle.new_plan_calls.specs.Exports.{Builds, RescuesPlan};

use answer::Answer;

// Builds a plan of one-kind projects as an image, for so many cards and a list of four bytes a kind.
pub fn parchbeetle_build(cards: u64, list: &[u8], plan: &mut [u8]) -> u64
    ensures { Builds cards list.now plan.old result plan.new }
{
    let built = one_kind::build(cards, list);
    let answer = built.answer;
    let Answer::Good = answer else {
        return answer.told(0);
    };
    image_writer::put_plan(built.plan, plan).told(0)
}

// Rescues a plan from damaged bytes, as an image, and lists the changes, six bytes each. Where the
// image is too short the list is made aside, so that neither buffer is written.
pub fn parchbeetle_rescue(bytes: &[u8], plan: &mut [u8], list: &mut [u8]) -> u64
    ensures { RescuesPlan bytes.now plan.old list.old result plan.new list.new }
{
    if plan.len() < images::PLAN {
        let mut aside = [0u8; rescue::LONGEST];
        let tried = rescue::rescue(bytes, &mut aside);
        let answer = tried.answer;
        let Answer::Good = answer else {
            return answer.told(0);
        };
        return Answer::bare(9).told(0);
    }
    let rescued = rescue::rescue(bytes, list);
    let answer = rescued.answer;
    let Answer::Good = answer else {
        return answer.told(0);
    };
    let stored = image_writer::put_plan(rescued.plan, plan);
    let count = rescued.count as u16;
    stored.told(count)
}
