// The functions that another language calls on a plan, on numbers and byte slices. A plan crosses as
// an image in a lent buffer, and every function answers one number.
#![tactic(auto)]

ghost use Rattle.std.specs.Prelude.{◌≡◌};
ghost use Rattle.laws.specs.Written.{written};
ghost use Rattle.answer.specs.Word.{told};
ghost use Rattle.plan_calls.specs.Exports.{check_answer, Reads, WritesBytes, WritesSlots};

use answer::Answer;

// Whether the plan of an image is in order.
pub fn parchbeetle_check(plan: &[u8]) -> u64
    ensures { result ≡ told (check_answer plan.now) 0 }
{
    match image_reader::plan_of(plan) {
        Ok(given) => given.check().told(0),
        Err(why) => Answer::No(why).told(0),
    }
}

// Reads plan bytes into an image.
pub fn parchbeetle_read(bytes: &[u8], plan: &mut [u8]) -> u64
    ensures { Reads bytes.now plan.old result plan.new }
{
    let reading = plan_reader::read(bytes);
    let answer = reading.answer;
    let Answer::Good = answer else {
        return answer.told(0);
    };
    let stored = image_writer::put_plan(reading.plan, plan);
    let Answer::Good = stored else {
        return stored.told(0);
    };
    let taken = reading.taken as u16;
    stored.told(taken)
}

// Writes the bytes of an image's plan.
pub fn parchbeetle_write(plan: &[u8], out: &mut [u8]) -> u64
    ensures { WritesBytes plan.now out.old result out.new }
{
    let given = match image_reader::plan_of(plan) {
        Ok(given) => given,
        Err(why) => return Answer::No(why).told(0),
    };
    let done = plan_writer::write(given, out);
    let answer = done.answer;
    let written = done.count as u16;
    answer.told(written)
}

// Writes the slot table of an image's plan.
pub fn parchbeetle_slot_table(plan: &[u8], out: &mut [u8]) -> u64
    ensures { WritesSlots plan.now out.old result out.new }
{
    let given = match image_reader::plan_of(plan) {
        Ok(given) => given,
        Err(why) => return Answer::No(why).told(0),
    };
    let table = layout::slot_table(given, out);
    let answer = table.answer;
    let slots = table.count as u16;
    answer.told(slots)
}
