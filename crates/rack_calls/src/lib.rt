// The functions that another language calls to run a rack, on numbers and byte slices. A plan and a
// state cross as images in lent buffers, and every function answers one number.
#![tactic(auto)]

ghost use Rattle.std.specs.Prelude.{◌≡◌, ◌<◌, min, length};
ghost use Rattle.answer.specs.Word.{told};
ghost use Rattle.rack_calls.specs.Exports.{Starts, Releases, ShowsRow, Advances};

use answer::Answer;
use plan::Plan;
use rack::State;

// The fresh state of an image's plan, as an image.
pub fn parchbeetle_fresh(plan: &[u8], state: &mut [u8]) -> u64
    ensures { Starts plan.now state.old result state.new }
{
    let given = match image_reader::plan_of(plan) {
        Ok(given) => given,
        Err(why) => return Answer::No(why).told(0),
    };
    let start = State::start(given);
    let answer = start.answer;
    let Answer::Good = answer else {
        return answer.told(0);
    };
    image_writer::put_state(start.state, state).told(0)
}

// The kind, or 16: no plan has so many, so that what is too large stays so.
fn limited_kind(kind: u64) -> usize
    ensures { result ≡ min kind 16 }
{
    kind.min(Plan::KINDS as u64) as usize
}

// No kind's length is so large.
const TOO_LONG: u64 = 65536;

// The length, or a length that is too large.
fn limited_length(e: u64) -> u32
    ensures { result ≡ min e 65536 }
{
    e.min(TOO_LONG) as u32
}

// Releases a unit of a kind, in a state's image.
pub fn parchbeetle_release(state: &mut [u8], kind: u64, e: u64) -> u64
    ensures { Releases state.old kind e result state.new }
{
    let given = match image_reader::state_of(state) {
        Ok(given) => given,
        Err(why) => return Answer::No(why).told(0),
    };
    let next = given.release(limited_kind(kind), limited_length(e));
    let answer = next.answer;
    let Answer::Good = answer else {
        return answer.told(0);
    };
    image_writer::put_running(next.state, state).told(0)
}

// Writes the row of the slice to come, for a state's image.
pub fn parchbeetle_show(state: &[u8], row: &mut [u8]) -> u64
    ensures { ShowsRow state.now row.old result row.new }
{
    let given = match image_reader::state_of(state) {
        Ok(given) => given,
        Err(why) => return Answer::No(why).told(0),
    };
    let shown = given.show(row);
    shown.told(0)
}

// Runs a slice, in a state's image.
pub fn parchbeetle_advance(state: &mut [u8]) -> u64
    ensures { Advances state.old result state.new }
{
    let given = match image_reader::state_of(state) {
        Ok(given) => given,
        Err(why) => return Answer::No(why).told(0),
    };
    let after = given.advance();
    let answer = after.answer;
    let Answer::Good = answer else {
        return answer.told(0);
    };
    image_writer::put_running(after.state, state).told(0)
}
