// The library behind include/parchbeetle.h: each function that another language calls, over the call of the same name and with its very
// clauses.
#![tactic(auto)]

ghost use Rattle.std.specs.Prelude.{◌≡◌};
ghost use Rattle.answer.specs.Word.{told};
ghost use Rattle.plan_calls.specs.Exports.{check_answer, Reads, WritesBytes, WritesSlots};
ghost use Rattle.new_plan_calls.specs.Exports.{Builds, RescuesPlan};
ghost use Rattle.verdict_calls.specs.Exports.{Judges, WritesFigures, budget_told};
ghost use Rattle.rack_calls.specs.Exports.{Starts, Releases, ShowsRow, Advances};

// Whether the plan of an image is in order.
#[unsafe(no_mangle)]
pub extern "C" fn parchbeetle_check(plan: &[u8]) -> u64
    ensures { result ≡ told (check_answer plan.now) 0 }
{
    plan_calls::parchbeetle_check(plan)
}

// Reads plan bytes into an image.
#[unsafe(no_mangle)]
pub extern "C" fn parchbeetle_read(bytes: &[u8], plan: &mut [u8]) -> u64
    ensures { Reads bytes.now plan.old result plan.new }
{
    plan_calls::parchbeetle_read(bytes, plan)
}

// Writes the bytes of an image's plan.
#[unsafe(no_mangle)]
pub extern "C" fn parchbeetle_write(plan: &[u8], out: &mut [u8]) -> u64
    ensures { WritesBytes plan.now out.old result out.new }
{
    plan_calls::parchbeetle_write(plan, out)
}

// Writes the slot table of an image's plan.
#[unsafe(no_mangle)]
pub extern "C" fn parchbeetle_slot_table(plan: &[u8], out: &mut [u8]) -> u64
    ensures { WritesSlots plan.now out.old result out.new }
{
    plan_calls::parchbeetle_slot_table(plan, out)
}

// Builds a plan of one-kind projects as an image, for so many cards and a list of four bytes a kind.
#[unsafe(no_mangle)]
pub extern "C" fn parchbeetle_build(cards: u64, list: &[u8], plan: &mut [u8]) -> u64
    ensures { Builds cards list.now plan.old result plan.new }
{
    new_plan_calls::parchbeetle_build(cards, list, plan)
}

// Rescues a plan from damaged bytes, as an image, and lists the changes, six bytes each. Where the
// image is too short the list is made aside, so that neither buffer is written.
#[unsafe(no_mangle)]
pub extern "C" fn parchbeetle_rescue(bytes: &[u8], plan: &mut [u8], list: &mut [u8]) -> u64
    ensures { RescuesPlan bytes.now plan.old list.old result plan.new list.new }
{
    new_plan_calls::parchbeetle_rescue(bytes, plan, list)
}

// The verdict on an image's plan: document 01's k for each kind, a byte each, and then the bad
// slice of each k.
#[unsafe(no_mangle)]
pub extern "C" fn parchbeetle_verdict(plan: &[u8], k: &mut [u8]) -> u64
    ensures { Judges plan.now k.old result k.new }
{
    verdict_calls::parchbeetle_verdict(plan, k)
}

// Writes the figures of a kind of an image's plan, admitted or not. The count is how many k there are.
#[unsafe(no_mangle)]
pub extern "C" fn parchbeetle_figures(plan: &[u8], kind: u64, out: &mut [u8]) -> u64
    ensures { WritesFigures plan.now kind out.old result out.new }
{
    verdict_calls::parchbeetle_figures(plan, kind, out)
}

// The least budget of a project of an image's plan, in the bits of a count.
#[unsafe(no_mangle)]
pub extern "C" fn parchbeetle_smallest_budget(plan: &[u8], project: u64) -> u64
    ensures { result ≡ budget_told plan.now project }
{
    verdict_calls::parchbeetle_smallest_budget(plan, project)
}

// The fresh state of an image's plan, as an image.
#[unsafe(no_mangle)]
pub extern "C" fn parchbeetle_fresh(plan: &[u8], state: &mut [u8]) -> u64
    ensures { Starts plan.now state.old result state.new }
{
    rack_calls::parchbeetle_fresh(plan, state)
}

// Releases a unit of a kind, in a state's image.
#[unsafe(no_mangle)]
pub extern "C" fn parchbeetle_release(state: &mut [u8], kind: u64, e: u64) -> u64
    ensures { Releases state.old kind e result state.new }
{
    rack_calls::parchbeetle_release(state, kind, e)
}

// Writes the row of the slice to come, for a state's image.
#[unsafe(no_mangle)]
pub extern "C" fn parchbeetle_show(state: &[u8], row: &mut [u8]) -> u64
    ensures { ShowsRow state.now row.old result row.new }
{
    rack_calls::parchbeetle_show(state, row)
}

// Runs a slice, in a state's image.
#[unsafe(no_mangle)]
pub extern "C" fn parchbeetle_advance(state: &mut [u8]) -> u64
    ensures { Advances state.old result state.new }
{
    rack_calls::parchbeetle_advance(state)
}
