// The slot table: "written card by card, F bytes each: project number plus 1, or 0 for a free
// cell". The owners are found by one walk over the cells, which needs only the running project
// and the cell where its run ends.
ghost use Rattle.std.specs.Prelude.{◌≡◌, ◌-◌, ◌<◌, ◌≤◌, length};
ghost use Rattle.layout.specs.Layout.{cell_at, slot_of};
ghost use Rattle.layout.specs.Table.{table_length, table_over, Tabled};
ghost use Rattle.layout.specs.Walk.{first_cells, slot_after, row_of};

use answer::{Answer, Written};
use plan::{Ordered, Plan};

fn slot_after(before: u8, end: u16, projects: u8, cell: u16) -> u8
    ensures { result ≡ slot_after before end projects cell }
{
    if before == 0 {
        return 0;
    }
    if cell < end {
        return before;
    }
    if before < projects {
        return before + 1;
    }
    0
}

fn first_cells(ordered: Ordered) -> [u16; 9]
    ensures { result ≡ first_cells ordered.plan }
{
    let plan = ordered.plan;
    let mut first = [0u16; 9];
    let mut cell: u16 = 0;
    let projects = plan.projects as usize;
    for (j, project) in plan.project[..projects].iter().enumerate() {
        first[j] = cell;
        cell += project.budget;
    }
    first[projects] = cell;
    first
}

// A card's slots. `before` is the slot of the cell before its first.
fn row(ordered: Ordered, first: &[u16; 9], card: u8, before: u8) -> [u8; Plan::FRAME]
    requires { (first.now ≡ first_cells ordered.plan) × (card < ordered.plan.cards)
        × (before ≡ slot_of ordered.plan (cell_at ordered.plan.frame card 0 - 1)) }
    ensures { result ≡ row_of ordered.plan card }
{
    let plan = ordered.plan;
    let mut slots = [0u8; Plan::FRAME];
    let mut slot = before;
    let mut cell = card as u16 * plan.frame as u16;
    for s in slots[..plan.frame as usize].iter_mut() {
        let end = first[slot as usize];
        slot = slot_after(slot, end, plan.projects, cell);
        *s = slot;
        cell += 1;
    }
    slots
}

fn write_slots(ordered: Ordered, out: &mut [u8])
    requires { table_length ordered.plan ≤ length out.old }
    ensures { out.new ≡ table_over ordered.plan out.old }
{
    let plan = ordered.plan;
    let first = first_cells(ordered);
    let mut rows = [[0u8; Plan::FRAME]; Plan::CARDS];
    // Cell 0 is project 0's.
    let mut before: u8 = 1;
    let frame = plan.frame as usize;
    for (c, slots) in rows[..plan.cards as usize].iter_mut().enumerate() {
        *slots = row(ordered, &first, c as u8, before);
        before = slots[frame - 1];
    }
    let mut at: usize = 0;
    for slots in &rows[..plan.cards as usize] {
        out[at..at + frame].copy_from_slice(&slots[..frame]);
        at += frame;
    }
}

// Writes the slot table, whatever the record holds and however long the buffer is: the record order,
// then 9.
pub fn slot_table(plan: Plan, out: &mut [u8]) -> Written
    ensures { Tabled plan out.old result out.new }
{
    let answer = plan.check();
    let Answer::Good = answer else {
        return Written { answer, count: 0 };
    };
    let needed = plan.cards as usize * plan.frame as usize;
    if out.len() < needed {
        return Written {
            answer: Answer::bare(9),
            count: 0,
        };
    }
    write_slots(Ordered { plan }, out);
    Written {
        answer: Answer::Good,
        count: needed,
    }
}
