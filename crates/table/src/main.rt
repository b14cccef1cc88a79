// Runs document 01's table P1 to P11 and document 02's rows S1 to S8, K1 to K8 and R1 to R5 and
// prints what comes out; the gate compares. The same table is one proved claim, specs/Table.antt.
#![tactic(auto)]

use answer::Answer;
use output::Output;
use plan::{Kind, Plan, Project};
use std::fmt;
use std::fmt::Write;

fn print_decimals(out: &mut Output, bytes: &[u8]) -> fmt::Result {
    for byte in bytes {
        write!(out, " {byte}")?;
    }
    writeln!(out)
}

// Both digits in one write, where `{byte:02x}` would write a leading zero by itself.
fn print_byte(out: &mut Output, byte: u8) -> fmt::Result {
    write!(out, " ")?;
    io::print_hex(1, u64::from(byte), 2);
    Ok(())
}

// A number behind its name, with a space that is a write of its own.
fn print_named(out: &mut Output, name: &str, number: u64) -> fmt::Result {
    write!(out, "{name} {number}")
}

fn print_answer(out: &mut Output, answer: Answer) -> fmt::Result {
    let (number, place, excess) = (answer.number(), answer.place(), answer.excess());
    write!(out, " {number} {place} {excess}")
}

fn project(ceiling: u8, budget: u16) -> Project {
    Project { ceiling, budget }
}

fn kind(project: u8, separation: u16, deadline: u16, length: u16) -> Kind {
    Kind {
        project,
        separation,
        deadline,
        length,
    }
}

// Plan A, with these budgets and this kind 0.
fn like_a(budget: u16, next_budget: u16, first: Kind) -> Plan {
    let mut plan = Plan {
        cards: 2,
        frame: 4,
        projects: 2,
        kinds: 3,
        ..Plan::empty()
    };
    plan.project[..2].copy_from_slice(&[project(1, budget), project(2, next_budget)]);
    plan.kind[..3].copy_from_slice(&[first, kind(1, 4, 4, 2), kind(1, 8, 8, 2)]);
    plan
}

// One project of both cards, with these three kinds.
fn one_project(frame: u8, budget: u16, three: [Kind; 3]) -> Plan {
    let mut plan = Plan {
        cards: 2,
        frame,
        projects: 1,
        kinds: 3,
        ..Plan::empty()
    };
    plan.project[0] = project(2, budget);
    plan.kind[..3].copy_from_slice(&three);
    plan
}

// A verdict's number, place and excess, and the sixteen k; and the slice beside the excess, and
// those beside the k.
fn verdict(out: &mut Output, case: &str, plan: Plan) -> fmt::Result {
    let verdict = verdict::judge(plan);
    write!(out, "{case}")?;
    print_answer(out, verdict.answer)?;
    write!(out, " k")?;
    print_decimals(out, &verdict.width)?;
    let slice = verdict.answer.slice();
    write!(out, "{case}")?;
    print_named(out, " slice", u64::from(slice))?;
    write!(out, " k")?;
    print_decimals(out, &verdict.slice)
}

// A smallest budget's number, place and excess, and the budget.
fn smallest(out: &mut Output, case: &str, plan: Plan, project: usize) -> fmt::Result {
    let smallest = smallest_budget::smallest_budget(plan, project);
    write!(out, "{case}")?;
    print_answer(out, smallest.answer)?;
    print_named(out, " B", u64::from(smallest.budget))?;
    writeln!(out)
}

fn print_budgets(out: &mut Output, plan: Plan) -> fmt::Result {
    for project in &plan.project {
        let budget = project.budget;
        write!(out, " {budget}")?;
    }
    writeln!(out)
}

// What is built: number, place and excess, the frame and the eight budgets.
fn alone(out: &mut Output, case: &str, cards: u64, list: &[u8]) -> fmt::Result {
    let built = one_kind::build(cards, list);
    write!(out, "{case}")?;
    print_answer(out, built.answer)?;
    print_named(out, " F", u64::from(built.plan.frame))?;
    write!(out, " B")?;
    print_budgets(out, built.plan)
}

// The supply at k cards and a length: as many workloads from 1 on are met, by a unit of no length of
// its own.
fn supply(out: &mut Output, held: [u8; 64], k: u8, length: u16) -> fmt::Result {
    let met = |workload: &u32| supply::least_fit(held, 4, k, 0, *workload, length).width != 0;
    let supply = (1..17).filter(met).count();
    write!(out, " {supply}")
}

// The bad slice of one card and a length, at which a unit that asks for nothing fits.
fn bad_slice(out: &mut Output, held: [u8; 64], length: u16) -> fmt::Result {
    let slice = supply::least_fit(held, 4, 1, 0, 0, length).slice;
    write!(out, " {slice}")
}

// The cards that a project holds at each of the four slices: those whose slot is the project's, card
// 0's slots before card 1's.
fn held(slots: [u8; 8], number: u8) -> [u8; 64] {
    let mut cards = [0u8; 64];
    // kept: by slice, since each reads two slots, one of each card.
    for slice in 0..4 {
        cards[slice] = u8::from(slots[slice] == number) + u8::from(slots[4 + slice] == number);
    }
    cards
}

fn bytes_of_a(out: &mut Output) -> fmt::Result {
    let reading = plan_reader::read(
        b"\x22\x18\x40\x10\x0c\x20\x14\x00\x10\x01\x00\x0c\x20\x08\x00\x80\x04\x20\x10\x01\x00\x04",
    );
    write!(out, "P1 read")?;
    print_answer(out, reading.answer)?;
    print_named(out, " taken", reading.taken as u64)?;
    writeln!(out)?;
    let mut bytes = [0u8; 22];
    plan_writer::write(reading.plan, &mut bytes);
    write!(out, "P1 written")?;
    for byte in &bytes {
        print_byte(out, *byte)?;
    }
    writeln!(out)
}

fn supplies_of_a(out: &mut Output, slots: [u8; 8]) -> fmt::Result {
    let one = held(slots, 1);
    write!(out, "P3")?;
    for length in [0, 1, 3, 4, 8] {
        supply(out, one, 1, length)?;
    }
    writeln!(out)?;
    write!(out, "P3 slices")?;
    for length in [0, 1, 3, 4, 8] {
        bad_slice(out, one, length)?;
    }
    writeln!(out)?;
    let two = held(slots, 2);
    write!(out, "P4")?;
    for (k, length) in [(1, 4), (2, 4), (2, 1), (2, 3)] {
        supply(out, two, k, length)?;
    }
    writeln!(out)
}

// The slot table's answer, count and bytes, and the supplies of the cards that it gives each project.
fn layout_of_a(out: &mut Output) -> fmt::Result {
    let mut slots = [0u8; 8];
    let written = layout::slot_table(like_a(3, 5, kind(0, 8, 8, 6)), &mut slots);
    write!(out, "P2 answer")?;
    print_answer(out, written.answer)?;
    print_named(out, " count", written.count as u64)?;
    writeln!(out)?;
    write!(out, "P2 table")?;
    print_decimals(out, &slots)?;
    supplies_of_a(out, slots)
}

// Plan A with the folding coordinator's guess for project 1.
fn guessed(budget: u16) -> Plan {
    like_a(3, budget, kind(0, 8, 8, 6))
}

fn smallest_budgets(out: &mut Output) -> fmt::Result {
    smallest(out, "S1", guessed(5), 0)?;
    smallest(out, "S2", guessed(5), 1)?;
    verdict(out, "S3 guessed", guessed(6))?;
    smallest(out, "S3", guessed(6), 1)?;
    verdict(out, "S3 written", guessed(4))?;
    verdict(out, "S4 guessed", guessed(3))?;
    smallest(out, "S4", guessed(3), 1)?;
    smallest(out, "S5", guessed(5), 2)?;
    smallest(
        out,
        "S6",
        one_project(1, 2, [kind(0, 3, 3, 2), kind(0, 6, 6, 4), kind(0, 6, 6, 3)]),
        0,
    )?;
    smallest(out, "S7", like_a(2, 5, kind(1, 8, 8, 1)), 1)?;
    smallest(out, "S8", like_a(2, 5, kind(1, 8, 8, 1)), 0)
}

fn one_kind_projects(out: &mut Output) -> fmt::Result {
    let opening = b"\x00\x03\x00\x02\x00\x06\x00\x04\x00\x06\x00\x03";
    alone(out, "K1", 2, opening)?;
    let built = one_kind::build(2, opening);
    verdict(out, "K1 judged", built.plan)?;
    smallest(out, "K2", built.plan, 2)?;
    alone(
        out,
        "K3",
        2,
        b"\x00\x04\x00\x03\x00\x04\x00\x03\x00\x08\x00\x04",
    )?;
    alone(
        out,
        "K3 more",
        2,
        b"\x00\x04\x00\x03\x00\x04\x00\x03\x00\x08\x00\x06",
    )?;
    alone(out, "K4", 1, b"\x00\x02\x00\x01\x00\x03\x00\x01")?;
    alone(out, "K5", 1, b"\x00\x40\x00\x01")?;
    alone(out, "K5 more", 1, b"\x00\x41\x00\x41\x00\x41\x00\x41")?;
    alone(out, "K6", 1, b"\x00\x02\x00\x01\x00\x02\x00\x03")?;
    alone(out, "K7 none", 0, b"\x00\x02\x00\x01")?;
    alone(out, "K7 nine", 9, b"\x00\x02\x00\x01")?;
    alone(out, "K7 list", 1, b"\x00\x00\x02\x00\x01")?;
    let nine = [1u8; 36];
    alone(out, "K8", 8, &nine)
}

// What is rescued: number, place and excess, the bytes of the list, the kinds and the eight budgets;
// and what is in the buffer that was lent.
fn rescued(out: &mut Output, case: &str, bytes: &[u8], list: &mut [u8]) -> fmt::Result {
    let rescued = rescue::rescue(bytes, list);
    write!(out, "{case}")?;
    print_answer(out, rescued.answer)?;
    print_named(out, " count", rescued.count as u64)?;
    print_named(out, " n", u64::from(rescued.plan.kinds))?;
    write!(out, " B")?;
    print_budgets(out, rescued.plan)?;
    write!(out, "{case} list")?;
    print_decimals(out, list)
}

fn damaged_files(out: &mut Output) -> fmt::Result {
    let first =
        b"\x22\x18\x42\x10\x0c\x00\x14\x40\x10\x01\x00\x0c\x20\x08\x00\x80\x04\x20\x10\x01\x00\x04";
    let mut longer = [0u8; 26];
    rescued(out, "R1", first, &mut longer)?;
    let mut exact = [0u8; 54];
    rescued(
        out,
        "R2",
        b"\x22\x18\x41\x00\x0c\xff\xfe\x00\x10\x01\x80\x0d\xa0\x08\x00\x80\x05\x20\x10\x01\x20\x12",
        &mut exact,
    )?;
    let mut none = [0u8; 0];
    rescued(
        out,
        "R3",
        b"\x22\x18\x40\x10\x0c\x20\x14\x00\x10\x01\x00\x0c\x20\x08\x00\x80\x04\x20\x10\x01\x00\x04",
        &mut none,
    )?;
    rescued(
        out,
        "R3 seven",
        b"\x22\x18\x40\x10\x0c\x20\x18\x00\x10\x01\x00\x0c\x20\x08\x00\x80\x04\x20\x10\x01\x00\x04",
        &mut none,
    )?;
    let mut short = [0u8; 23];
    rescued(out, "R4", first, &mut short)?;
    rescued(
        out,
        "R5",
        b"\x22\x18\x42\x10\x0c\x00\x14\x00\x00\x00\x00\x00\x00\x00\x00\x00\x00\x00\x00\x00\x00\x00",
        &mut none,
    )
}

fn table(out: &mut Output) -> fmt::Result {
    bytes_of_a(out)?;
    layout_of_a(out)?;
    verdict(out, "P5", like_a(3, 5, kind(0, 8, 8, 6)))?;
    verdict(out, "P6", like_a(3, 5, kind(0, 8, 8, 7)))?;
    verdict(out, "P7", like_a(3, 5, kind(0, 4, 3, 2)))?;
    verdict(out, "P7", like_a(3, 5, kind(0, 4, 3, 3)))?;
    verdict(
        out,
        "P8",
        one_project(4, 8, [kind(0, 4, 4, 1), kind(0, 8, 8, 3), kind(0, 8, 8, 2)]),
    )?;
    verdict(
        out,
        "P8 longer",
        one_project(4, 8, [kind(0, 4, 4, 3), kind(0, 8, 8, 3), kind(0, 8, 8, 2)]),
    )?;
    verdict(
        out,
        "P9",
        one_project(1, 2, [kind(0, 3, 3, 2), kind(0, 6, 6, 4), kind(0, 6, 6, 3)]),
    )?;
    verdict(out, "P10", like_a(3, 6, kind(0, 8, 8, 6)))?;
    verdict(out, "P11", like_a(5, 5, kind(0, 8, 8, 6)))?;
    smallest_budgets(out)?;
    one_kind_projects(out)?;
    damaged_files(out)
}

fn main() {
    let _ = table(&mut Output);
}
