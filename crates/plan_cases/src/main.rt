// Runs plan bytes: plan A read and written, and the refusals that document 01 asks to be run.
// For each case it prints number, place and count; the gate compares what it prints.
#![tactic(auto)]

use answer::Answer;
use output::Output;
use plan::Plan;
use std::fmt;
use std::fmt::Write;

fn answered(out: &mut Output, case: &str, answer: Answer, count: usize) -> fmt::Result {
    let (number, place) = (answer.number(), answer.place());
    writeln!(out, "{case}: number {number} place {place} count {count}")
}

fn read(out: &mut Output, case: &str, bytes: &[u8]) -> Result<Plan, fmt::Error> {
    let reading = plan_reader::read(bytes);
    answered(out, case, reading.answer, reading.taken)?;
    Ok(reading.plan)
}

// Both digits in one write, where `{byte:02x}` would write a leading zero by itself.
fn print_byte(out: &mut Output, byte: u8) -> fmt::Result {
    write!(out, " ")?;
    io::print_hex(1, u64::from(byte), 2);
    Ok(())
}

// Writes into the bytes lent, and prints them as they are then.
fn write(out: &mut Output, case: &str, plan: Plan, lent: &mut [u8]) -> fmt::Result {
    let written = plan_writer::write(plan, lent);
    answered(out, case, written.answer, written.count)?;
    for byte in lent {
        print_byte(out, *byte)?;
    }
    writeln!(out)
}

fn cases(out: &mut Output) -> fmt::Result {
    let plan_a =
        b"\x22\x18\x40\x10\x0c\x20\x14\x00\x10\x01\x00\x0c\x20\x08\x00\x80\x04\x20\x10\x01\x00\x04";
    let plan = read(out, "plan A, whose budgets sum to exactly mF", plan_a)?;
    let mut room = [0xaau8; 24];
    write(out, "plan A into 24 bytes", plan, &mut room)?;
    let mut short = [0xaau8; 21];
    write(out, "plan A into 21 bytes", plan, &mut short)?;
    read(
        out,
        "plan A with a byte after it",
        b"\x22\x18\x40\x10\x0c\x20\x14\x00\x10\x01\x00\x0c\x20\x08\x00\x80\x04\x20\x10\x01\x00\x04\xff",
    )?;
    read(
        out,
        "plan A cut by a byte",
        b"\x22\x18\x40\x10\x0c\x20\x14\x00\x10\x01\x00\x0c\x20\x08\x00\x80\x04\x20\x10\x01\x00",
    )?;
    read(out, "two bytes", b"\x22\x18")?;
    read(out, "nothing", b"")?;
    read(out, "n = 0", b"\x22\x00\x40\x10\x0c\x20\x14")?;
    read(
        out,
        "a spare bit of the header",
        b"\x22\x18\x41\x10\x0c\x20\x14\x00\x10\x01\x00\x0c\x20\x08\x00\x80\x04\x20\x10\x01\x00\x04",
    )?;
    read(
        out,
        "a spare bit of the last kind",
        b"\x22\x18\x40\x10\x0c\x20\x14\x00\x10\x01\x00\x0c\x20\x08\x00\x80\x04\x20\x10\x01\x00\x05",
    )?;
    read(
        out,
        "P10, budgets 3 and 6",
        b"\x22\x18\x40\x10\x0c\x20\x18\x00\x10\x01\x00\x0c\x20\x08\x00\x80\x04\x20\x10\x01\x00\x04",
    )?;
    read(
        out,
        "P11, budgets 5 and 5",
        b"\x22\x18\x40\x10\x14\x20\x14\x00\x10\x01\x00\x0c\x20\x08\x00\x80\x04\x20\x10\x01\x00\x04",
    )?;
    read(
        out,
        "kind 0 of project 2",
        b"\x22\x18\x40\x10\x0c\x20\x14\x40\x10\x01\x00\x0c\x20\x08\x00\x80\x04\x20\x10\x01\x00\x04",
    )?;
    read(
        out,
        "kind 2 with C above D",
        b"\x22\x18\x40\x10\x0c\x20\x14\x00\x10\x01\x00\x0c\x20\x08\x00\x80\x04\x20\x10\x01\x00\x14",
    )?;
    Ok(())
}

fn main() {
    let _ = cases(&mut Output);
}
