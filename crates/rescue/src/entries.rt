// The list of changes, in six bytes each: field, place in the original, old and new value, the high
// byte first.
ghost use Rattle.std.specs.Prelude.{◌≡◌, ◌+◌, ◌*◌, ◌%◌, ◌≤◌, ◌<◌, [], ◌∷◌, length, replicate, drop};
ghost use Rattle.codec.specs.Bytes.{number_to};
ghost use Rattle.plan_bytes.specs.Parts.{size};
ghost use Rattle.rescue.specs.Entry.{entry, change, entries_to, Noted};
ghost use Rattle.rescue.specs.Rescue.{project_spare_change, kind_spare_change};
ghost use Rattle.rescue.specs.Rescue.{spare_entries, project_entries, kind_entries, project_changes, kind_changes, changes_in};

use crate::{LONGEST, mended};
use plan::{Kind, Plan, Project};
use plan_bytes::{BITS_1, BITS_2, BITS_4, HEADER, KIND, PROJECT};

// The bytes of an entry.
const ENTRY: usize = 6;

// The list so far, in the first bytes.
#[derive(Clone, Copy)]
pub struct Notes {
    pub bytes: [u8; LONGEST],
    pub count: usize,
}

// The lowest bits of the part of so many bytes that starts at from.
fn spare(bytes: &[u8], from: usize, width: usize, bits: u64) -> u16
    requires { (from + width ≤ length bytes.now) × (width ≤ 8) × (0 < bits) × (bits ≤ 65536) }
    ensures { result ≡ number_to width (drop from bytes.now) % bits }
{
    (codec::number(&bytes[from..], width) % bits) as u16
}

impl Notes {
    fn put(&mut self, field: u8, place: u8, old: u16, new: u16)
        requires { self.old.count + 6 ≤ 342 }
        ensures { Noted self.old.count self.old.bytes (entry field place old new ∷ []) self.new.count self.new.bytes }
    {
        let [old_high, old_low] = old.to_be_bytes();
        let [new_high, new_low] = new.to_be_bytes();
        let entry = [field, place, old_high, old_low, new_high, new_low];
        self.bytes[self.count..self.count + ENTRY].copy_from_slice(&entry);
        self.count += ENTRY;
    }

    // A change, if it is one.
    fn note(&mut self, field: u8, place: u8, old: u16, new: u16)
        requires { self.old.count + 6 ≤ 342 }
        ensures { (Noted self.old.count self.old.bytes (change field place old new) self.new.count self.new.bytes)
            × (self.new.count ≤ self.old.count + 6) }
    {
        if old != new {
            self.put(field, place, old, new);
        }
    }

    // The spare bit of a kind, unless the kind is dropped.
    fn note_spare(&mut self, place: u8, kept: bool, spare: u16)
        requires { self.old.count + 6 ≤ 342 }
        ensures { (Noted self.old.count self.old.bytes (spare_entries kept place spare) self.new.count self.new.bytes)
            × (self.new.count ≤ self.old.count + 6) }
    {
        if kept {
            self.note(3, place, spare, 0);
        }
    }

    // A project's ceiling and then its budget.
    fn note_project(&mut self, place: u8, old: Project, new: Project)
        requires { self.old.count + 12 ≤ 342 }
        ensures { (Noted self.old.count self.old.bytes (project_entries place old new) self.new.count self.new.bytes)
            × (self.new.count ≤ self.old.count + 12) }
    {
        self.note(4, place, u16::from(old.ceiling), u16::from(new.ceiling));
        self.note(5, place, old.budget, new.budget);
    }

    // A kind's deadline, or that the kind is dropped.
    fn note_kind(&mut self, place: u8, kept: bool, old: Kind, new: Kind)
        requires { self.old.count + 6 ≤ 342 }
        ensures { (Noted self.old.count self.old.bytes (kind_entries kept place old new) self.new.count self.new.bytes)
            × (self.new.count ≤ self.old.count + 6) }
    {
        if kept {
            self.note(6, place, old.deadline, new.deadline);
        } else {
            self.put(7, place, 0, 0);
        }
    }

    // kept: a loop for each of the four runs of entries, since each notes other things of a place; one
    // loop over a closure would be no shorter.
    fn spare_projects(&mut self, bytes: &[u8], projects: u8)
        requires { (projects ≤ 8) × (3 + 2 * projects ≤ length bytes.now) × (self.old.count + 6 * projects ≤ 342) }
        ensures { (Noted self.old.count self.old.bytes (entries_to projects (project_spare_change bytes.now)) self.new.count self.new.bytes)
            × (self.new.count ≤ self.old.count + 6 * projects) }
    {
        // kept: by number; the parts are cut from the bytes one by one (`spare`), as those of the kinds are.
        for j in 0..projects {
            let from = HEADER + PROJECT * usize::from(j);
            self.note(2, j, spare(bytes, from, PROJECT, BITS_2), 0);
        }
    }

    fn spare_kinds(&mut self, bytes: &[u8], plan: Plan)
        requires { (plan.projects ≤ 8) × (plan.kinds ≤ 16) × (size plan ≤ length bytes.now)
            × (self.old.count + 6 * plan.kinds ≤ 342) }
        ensures { (Noted self.old.count self.old.bytes (entries_to plan.kinds (kind_spare_change bytes.now plan)) self.new.count
            self.new.bytes)
            × (self.new.count ≤ self.old.count + 6 * plan.kinds) }
    {
        let start = HEADER + PROJECT * usize::from(plan.projects);
        for (i, kind) in plan.kind[..usize::from(plan.kinds)].iter().enumerate() {
            let kept = mended::kept(*kind, plan.projects);
            let spare = spare(bytes, start + KIND * i, KIND, BITS_1);
            self.note_spare(i as u8, kept, spare);
        }
    }

    fn projects(&mut self, plan: Plan)
        requires { (plan.projects ≤ 8) × (self.old.count + 12 * plan.projects ≤ 342) }
        ensures { (Noted self.old.count self.old.bytes (entries_to plan.projects (project_changes plan)) self.new.count self.new.bytes)
            × (self.new.count ≤ self.old.count + 12 * plan.projects) }
    {
        for (j, project) in plan.project[..usize::from(plan.projects)]
            .iter()
            .enumerate()
        {
            let mended = mended::project_for(*project, plan.cards, plan.frame);
            self.note_project(j as u8, *project, mended);
        }
    }

    fn kinds(&mut self, plan: Plan)
        requires { (plan.kinds ≤ 16) × (self.old.count + 6 * plan.kinds ≤ 342) }
        ensures { (Noted self.old.count self.old.bytes (entries_to plan.kinds (kind_changes plan)) self.new.count self.new.bytes)
            × (self.new.count ≤ self.old.count + 6 * plan.kinds) }
    {
        for (i, kind) in plan.kind[..usize::from(plan.kinds)].iter().enumerate() {
            let kept = mended::kept(*kind, plan.projects);
            let mended = mended::kind_for(*kind);
            self.note_kind(i as u8, kept, *kind, mended);
        }
    }
}

// All of them: spare bits, then project by project, then kind by kind.
// kept: what room and what counts are asked for, since each function asks for another number of them.
pub(crate) fn changes(bytes: &[u8], plan: Plan) -> Notes
    requires { (plan.projects ≤ 8) × (plan.kinds ≤ 16) × (size plan ≤ length bytes.now) }
    ensures { (Noted 0 (replicate 342 0) (changes_in bytes.now plan) result.count result.bytes) × (result.count ≤ 342) }
{
    let mut notes = Notes {
        bytes: [0; LONGEST],
        count: 0,
    };
    notes.note(1, 0, spare(bytes, 0, HEADER, BITS_4), 0);
    notes.spare_projects(bytes, plan.projects);
    notes.spare_kinds(bytes, plan);
    notes.projects(plan);
    notes.kinds(plan);
    notes
}
