// A plan or a state stored as an image. Offsets and widths are those that crate `images` states.
// Every buffer is answered, whatever its length.
#![tactic(auto)]

mod figures;

ghost use Rattle.std.specs.Prelude.{◌≡◌, ℕ, List, [], ◌∷◌, ◌++◌, ◌+◌, ◌*◌, ◌≤◌, length, drop, slice_index_or};
ghost use Rattle.std.proofs.lemmas.List.Edits.{sets};
ghost use Rattle.codec.specs.Bytes.{bytes_of};
ghost use Rattle.codec.specs.Place.{size_of, placed};
ghost use Rattle.codec.specs.Places.{put_to};
ghost use Rattle.images.specs.Image.{count_widths, project_widths, kind_widths, slice_widths, unit_widths, sum_widths};
ghost use Rattle.images.specs.Image.{project_place, kind_place, unit_place, sum_place, count_fields, project_fields};
ghost use Rattle.images.specs.Image.{kind_fields};
ghost use Rattle.images.specs.Image.{unit_fields};
ghost use Rattle.images.specs.Image.{project_bytes_at, kind_bytes_at, unit_bytes_at, sum_bytes_at, plan_image, running_over};
ghost use Rattle.images.specs.Lent.{StoresPlan, StoresState, StoresRunning};

use answer::Answer;
pub use figures::put_figures;
use images::{
    BITS_8, BITS_16, BITS_24, BITS_32, BITS_48, COUNTS, KIND, KINDS_AT, PLAN, PROJECT, PROJECTS_AT,
    SLICE, SLICE_AT, STATE, SUM, SUMS_AT, UNIT, UNITS_AT,
};
use plan::{Kind, Plan, Project};
use rack::State;
use unit::Unit;

// Stores a number in so many bytes of an image.
fn put_fields(fields: u64, count: usize, out: &mut [u8], at: usize)
    requires { at + count ≤ length out.old }
    ensures { out.new ≡ sets out.old at (bytes_of count fields) }
{
    codec::put_number(fields, &mut out[at..at + count]);
}

fn put_counts(plan: Plan, out: &mut [u8; PLAN])
    ensures { out.new ≡ sets out.old 0 (placed count_widths (count_fields plan)) }
{
    let fields = u64::from(plan.cards) * BITS_24
        + u64::from(plan.projects) * BITS_16
        + u64::from(plan.kinds) * BITS_8
        + u64::from(plan.frame);
    put_fields(fields, COUNTS, out, 0);
}

// What an image stores at one place.
trait Placed: Copy {
    const BYTES: usize;

    ghost BYTES: { ℕ };

    ghost bytes: { Self → List ℕ };

    fn put(self, out: &mut [u8], at: usize)
        requires { at + BYTES ≤ length out.old }
        ensures { out.new ≡ sets out.old at (bytes self) };
}

impl Placed for Project {
    const BYTES: usize = PROJECT;

    ghost BYTES = { size_of project_widths };

    ghost bytes = { λ v. placed project_widths (project_fields v) };

    fn put(self, out: &mut [u8], at: usize) {
        let fields = u64::from(self.ceiling) * BITS_16 + u64::from(self.budget);
        put_fields(fields, PROJECT, out, at);
    }
}

impl Placed for Kind {
    const BYTES: usize = KIND;

    ghost BYTES = { size_of kind_widths };

    ghost bytes = { λ v. placed kind_widths (kind_fields v) };

    fn put(self, out: &mut [u8], at: usize) {
        let fields = u64::from(self.project) * BITS_48
            + u64::from(self.separation) * BITS_32
            + u64::from(self.deadline) * BITS_16
            + u64::from(self.length);
        put_fields(fields, KIND, out, at);
    }
}

impl Placed for Unit {
    const BYTES: usize = UNIT;

    ghost BYTES = { size_of unit_widths };

    ghost bytes = { λ v. placed unit_widths (unit_fields v) };

    fn put(self, out: &mut [u8], at: usize) {
        let fields = u64::from(self.released) * BITS_32
            + u64::from(self.gone) * BITS_16
            + u64::from(self.left);
        put_fields(fields, UNIT, out, at);
    }
}

// A sum.
impl Placed for u16 {
    const BYTES: usize = SUM;

    ghost BYTES = { size_of sum_widths };

    ghost bytes = { λ v. placed sum_widths (v ∷ []) };

    fn put(self, out: &mut [u8], at: usize) {
        put_fields(u64::from(self), SUM, out, at);
    }
}

// A slice.
impl Placed for u8 {
    const BYTES: usize = SLICE;

    ghost BYTES = { size_of slice_widths };

    ghost bytes = { λ v. placed slice_widths (v ∷ []) };

    fn put(self, out: &mut [u8], at: usize) {
        put_fields(u64::from(self), SLICE, out, at);
    }
}

// A row of places, one after the other.
fn put_row<T: Placed, const N: usize>(row: &[T; N], out: &mut [u8], start: usize)
    requires { start + T.BYTES * N ≤ length out.old }
    ensures { (d : T) → out.new ≡ put_to N (λ j. T.bytes (slice_index_or row.now j d)) start T.BYTES out.old }
{
    for (j, place) in row.iter().enumerate() {
        place.put(out, start + T::BYTES * j);
    }
}

fn put_projects(plan: Plan, out: &mut [u8; PLAN])
    ensures { out.new ≡ put_to 8 (project_bytes_at plan) (project_place 0) (size_of project_widths) out.old }
{
    put_row(&plan.project, out, PROJECTS_AT);
}

fn put_kinds(plan: Plan, out: &mut [u8; PLAN])
    ensures { out.new ≡ put_to 16 (kind_bytes_at plan) (kind_place 0) (size_of kind_widths) out.old }
{
    put_row(&plan.kind, out, KINDS_AT);
}

fn put_units(state: State, out: &mut [u8; STATE])
    ensures { out.new ≡ put_to 16 (unit_bytes_at state) (unit_place 0) (size_of unit_widths) out.old }
{
    put_row(&state.unit, out, UNITS_AT);
}

fn put_sums(state: State, out: &mut [u8; STATE])
    ensures { out.new ≡ put_to 8 (sum_bytes_at state) (sum_place 0) (size_of sum_widths) out.old }
{
    put_row(&state.sum, out, SUMS_AT);
}

fn store_plan(plan: Plan, out: &mut [u8; PLAN])
    ensures { out.new ≡ plan_image plan }
{
    put_counts(plan, out);
    put_projects(plan, out);
    put_kinds(plan, out);
}

fn store_running(state: State, out: &mut [u8; STATE])
    ensures { out.new ≡ running_over state out.old }
{
    state.slice.put(out, SLICE_AT);
    put_units(state, out);
    put_sums(state, out);
}

// Stores a plan's image at the front of a buffer: 9.
// kept: one function for each image, since each is a promise of its own (`StoresPlan`, `StoresState`,
// `StoresRunning`, `StoresFigures`).
pub fn put_plan(plan: Plan, image: &mut [u8]) -> Answer
    ensures { StoresPlan plan image.old result image.new }
{
    let Some(image) = image.first_chunk_mut::<PLAN>() else {
        return Answer::bare(9);
    };
    store_plan(plan, image);
    Answer::Good
}

// Stores a state's image at the front of a buffer: 9.
pub fn put_state(state: State, image: &mut [u8]) -> Answer
    ensures { StoresState state image.old result image.new }
{
    let Some(image) = image.first_chunk_mut::<STATE>() else {
        return Answer::bare(9);
    };
    store_running(state, image);
    put_plan(state.plan, image)
}

// Stores what follows the plan in a state's image, at its place in a buffer: 9. Where an image of
// that plan is there already, as after a call that keeps the plan, this makes it the state's.
pub fn put_running(state: State, out: &mut [u8]) -> Answer
    ensures { StoresRunning state out.old result out.new }
{
    let Some(out) = out.first_chunk_mut::<STATE>() else {
        return Answer::bare(9);
    };
    store_running(state, out);
    Answer::Good
}
