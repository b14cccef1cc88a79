// The figures of a kind stored as bytes. Offsets and widths are those that crate `images` states.
ghost use Rattle.std.specs.Prelude.{◌≡◌, [], ◌∷◌, ◌++◌, ◌+◌, ◌≤◌, ◌<◌, length, drop};
ghost use Rattle.std.proofs.lemmas.List.Edits.{sets};
ghost use Rattle.codec.specs.Place.{size_of, placed};
ghost use Rattle.codec.specs.Places.{put_to};
ghost use Rattle.images.specs.FiguresImage.{number_widths, slice_widths, supply_place, slice_place, supply_bytes_at};
ghost use Rattle.images.specs.FiguresImage.{slice_bytes_at};
ghost use Rattle.images.specs.FiguresImage.{figures_image, StoresFigures};

use crate::{Placed, put_fields, put_row};
use answer::Answer;
use verdict::Figures;

// The bytes of a number and of a slice, where the rows start, and the bytes of all.
const NUMBER: usize = 4;

const SLICE: usize = 1;

const SUPPLY_AT: usize = NUMBER;

const SLICES_AT: usize = SUPPLY_AT + 8 * NUMBER;

const FIGURES: usize = SLICES_AT + 8 * SLICE;

// A figure.
impl Placed for u32 {
    const BYTES: usize = NUMBER;

    ghost BYTES = { size_of number_widths };

    ghost bytes = { λ v. placed number_widths (v ∷ []) };

    fn put(self, out: &mut [u8], at: usize) {
        put_fields(u64::from(self), NUMBER, out, at);
    }
}

fn put_supplies(figures: Figures, out: &mut [u8; FIGURES])
    ensures { out.new ≡ put_to 8 (supply_bytes_at figures) (supply_place 0) (size_of number_widths) out.old }
{
    put_row(&figures.supply, out, SUPPLY_AT);
}

fn put_slices(figures: Figures, out: &mut [u8; FIGURES])
    ensures { out.new ≡ put_to 8 (slice_bytes_at figures) (slice_place 0) (size_of slice_widths) out.old }
{
    put_row(&figures.slice, out, SLICES_AT);
}

fn store_figures(figures: Figures, out: &mut [u8; FIGURES])
    ensures { out.new ≡ figures_image figures }
{
    figures.workload.put(out, 0);
    put_supplies(figures, out);
    put_slices(figures, out);
}

// Stores a kind's figures at the front of a buffer: 9.
pub fn put_figures(figures: Figures, out: &mut [u8]) -> Answer
    ensures { StoresFigures figures out.old result out.new }
{
    let Some(out) = out.first_chunk_mut::<FIGURES>() else {
        return Answer::bare(9);
    };
    store_figures(figures, out);
    Answer::Good
}
