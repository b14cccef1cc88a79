// The layout of budgets onto cards: document 01, "Layout".
#![tactic(auto)]

mod table;

ghost use Rattle.std.specs.Prelude.{◌≡◌};
ghost use Rattle.layout.specs.Cards.{cards_below};

pub use table::slot_table;

// How many cells of a slice stand below a cell: none of a slice that the frame does not have.
// A project's cards at a slice start at this number for its first cell, and end before this
// number for the next project's.
pub fn cards_below(cell: u16, frame: u8, slice: u8) -> u16
    ensures { result ≡ cards_below frame cell slice }
{
    if frame <= slice {
        return 0;
    }
    let later = frame - 1 - slice;
    ((cell as u32 + later as u32) / frame as u32) as u16
}
