// One kind's unit: whether there ever was one, the slices gone since its release, and the slices
// left.
//
// Document 01, "Running", "In form" and the refusals 13 and 14; document 02 (ix), slices gone in
// place of a clock. Every record is answered, whatever its fields hold.
#![tactic(auto)]

mod form;
mod start;
mod step;

ghost use Rattle.std.specs.Prelude.{◌≡◌};
ghost use Rattle.unit.specs.Unit.{no_unit};

// A kind's last unit. It takes six bytes.
// kept: no Option, since a record may say never released beside slices that are not 0: 10 is for it.
#[derive(Clone, Copy, PartialEq, Eq)]
pub struct Unit {
    pub gone: u16,
    pub left: u16,
    pub released: bool,
}

impl Unit {
    // The unit of a kind that was never released.
    pub fn empty() -> Self
        ensures { result ≡ no_unit }
    {
        Unit {
            gone: 0,
            left: 0,
            released: false,
        }
    }
}
