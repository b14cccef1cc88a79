// The supply of a project, what its other kinds add to the workload, and the least k at which a
// unit fits, with the bad slice to arrive in. Document 01, "Supply and verdict". Every argument is
// answered.
#![tactic(auto)]

ghost use Rattle.std.specs.Prelude.{◌≡◌, ◌+◌, ◌-◌, ◌*◌, ◌≤◌, ◌<◌, min, replicate};
ghost use Rattle.laws.specs.Written.{written};
ghost use Rattle.supply.specs.Workload.{whole_units, workload_part};
ghost use Rattle.supply.specs.Fit.{held_at, least_with, short_by, fit_of, supplied_of};

// The least k at which a unit fits, or 0 where there is none, and then the excess. Document 01's
// k is a width here: the most cards that count at one slice. The slice is the bad one to arrive in,
// for that k or for the one that the excess names.
// kept: a width of 0 and no Option, as `fit_of` and its laws have document 01's k of 0.
#[derive(Clone, Copy)]
pub struct Fit {
    pub width: u8,
    pub excess: u64,
    pub slice: u8,
}

impl Fit {
    // The most slices of a frame.
    pub const FRAME: u8 = 64;
}

// The least of the values so far, and the slice that stands beside it.
#[derive(Clone, Copy)]
struct Least {
    value: usize,
    slice: u8,
}

// The whole units of another kind in t slices.
fn whole_units(separation: usize, deadline: usize, t: usize) -> usize
    requires { (0 < separation) × (separation ≤ 65535) × (t ≤ 65535) }
    ensures { (result ≡ whole_units separation deadline t) × (result ≤ 65536) }
{
    (t + separation.saturating_sub(deadline)) / separation
}

// What another kind of the same project adds to the workload in t slices: its whole units, and the
// carry-in of the one before them.
pub fn workload_part(separation: u16, deadline: u16, length: u16, t: u16) -> u32
    ensures { result ≡ workload_part separation deadline length t }
{
    let length = length as usize;
    let t = t as usize;
    if separation == 0 {
        return length.min(t) as u32;
    }
    let separation = separation as usize;
    let units = whole_units(separation, deadline as usize, t);
    let carry_in = length.min(t.saturating_sub(units * separation));
    (units * length + carry_in) as u32
}

// The least so far, with the value at this place and its slice. At place 0 that value is it, and
// later only a lesser one, so that the slice is that of the first place.
fn least_with(place: usize, least: Least, value: usize, slice: u8) -> Least
    ensures { (result ≡ least_with place least value slice) × (result.value ≤ value) }
{
    if place == 0 {
        return Least { value, slice };
    }
    if value < least.value {
        return Least { value, slice };
    }
    least
}

// "kCi + W"
fn asked(width: u8, length: u16, workload: u32) -> usize
    ensures { (result ≡ width * length + workload) × (result ≤ 8589934592) }
{
    width as usize * length as usize + workload as usize
}

// How much longer a unit is than this width allows, with the width's bad slice: C minus the greatest
// C' with kC' + W <= S(k,D). A width that allows not even 0 counts as one slice more than the
// whole, with no slice.
// kept: five numbers that meet nowhere else.
fn short_by(width: u8, length: u16, workload: u32, supply: usize, slice: u8) -> Least
    requires { 0 < width }
    ensures { (result ≡ short_by width length workload supply slice) × (result.value ≤ 65536) }
{
    let length = length as usize;
    let workload = workload as usize;
    if supply < workload {
        let beyond = length + 1;
        return Least {
            value: beyond,
            slice: 0,
        };
    }
    let allowed = (supply - workload) / width as usize;
    let short = length - allowed.min(length);
    Least {
        value: short,
        slice,
    }
}

// The cards held at each slice of two frames in a row: a window that starts in the first needs no
// remainder.
fn two_frames(held: [u8; 64], frame: usize) -> [u8; 128]
    requires { (0 < frame) × (frame ≤ 64) }
    ensures { result ≡ written (2 * frame) (held_at frame held) (replicate 128 0) }
{
    let mut cards = [0u8; 128];
    cards[..frame].copy_from_slice(&held[..frame]);
    cards[frame..2 * frame].copy_from_slice(&held[..frame]);
    cards
}

// The least width, of 1 to the ceiling, at which the unit fits. One frame's sum counts for each
// whole frame of the deadline, so that only the slices left over are gone through, from each start.
// A sum of less than a frame stays in 16 bits, which keeps the inner loop quick.
// kept: six numbers, as `fit_of` has them.
pub fn least_fit(
    held: [u8; 64],
    frame: u8,
    ceiling: u8,
    length: u16,
    workload: u32,
    deadline: u16,
) -> Fit
    ensures { result ≡ fit_of frame held ceiling length workload deadline }
{
    if frame == 0 {
        return Fit {
            width: 0,
            excess: 0,
            slice: 0,
        };
    }
    if Fit::FRAME < frame {
        return Fit {
            width: 0,
            excess: 0,
            slice: 0,
        };
    }
    let slices = frame as usize;
    let frames = (deadline as usize) / slices;
    let rest = (deadline as usize) % slices;
    let cards = two_frames(held, slices);
    let beyond = length as usize + 1;
    let mut found: u8 = 0;
    let mut excess = length as usize;
    let mut short = Least {
        value: beyond,
        slice: 0,
    };
    // kept: document 01 asks for loops over k, start and length, and for the labelled break.
    'widths: for below in 0..ceiling {
        let width = below + 1;
        let mut one_frame: u16 = 0;
        let mut least = Least { value: 0, slice: 0 };
        // kept: an index, since there are no windows of a rest of 0 slices.
        for start in 0..slices {
            let mut sum: u16 = 0;
            for here in &cards[start..start + rest] {
                sum += u16::from(width.min(*here));
            }
            least = least_with(start, least, sum as usize, start as u8);
            one_frame += u16::from(width.min(cards[start]));
        }
        let supply = frames * one_frame as usize + least.value;
        let asked = asked(width, length, workload);
        if asked <= supply {
            found = width;
            excess = 0;
            short = Least {
                value: 0,
                slice: least.slice,
            };
            break 'widths;
        }
        let here = short_by(width, length, workload, supply, least.slice);
        short = least_with(below as usize, short, here.value, here.slice);
        excess = short.value.min(length as usize);
    }
    Fit {
        width: found,
        excess: excess as u64,
        slice: short.slice,
    }
}

// S(k,t), and the bad slice to arrive in for it.
#[derive(Clone, Copy)]
pub struct Supplied {
    pub value: u32,
    pub slice: u8,
}

// What one width is given in t slices. It goes the way of `least_fit`, which tries one width after the
// other until the unit fits.
// kept: the two loops stand here and in `least_fit`, since document 01 asks there for loops over k, start and length.
pub fn supply(held: [u8; 64], frame: u8, width: u8, t: u16) -> Supplied
    ensures { result ≡ supplied_of frame held width t }
{
    if frame == 0 {
        return Supplied { value: 0, slice: 0 };
    }
    if Fit::FRAME < frame {
        return Supplied { value: 0, slice: 0 };
    }
    let slices = frame as usize;
    let frames = (t as usize) / slices;
    let rest = (t as usize) % slices;
    let cards = two_frames(held, slices);
    let mut one_frame: u16 = 0;
    let mut least = Least { value: 0, slice: 0 };
    // kept: an index, since there are no windows of a rest of 0 slices.
    for start in 0..slices {
        let mut sum: u16 = 0;
        for here in &cards[start..start + rest] {
            sum += u16::from(width.min(*here));
        }
        least = least_with(start, least, sum as usize, start as u8);
        one_frame += u16::from(width.min(cards[start]));
    }
    let value = (frames * one_frame as usize + least.value) as u32;
    Supplied {
        value,
        slice: least.slice,
    }
}
