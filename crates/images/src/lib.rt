// The images of a plan and of a state: bytes of a fixed size, in which both cross to another
// language. specs/Image.antt has their layout, by which `image_reader` finds and `image_writer`
// stores: the sizes here are those that its widths make.
#![tactic(auto)]

// The bytes of a place: a plan's counts, a project, a unit kind, the slice, a unit, a sum.
pub const COUNTS: usize = 4;

pub const PROJECT: usize = 3;

pub const KIND: usize = 7;

pub const SLICE: usize = 1;

pub const UNIT: usize = 5;

pub const SUM: usize = 2;

// Where the rows start, and the bytes of each image.
pub const PROJECTS_AT: usize = COUNTS;

pub const KINDS_AT: usize = PROJECTS_AT + 8 * PROJECT;

pub const PLAN: usize = KINDS_AT + 16 * KIND;

pub const SLICE_AT: usize = PLAN;

pub const UNITS_AT: usize = SLICE_AT + SLICE;

pub const SUMS_AT: usize = UNITS_AT + 16 * UNIT;

pub const STATE: usize = SUMS_AT + 8 * SUM;

// Fields of 8, 16, 32 and 48 bits.
pub const BITS_8: u64 = 256;

pub const BITS_16: u64 = BITS_8 * BITS_8;

pub const BITS_24: u64 = BITS_16 * BITS_8;

pub const BITS_32: u64 = BITS_16 * BITS_16;

pub const BITS_48: u64 = BITS_32 * BITS_16;
