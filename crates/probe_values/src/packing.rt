// A state and the arguments of a call, packed in one array of lengths and one of counts. This file says what stands where, as
// oracle/packing/src/lib.rs does for the Rust. A call reads and writes the places that it has a use for, and no others. The two arrays go side
// by side through every function, and no struct holds them, since C lends them apart.
ghost use Rattle.std.specs.Prelude.{◌≡◌, ◌+◌, ◌≤◌, length};

use emath::{Rect, Vec2};

// With room for more: contracts repeat this number.
pub type Lengths = [f32; 384];

// A region.
pub const MIN_RECT: usize = 0;

pub const MAX_RECT: usize = MIN_RECT + 4;

pub const CURSOR: usize = MAX_RECT + 4;

// A grid. A memory is 32 widths and 128 heights; one that is alone stands where a grid has its previous one.
pub const INITIAL_AVAILABLE: usize = CURSOR + 4;

pub const SPACING: usize = INITIAL_AVAILABLE + 4;

pub const MIN_CELL_SIZE: usize = SPACING + 2;

pub const MAX_CELL_SIZE: usize = MIN_CELL_SIZE + 2;

pub const PREV_STATE: usize = MAX_CELL_SIZE + 2;

pub const CURR_STATE: usize = PREV_STATE + 160;

// Arguments: a rectangle or a frame, which is also where a plate is put, a widget, a size, a spacing, and any one length.
pub const RECT: usize = CURR_STATE + 160;

pub const WIDGET_RECT: usize = RECT + 4;

pub const SIZE: usize = WIDGET_RECT + 4;

pub const ITEM_SPACING: usize = SIZE + 2;

pub const LENGTH: usize = ITEM_SPACING + 2;

// With room for more: contracts repeat this number.
pub type Counts = [usize; 24];

// A layout's six fields, in the order of RULES 2.2.
pub const MAIN_DIR: usize = 0;

pub const MAIN_WRAP: usize = MAIN_DIR + 1;

pub const MAIN_ALIGN: usize = MAIN_WRAP + 1;

pub const MAIN_JUSTIFY: usize = MAIN_ALIGN + 1;

pub const CROSS_ALIGN: usize = MAIN_JUSTIFY + 1;

pub const CROSS_JUSTIFY: usize = CROSS_ALIGN + 1;

// Whether a placer has a grid, then a grid. A memory's counts are its columns and its rows.
pub const HAS_GRID: usize = CROSS_JUSTIFY + 1;

pub const IS_FIRST_FRAME: usize = HAS_GRID + 1;

pub const SIZING_PASS: usize = IS_FIRST_FRAME + 1;

pub const NUM_COLUMNS: usize = SIZING_PASS + 1;

pub const COL: usize = NUM_COLUMNS + 1;

pub const ROW: usize = COL + 1;

pub const PREV_COUNTS: usize = ROW + 1;

pub const CURR_COUNTS: usize = PREV_COUNTS + 2;

// Arguments and answers: which of an entry point's calls is meant, a number since C gives it; a column, a row, or the record at fault; whether
// the memory is known; whether it is to be saved.
pub const CALL: usize = CURR_COUNTS + 2;

pub const PLACE: usize = CALL + 1;

pub const KNOWN: usize = PLACE + 1;

pub const SAVE: usize = KNOWN + 1;

pub fn rect_at(lengths: &[f32], at: usize) -> Rect
    requires { at + 4 ≤ length lengths.now }
{
    Rect {
        left: lengths[at],
        top: lengths[at + 1],
        right: lengths[at + 2],
        bottom: lengths[at + 3],
    }
}

pub fn vec2_at(lengths: &[f32], at: usize) -> Vec2
    requires { at + 2 ≤ length lengths.now }
{
    Vec2 {
        x: lengths[at],
        y: lengths[at + 1],
    }
}

pub fn put_at(lengths: &mut [f32], at: usize, numbers: &[f32])
    requires { at + length numbers.now ≤ length lengths.old }
    ensures { length lengths.new ≡ length lengths.old }
{
    lengths[at..at + numbers.len()].copy_from_slice(numbers);
}
