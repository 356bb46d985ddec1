// egui's grid.rs (RULES 3): the memory of a grid's column widths and row heights, and the grid's layout.
// The unchecked rules are total functions, in `memories` and `grids`; `operations` holds the public calls, which refuse by RULES 8.16 with
// the faults of `faults`.
#![tactic(auto)]

use emath::{Rect, Vec2};

mod entries;
pub mod faults;
pub mod grids;
pub mod lent;
pub mod memories;
mod operations;

// How many columns and rows a memory has room for.
pub const MAX_COLS: usize = 32;

pub const MAX_ROWS: usize = 128;

// egui's State. Entries beyond a count are not read.
// Fixed memory: arrays with counts, where the Rust has two Vecs.
#[derive(Clone, Copy)]
pub struct Memory {
    pub col_widths: [f32; 32],
    pub cols: usize,
    pub row_heights: [f32; 128],
    pub rows: usize,
}

#[derive(Clone, Copy)]
pub struct GridLayout {
    // No previous memory is known.
    pub is_first_frame: bool,
    pub prev_state: Memory,
    pub curr_state: Memory,
    pub initial_available: Rect,
    pub sizing_pass: bool,
    // 0: not named. The rules take every number as it is (RULES 3.8).
    pub num_columns: usize,
    pub spacing: Vec2,
    pub min_cell_size: Vec2,
    // Each may be +infinity.
    pub max_cell_size: Vec2,
    pub col: usize,
    pub row: usize,
}

// What a pass leaves as it is of a grid, without the arrays, which are lent beside it.
#[derive(Clone, Copy)]
pub struct GridSettings {
    pub is_first_frame: bool,
    pub prev_cols: usize,
    pub prev_rows: usize,
    pub initial_available: Rect,
    pub sizing_pass: bool,
    pub num_columns: usize,
    pub spacing: Vec2,
    pub min_cell_size: Vec2,
    pub max_cell_size: Vec2,
}

// What a pass carries from cell to cell: how many columns and rows it remembers so far, and where it is.
#[derive(Clone, Copy)]
pub struct GridState {
    pub cols: usize,
    pub rows: usize,
    pub col: usize,
    pub row: usize,
}

// A grid with the cursor that it has moved.
#[derive(Clone, Copy)]
pub struct Moved {
    pub grid: GridLayout,
    pub cursor: Rect,
}

// What a pass gives back: the memory, and whether it is to be saved. No Option: it is the grid's either way (RULES 3.15).
#[derive(Clone, Copy)]
pub struct Saved {
    pub memory: Memory,
    pub save: bool,
}

// Calls that change a state, by numbers as the rules have it: the number (0: none; any byte), and the state, the given one where it is refused.
#[derive(Clone, Copy)]
pub struct MemoryAnswer {
    pub number: u8,
    pub memory: Memory,
}

#[derive(Clone, Copy)]
pub struct GridAnswer {
    pub number: u8,
    pub grid: GridLayout,
}

#[derive(Clone, Copy)]
pub struct MovedAnswer {
    pub number: u8,
    pub moved: Moved,
}

#[derive(Clone, Copy)]
pub struct SavedAnswer {
    pub number: u8,
    pub saved: Saved,
}
