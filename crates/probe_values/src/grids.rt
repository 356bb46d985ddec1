// The values of crate grid.
ghost use Rattle.std.specs.Prelude.{◌+◌, ◌≤◌};

use crate::packing::{
    COL, CURR_COUNTS, CURR_STATE, CURSOR, Counts, INITIAL_AVAILABLE, IS_FIRST_FRAME, Lengths,
    MAX_CELL_SIZE, MIN_CELL_SIZE, NUM_COLUMNS, PREV_COUNTS, PREV_STATE, ROW, SAVE, SIZING_PASS,
    SPACING, put_at, rect_at, vec2_at,
};
use crate::rects::Numbers;
use grid::{GridLayout, Memory, Moved, Saved};

fn memory_at(lengths: &Lengths, counts: &Counts, at: usize, counted: usize) -> Memory
    requires at_bound { at + 160 ≤ 384 }
    requires counted_bound { counted + 2 ≤ 24 }
{
    let mut col_widths = [0.0; 32];
    let mut row_heights = [0.0; 128];
    col_widths.copy_from_slice(&lengths[at..at + 32]);
    row_heights.copy_from_slice(&lengths[at + 32..at + 160]);
    Memory {
        col_widths,
        cols: counts[counted],
        row_heights,
        rows: counts[counted + 1],
    }
}

fn put_memory_at(lengths: &mut Lengths, counts: &mut Counts, at: usize, counted: usize, m: &Memory)
    requires at_bound { at + 160 ≤ 384 }
    requires counted_bound { counted + 2 ≤ 24 }
{
    put_at(lengths, at, &m.col_widths);
    put_at(lengths, at + 32, &m.row_heights);
    counts[counted] = m.cols;
    counts[counted + 1] = m.rows;
}

pub fn memory_of(lengths: &Lengths, counts: &Counts) -> Memory {
    memory_at(lengths, counts, PREV_STATE, PREV_COUNTS)
}

pub fn put_memory(lengths: &mut Lengths, counts: &mut Counts, m: &Memory) {
    put_memory_at(lengths, counts, PREV_STATE, PREV_COUNTS, m);
}

pub fn grid_of(lengths: &Lengths, counts: &Counts) -> GridLayout {
    GridLayout {
        is_first_frame: counts[IS_FIRST_FRAME] != 0,
        prev_state: memory_at(lengths, counts, PREV_STATE, PREV_COUNTS),
        curr_state: memory_at(lengths, counts, CURR_STATE, CURR_COUNTS),
        initial_available: rect_at(lengths, INITIAL_AVAILABLE),
        sizing_pass: counts[SIZING_PASS] != 0,
        num_columns: counts[NUM_COLUMNS],
        spacing: vec2_at(lengths, SPACING),
        min_cell_size: vec2_at(lengths, MIN_CELL_SIZE),
        max_cell_size: vec2_at(lengths, MAX_CELL_SIZE),
        col: counts[COL],
        row: counts[ROW],
    }
}

pub fn put_grid(lengths: &mut Lengths, counts: &mut Counts, g: &GridLayout) {
    counts[IS_FIRST_FRAME] = g.is_first_frame as usize;
    put_memory_at(lengths, counts, PREV_STATE, PREV_COUNTS, &g.prev_state);
    put_memory_at(lengths, counts, CURR_STATE, CURR_COUNTS, &g.curr_state);
    put_at(lengths, INITIAL_AVAILABLE, &g.initial_available.numbers());
    counts[SIZING_PASS] = g.sizing_pass as usize;
    counts[NUM_COLUMNS] = g.num_columns;
    put_at(lengths, SPACING, &g.spacing.numbers());
    put_at(lengths, MIN_CELL_SIZE, &g.min_cell_size.numbers());
    put_at(lengths, MAX_CELL_SIZE, &g.max_cell_size.numbers());
    counts[COL] = g.col;
    counts[ROW] = g.row;
}

pub fn put_moved(lengths: &mut Lengths, counts: &mut Counts, moved: &Moved) {
    put_grid(lengths, counts, &moved.grid);
    put_at(lengths, CURSOR, &moved.cursor.numbers());
}

pub fn put_saved(lengths: &mut Lengths, counts: &mut Counts, saved: &Saved) {
    put_memory(lengths, counts, &saved.memory);
    counts[SAVE] = saved.save as usize;
}
