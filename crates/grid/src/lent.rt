// GridLayout's calls on lent arrays: the cores of those in `grids`. Each holds for the grid that settings, state and arrays make.
ghost use Rattle.std.specs.Prelude.{◌≡◌, List, [], ◌<◌, length, Float};
ghost use Rattle.emath.specs.Steps.{tick};
ghost use Rattle.emath.specs.declared.Rect.{Rect as Place};
ghost use Rattle.grid.specs.declared.GridSettings.{GridSettings as Settings};
ghost use Rattle.grid.specs.Grids.{next_width, next_cell, advance, end_row};
ghost use Rattle.grid.specs.Implementation.Lent.{grid_of, settings_of, state_of, noted_size};

use crate::entries::{counted, entry, raise};
use crate::{GridLayout, GridSettings, GridState, MAX_COLS, MAX_ROWS, Memory};
use emath::num::max;
use emath::{Pos2, Rect, Vec2};

pub fn settings(grid: GridLayout) -> GridSettings
    ensures { result ≡ settings_of grid }
{
    GridSettings {
        is_first_frame: grid.is_first_frame,
        prev_cols: grid.prev_state.cols,
        prev_rows: grid.prev_state.rows,
        initial_available: grid.initial_available,
        sizing_pass: grid.sizing_pass,
        num_columns: grid.num_columns,
        spacing: grid.spacing,
        min_cell_size: grid.min_cell_size,
        max_cell_size: grid.max_cell_size,
    }
}

pub fn state(grid: GridLayout) -> GridState
    ensures { result ≡ state_of grid }
{
    GridState {
        cols: grid.curr_state.cols,
        rows: grid.curr_state.rows,
        col: grid.col,
        row: grid.row,
    }
}

// The arrays of `prev` beside those of this pass.
pub fn whole(
    grid: GridSettings,
    state: GridState,
    prev: Memory,
    widths: [f32; 32],
    heights: [f32; 128],
) -> GridLayout
    ensures { result ≡ grid_of grid state prev.col_widths prev.row_heights widths heights }
{
    GridLayout {
        is_first_frame: grid.is_first_frame,
        prev_state: Memory {
            cols: grid.prev_cols,
            rows: grid.prev_rows,
            ..prev
        },
        curr_state: Memory {
            col_widths: widths,
            cols: state.cols,
            row_heights: heights,
            rows: state.rows,
        },
        initial_available: grid.initial_available,
        sizing_pass: grid.sizing_pass,
        num_columns: grid.num_columns,
        spacing: grid.spacing,
        min_cell_size: grid.min_cell_size,
        max_cell_size: grid.max_cell_size,
        col: state.col,
        row: state.row,
    }
}

// A sizing pass goes by no remembered width.
fn next_width(grid: GridSettings, state: GridState, prev_widths: &[f32]) -> f32
    ensures { result ≡ next_width (grid_of grid state prev_widths.now [] [] []) }
{
    if grid.sizing_pass {
        return 0.0;
    }
    entry(counted(prev_widths, grid.prev_cols), state.col, 0.0)
}

pub fn next_cell(
    grid: GridSettings,
    state: GridState,
    prev_widths: &[f32],
    prev_heights: &[f32],
    cursor: Rect,
    child_size: Vec2,
) -> Rect
    ensures { (ws hs : List Float) → result ≡ next_cell tick (grid_of grid state prev_widths.now prev_heights.now ws hs) cursor child_size }
{
    let width = next_width(grid, state, prev_widths);
    let heights = counted(prev_heights, grid.prev_rows);
    let height = entry(heights, state.row, grid.min_cell_size.y);
    let size = Vec2 {
        x: max(child_size.x, width),
        y: max(child_size.y, height),
    };
    let min = Pos2 {
        x: cursor.left,
        y: cursor.top,
    };
    Rect::from_min_size(min, size).round_ui_quickly()
}

// The entries that an advance leaves at its column and its row.
pub fn noted_size(
    grid: GridSettings,
    state: GridState,
    widths: &[f32],
    heights: &[f32],
    widget: Rect,
) -> Vec2
    ensures { (pw ph : List Float) → result ≡ noted_size (grid_of grid state pw ph widths.now heights.now) widget }
{
    let width = max(widget.width(), grid.min_cell_size.x);
    let height = max(widget.height(), grid.min_cell_size.y);
    Vec2 {
        x: max(entry(counted(widths, state.cols), state.col, 0.0), width),
        y: max(entry(counted(heights, state.rows), state.row, 0.0), height),
    }
}

// The widget's size goes to the arrays, each length raised to the minimum cell.
fn note(
    grid: GridSettings,
    state: GridState,
    widths: &mut [f32],
    heights: &mut [f32],
    widget: Rect,
) -> GridState
    requires col_bound { (state.col < 32) × (state.row < 128) }
    requires widths_len { (length widths.old ≡ 32) × (length heights.old ≡ 128) }
    ensures { (pw ph : List Float) (c : Place) → grid_of grid result pw ph widths.new heights.new ≡ (advance (grid_of grid state pw ph widths.old heights.old) c widget).grid }
{
    let width = max(widget.width(), grid.min_cell_size.x);
    let height = max(widget.height(), grid.min_cell_size.y);
    GridState {
        cols: raise(widths, state.cols, state.col, width),
        rows: raise(heights, state.rows, state.row, height),
        col: state.col + 1,
        row: state.row,
    }
}

// Where the grid has no room nothing changes.
pub fn advance(
    grid: GridSettings,
    state: GridState,
    widths: &mut [f32],
    heights: &mut [f32],
    widget: Rect,
) -> GridState
    requires { (length widths.old ≡ 32) × (length heights.old ≡ 128) }
    ensures { (pw ph : List Float) (c : Place) → grid_of grid result pw ph widths.new heights.new ≡ (advance (grid_of grid state pw ph widths.old heights.old) c widget).grid }
{
    if state.col < MAX_COLS {
        if state.row < MAX_ROWS {
            return note(grid, state, widths, heights, widget);
        }
    }
    state
}

pub fn advanced_cursor(
    grid: GridSettings,
    state: GridState,
    prev_widths: &[f32],
    cursor: Rect,
) -> Rect
    ensures { (ph ws hs : List Float) (w : Place) → result ≡ (advance (grid_of grid state prev_widths.now ph ws hs) cursor w).cursor }
{
    if state.col < MAX_COLS {
        if state.row < MAX_ROWS {
            let width = entry(
                counted(prev_widths, grid.prev_cols),
                state.col,
                grid.min_cell_size.x,
            );
            let mut c = cursor;
            c.left = cursor.left + (width + grid.spacing.x);
            return c;
        }
    }
    cursor
}

pub fn end_row(state: GridState) -> GridState
    ensures { (g : Settings) (pw ph ws hs : List Float) (c : Place) → grid_of g result pw ph ws hs ≡ (end_row (grid_of g state pw ph ws hs) c).grid }
{
    if state.row < MAX_ROWS {
        return GridState {
            col: 0,
            row: state.row + 1,
            ..state
        };
    }
    state
}

// By the height that this pass has met, or the minimum.
pub fn ended_cursor(grid: GridSettings, state: GridState, heights: &[f32], cursor: Rect) -> Rect
    ensures { (pw ph ws : List Float) → result ≡ (end_row (grid_of grid state pw ph ws heights.now) cursor).cursor }
{
    if state.row < MAX_ROWS {
        let height = entry(
            counted(heights, state.rows),
            state.row,
            grid.min_cell_size.y,
        );
        let mut c = cursor;
        c.left = grid.initial_available.left;
        c.top = cursor.top + grid.spacing.y + height;
        return c;
    }
    cursor
}
