// GridLayout, in grid.rs's order, before anything is refused.
ghost use Rattle.std.specs.Prelude.{◌≡◌, ◌+◌, eqb};
ghost use Rattle.emath.specs.Steps.{tick};
ghost use Rattle.grid.specs.Grids.{known_memory, new_grid, empty_grid, prev_col_width, prev_row_height, last_width, other_width, cell_width, cell_height, available_rect, next_cell, align_size_within_rect, advance, end_row, save};

use crate::lent::{settings, state, whole};
use crate::memories::{col_width, empty_memory, heights_of, row_height, same_memory, widths_of};
use crate::{GridLayout, Memory, Moved, Saved, lent};
use emath::domain::is_finite;
use emath::num::{at_least, at_most, max};
use emath::{Align2, Pos2, Rect, Vec2};
use region::Region;

pub fn known_memory(known: bool, memory: Memory) -> Memory
    ensures { result ≡ known_memory known memory }
{
    if known { memory } else { empty_memory() }
}

// `known` says whether there is a memory of an earlier pass. `num_columns` is 0 where it is not named.
pub fn new_grid(
    region: Region,
    known: bool,
    memory: Memory,
    sizing_pass: bool,
    spacing: Vec2,
    min_cell_size: Vec2,
    max_cell_size: Vec2,
    num_columns: usize,
    start_row: usize,
) -> GridLayout
    ensures { result ≡ new_grid region known memory sizing_pass spacing min_cell_size max_cell_size num_columns start_row }
{
    let prev = known_memory(known, memory);
    let curr = empty_memory();
    let available = region.max_rect.intersect(region.cursor);
    GridLayout {
        is_first_frame: !known,
        prev_state: prev,
        curr_state: curr,
        initial_available: available,
        sizing_pass: sizing_pass,
        num_columns: num_columns,
        spacing: spacing,
        min_cell_size: min_cell_size,
        max_cell_size: max_cell_size,
        col: 0,
        row: start_row,
    }
}

// What `new` answers where it is refused: a first pass over an empty memory, every length zero.
pub fn empty_grid() -> GridLayout
    ensures { result ≡ empty_grid }
{
    let m = empty_memory();
    GridLayout {
        is_first_frame: true,
        prev_state: m,
        curr_state: m,
        initial_available: Rect::ZERO,
        sizing_pass: false,
        num_columns: 0,
        spacing: Vec2::ZERO,
        min_cell_size: Vec2::ZERO,
        max_cell_size: Vec2::ZERO,
        col: 0,
        row: 0,
    }
}

pub fn prev_col_width(grid: GridLayout, col: usize) -> f32
    ensures { result ≡ prev_col_width grid col }
{
    col_width(grid.prev_state, col, grid.min_cell_size.x)
}

pub fn prev_row_height(grid: GridLayout, row: usize) -> f32
    ensures { result ≡ prev_row_height grid row }
{
    row_height(grid.prev_state, row, grid.min_cell_size.y)
}

fn is_last_column(grid: GridLayout) -> bool
    ensures { result ≡ eqb (grid.col + 1) grid.num_columns }
{
    let n = grid.num_columns;
    if n == 0 {
        return false;
    }
    grid.col == n - 1
}

// In a first pass the widths of the columns before are not known yet.
fn last_width(grid: GridLayout, cursor: Rect) -> f32
    ensures { result ≡ last_width grid cursor }
{
    if grid.is_first_frame {
        return col_width(grid.curr_state, grid.col, grid.min_cell_size.x);
    }
    at_most(
        grid.initial_available.right - cursor.left,
        grid.max_cell_size.x,
    )
}

fn other_width(grid: GridLayout) -> f32
    ensures { result ≡ other_width grid }
{
    if is_finite(grid.max_cell_size.x) {
        return grid.max_cell_size.x;
    }
    let current = col_width(grid.curr_state, grid.col, grid.min_cell_size.x);
    col_width(grid.prev_state, grid.col, current)
}

fn cell_width(grid: GridLayout, cursor: Rect) -> f32
    ensures { result ≡ cell_width grid cursor }
{
    if is_last_column(grid) {
        last_width(grid, cursor)
    } else {
        other_width(grid)
    }
}

fn cell_height(grid: GridLayout, height: f32) -> f32
    ensures { result ≡ cell_height grid height }
{
    at_most(at_least(height, grid.min_cell_size.y), grid.max_cell_size.y)
}

pub fn available_rect(grid: GridLayout, region: Region) -> Rect
    ensures { result ≡ available_rect grid region }
{
    let width = max(
        cell_width(grid, region.cursor),
        col_width(grid.curr_state, grid.col, 0.0),
    );
    let available = region.max_rect.intersect(region.cursor);
    let height = cell_height(grid, region.max_rect.bottom - available.top);
    let min = Pos2 {
        x: available.left,
        y: available.top,
    };
    Rect::from_min_size(
        min,
        Vec2 {
            x: width,
            y: height,
        },
    )
}

pub fn next_cell(grid: GridLayout, cursor: Rect, child_size: Vec2) -> Rect
    ensures { result ≡ next_cell tick grid cursor child_size }
{
    let widths = widths_of(grid.prev_state);
    let heights = heights_of(grid.prev_state);
    lent::next_cell(
        settings(grid),
        state(grid),
        &widths,
        &heights,
        cursor,
        child_size,
    )
}

pub fn align_size_within_rect(size: Vec2, frame: Rect) -> Rect
    ensures { result ≡ align_size_within_rect tick size frame }
{
    let a = Align2::LEFT_CENTER;
    a.align_size_within_rect(size, frame).round_ui_quickly()
}

// Where the grid has no room nothing changes.
pub fn advance(grid: GridLayout, cursor: Rect, widget: Rect) -> Moved
    ensures { result ≡ advance grid cursor widget }
{
    let prev_widths = widths_of(grid.prev_state);
    let mut widths = widths_of(grid.curr_state);
    let mut heights = heights_of(grid.curr_state);
    let b = settings(grid);
    let s = state(grid);
    let c = lent::advanced_cursor(b, s, &prev_widths, cursor);
    let g = lent::advance(b, s, &mut widths, &mut heights, widget);
    Moved {
        grid: whole(b, g, grid.prev_state, widths, heights),
        cursor: c,
    }
}

pub fn end_row(grid: GridLayout, cursor: Rect) -> Moved
    ensures { result ≡ end_row grid cursor }
{
    let heights = heights_of(grid.curr_state);
    let b = settings(grid);
    let s = state(grid);
    let c = lent::ended_cursor(b, s, &heights, cursor);
    let g = lent::end_row(s);
    Moved {
        grid: whole(b, g, grid.prev_state, widths_of(grid.curr_state), heights),
        cursor: c,
    }
}

// To be saved where it changed, and in a first pass.
pub fn save(grid: GridLayout) -> Saved
    ensures { result ≡ save grid }
{
    let memory = grid.curr_state;
    let same = same_memory(memory, grid.prev_state);
    Saved {
        memory: memory,
        save: !same | grid.is_first_frame,
    }
}
