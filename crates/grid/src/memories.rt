// egui's State: what a grid remembers of one pass for the next.
// An array is copied before it is read or raised: a loan of a field copies the whole memory, and a read takes five times as long.
ghost use Rattle.std.specs.Prelude.{◌≡◌};
ghost use Rattle.grid.specs.Memories.{empty_memory, capped, raised_count, set_min_col_width, set_min_row_height, col_width, row_height, full_width, same_memory};

use crate::entries::{counted, entry, raise, same_entries, total_of};
use crate::{MAX_COLS, MAX_ROWS, Memory};

pub fn empty_memory() -> Memory
    ensures { result ≡ empty_memory }
{
    Memory {
        col_widths: [0.0; 32],
        cols: 0,
        row_heights: [0.0; 128],
        rows: 0,
    }
}

// The arrays, for lending.
pub fn widths_of(memory: Memory) -> [f32; 32]
    ensures { result ≡ memory.col_widths }
{
    memory.col_widths
}

pub fn heights_of(memory: Memory) -> [f32; 128]
    ensures { result ≡ memory.row_heights }
{
    memory.row_heights
}

// A count, no more than the array has.
pub fn capped_count(n: usize, room: usize) -> usize
    ensures { result ≡ capped n room }
{
    n.min(room)
}

pub fn raised_count(n: usize, least: usize) -> usize
    ensures { result ≡ raised_count n least }
{
    n.max(least)
}

pub fn set_min_col_width(memory: Memory, col: usize, width: f32) -> Memory
    ensures { result ≡ set_min_col_width memory col width }
{
    if col < MAX_COLS {
        let mut xs = memory.col_widths;
        let n = raise(&mut xs, memory.cols, col, width);
        return Memory {
            col_widths: xs,
            cols: n,
            ..memory
        };
    }
    memory
}

pub fn set_min_row_height(memory: Memory, row: usize, height: f32) -> Memory
    ensures { result ≡ set_min_row_height memory row height }
{
    if row < MAX_ROWS {
        let mut xs = memory.row_heights;
        let n = raise(&mut xs, memory.rows, row, height);
        return Memory {
            row_heights: xs,
            rows: n,
            ..memory
        };
    }
    memory
}

// The remembered width, or `other` where there is none.
pub fn col_width(memory: Memory, col: usize, other: f32) -> f32
    ensures { result ≡ col_width memory col other }
{
    let xs = memory.col_widths;
    entry(counted(&xs, memory.cols), col, other)
}

pub fn row_height(memory: Memory, row: usize, other: f32) -> f32
    ensures { result ≡ row_height memory row other }
{
    let xs = memory.row_heights;
    entry(counted(&xs, memory.rows), row, other)
}

// All widths, with a spacing between each two.
pub fn full_width(memory: Memory, x_spacing: f32) -> f32
    ensures { result ≡ full_width memory x_spacing }
{
    let xs = memory.col_widths;
    let widths = counted(&xs, memory.cols);
    total_of(widths) + (widths.len().saturating_sub(1) as f32) * x_spacing
}

// Counts and counted entries, a zero's sign aside.
pub fn same_memory(a: Memory, b: Memory) -> bool
    ensures { result ≡ same_memory a b }
{
    let widths = a.col_widths;
    let others = b.col_widths;
    let wide = same_entries(counted(&widths, a.cols), counted(&others, b.cols));
    let heights = a.row_heights;
    let those = b.row_heights;
    wide & same_entries(counted(&heights, a.rows), counted(&those, b.rows))
}
