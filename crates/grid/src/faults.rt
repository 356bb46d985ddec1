// The faults of a memory and a grid (RULES 8.5), and what calls answer by numbers (RULES 8.4).
ghost use Rattle.std.specs.Prelude.{◌≡◌};
ghost use Rattle.emath.specs.Refusals.{fault_number};
ghost use Rattle.grid.specs.Refusals.{memory_fault, max_cell_fault, grid_fault, fits_grid, direction_fault, moved_fault, memory_answer, grid_answer, moved_answer, saved_answer, entry_answer};

use crate::entries::{counted, entries_fault};
use crate::{
    GridAnswer, GridLayout, MAX_COLS, MAX_ROWS, Memory, MemoryAnswer, Moved, MovedAnswer, Saved,
    SavedAnswer,
};
use emath::faults::{answer_by_number, edges_fault, first_of, pair_fault, size_fault};
use emath::{Refusal, Vec2};
use region::Direction;
use region::faults::{cursor_fault, zero_if_open};

pub fn memory_fault(memory: Memory) -> Option<Refusal>
    ensures { fault_number result ≡ memory_fault memory }
{
    let widths = memory.col_widths;
    let heights = memory.row_heights;
    first_of(
        entries_fault(counted(&widths, memory.cols)),
        first_of(
            entries_fault(counted(&heights, memory.rows)),
            first_of(
                (MAX_COLS < memory.cols).then_some(Refusal::GridFull),
                (MAX_ROWS < memory.rows).then_some(Refusal::GridFull),
            ),
        ),
    )
}

pub fn max_cell_fault(v: Vec2) -> Option<Refusal>
    ensures { fault_number result ≡ max_cell_fault v }
{
    size_fault(Vec2 {
        x: zero_if_open(f32::INFINITY, v.x),
        y: zero_if_open(f32::INFINITY, v.y),
    })
}

pub fn grid_fault(grid: GridLayout) -> Option<Refusal>
    ensures { fault_number result ≡ grid_fault grid }
{
    let places = first_of(
        (MAX_COLS < grid.col).then_some(Refusal::GridFull),
        (MAX_ROWS < grid.row).then_some(Refusal::GridFull),
    );
    let most = first_of(max_cell_fault(grid.max_cell_size), places);
    let least = first_of(size_fault(grid.min_cell_size), most);
    let spacing = first_of(pair_fault(grid.spacing.x, grid.spacing.y), least);
    let rest = first_of(edges_fault(grid.initial_available), spacing);
    first_of(
        memory_fault(grid.prev_state),
        first_of(memory_fault(grid.curr_state), rest),
    )
}

fn fits_grid(main_dir: Direction) -> bool
    ensures { result ≡ fits_grid main_dir }
{
    match main_dir {
        Direction::LeftToRight => true,
        Direction::RightToLeft => false,
        Direction::TopDown => true,
        Direction::BottomUp => false,
    }
}

pub fn direction_fault(main_dir: Direction) -> Option<Refusal>
    ensures { fault_number result ≡ direction_fault main_dir }
{
    (!fits_grid(main_dir)).then_some(Refusal::NotInGrid)
}

pub fn moved_fault(main_dir: Direction, moved: Moved) -> Option<Refusal>
    ensures { fault_number result ≡ moved_fault main_dir moved }
{
    first_of(grid_fault(moved.grid), cursor_fault(main_dir, moved.cursor))
}

pub fn memory_answer(n: u8, given: Memory, new: Memory) -> MemoryAnswer
    ensures { result ≡ memory_answer n given new }
{
    if n == 0 {
        MemoryAnswer {
            number: n,
            memory: new,
        }
    } else {
        MemoryAnswer {
            number: n,
            memory: given,
        }
    }
}

pub fn grid_answer(n: u8, given: GridLayout, new: GridLayout) -> GridAnswer
    ensures { result ≡ grid_answer n given new }
{
    if n == 0 {
        GridAnswer {
            number: n,
            grid: new,
        }
    } else {
        GridAnswer {
            number: n,
            grid: given,
        }
    }
}

pub fn moved_answer(n: u8, given: Moved, new: Moved) -> MovedAnswer
    ensures { result ≡ moved_answer n given new }
{
    if n == 0 {
        MovedAnswer {
            number: n,
            moved: new,
        }
    } else {
        MovedAnswer {
            number: n,
            moved: given,
        }
    }
}

pub fn saved_answer(n: u8, given: Memory, new: Saved) -> SavedAnswer
    ensures { result ≡ saved_answer n given new }
{
    if n == 0 {
        return SavedAnswer {
            number: n,
            saved: new,
        };
    }
    let kept = Saved {
        memory: given,
        save: false,
    };
    SavedAnswer {
        number: n,
        saved: kept,
    }
}

// An entry that may not be there.
pub fn entry_answer(n: u8, there: bool, v: f32) -> Result<Option<f32>, u8>
    ensures { result ≡ entry_answer n there v }
{
    answer_by_number(n, there.then_some(v))
}
