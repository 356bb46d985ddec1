// The faults of a placer (RULES 8.5, 8.12), and what a call with such a fault answers (RULES 8.4), also by numbers.
ghost use Rattle.std.specs.Prelude.{◌≡◌, ◌&&◌, [], ◌∷◌, leb};
ghost use Rattle.emath.specs.Numbers as number;
ghost use Rattle.emath.specs.Refusals.{when, least, fault_number};
ghost use Rattle.placer.specs.declared.Placer.{Placer as Given};
ghost use Rattle.placer.specs.Refusals.{grid_part, placer_fault, advance_fault, end_row_fault, zero_placer, placer_answer, placer_outcome, changed_placer};

use crate::{Placer, PlacerAnswer};
use emath::Refusal;
use emath::faults::{answer, fault_number, first_of, or_else, outside, outside_domain};
use grid::faults::{direction_fault, grid_fault};
use grid::grids::empty_grid;
use grid::{MAX_COLS, MAX_ROWS};
use layout::Layout;
use region::faults::{region_fault, zero_region};

// The grid's share of the state's fault.
fn grid_part(placer: Placer) -> Option<Refusal>
    ensures { fault_number result ≡ grid_part placer }
{
    if placer.has_grid {
        return first_of(
            grid_fault(placer.grid),
            direction_fault(placer.layout.main_dir),
        );
    }
    None
}

pub fn placer_fault(placer: Placer) -> Option<Refusal>
    ensures { fault_number result ≡ placer_fault placer }
{
    first_of(
        region_fault(placer.layout.main_dir, placer.region),
        grid_part(placer),
    )
}

// No room for a cell, or for a row.
pub fn cell_fault(has_grid: bool, col: usize, row: usize) -> Option<Refusal>
    ensures { fault_number result ≡ least (when (has_grid && leb 32 col) number.grid_full ∷ when (has_grid && leb 128 row) number.grid_full ∷ []) }
{
    first_of(
        (has_grid & (MAX_COLS <= col)).then_some(Refusal::GridFull),
        row_fault(has_grid, row),
    )
}

pub fn row_fault(has_grid: bool, row: usize) -> Option<Refusal>
    ensures { fault_number result ≡ when (has_grid && leb 128 row) number.grid_full }
{
    (has_grid & (MAX_ROWS <= row)).then_some(Refusal::GridFull)
}

pub fn advance_fault(placer: Placer) -> Option<Refusal>
    ensures { fault_number result ≡ advance_fault placer }
{
    cell_fault(placer.has_grid, placer.grid.col, placer.grid.row)
}

pub fn end_row_fault(placer: Placer) -> Option<Refusal>
    ensures { fault_number result ≡ end_row_fault placer }
{
    row_fault(placer.has_grid, placer.grid.row)
}

// What `new` answers when it is refused.
pub fn zero_placer(layout: Layout) -> Placer
    ensures { result ≡ zero_placer layout }
{
    Placer {
        has_grid: false,
        grid: empty_grid(),
        layout,
        region: zero_region(),
    }
}

pub fn placer_answer(n: u8, given: Placer, new: Placer) -> PlacerAnswer
    ensures { result ≡ placer_answer n given new }
{
    if n == 0 {
        PlacerAnswer {
            number: n,
            placer: new,
        }
    } else {
        PlacerAnswer {
            number: n,
            placer: given,
        }
    }
}

// `before` is the arguments' number.
pub fn changed_placer(before: u8, given: Placer, new: Placer) -> PlacerAnswer
    ensures { result ≡ changed_placer before given new }
{
    let after = outside_domain(fault_number(placer_fault(new)));
    placer_answer(or_else(before, after), given, new)
}

// The same by the fault.
pub fn changed(before: Option<Refusal>, new: Placer) -> Result<Placer, Refusal>
    ensures { (given : Given) → placer_outcome given result ≡ changed_placer (fault_number before) given new }
{
    answer(before.or(outside(placer_fault(new))), new)
}
