// The faults of a cursor and a region (RULES 8.5), and what a call with such a fault answers (RULES 8.4), also by numbers.
ghost use Rattle.std.specs.Prelude.{◌≡◌};
ghost use Rattle.region.specs.declared.Region.{Region as Given};
ghost use Rattle.emath.specs.Refusals.{fault_number, answer, numbered};
ghost use Rattle.region.specs.Refusals.{zero_if_open, closed, cursor_fault, region_fault, region_answer, cursor_answer, region_outcome, zero_region};
ghost use Rattle.region.specs.Operations.{placed_number, changed_region};

use crate::{CursorAnswer, Direction, Region, RegionAnswer};
use emath::faults::{
    answer, answer_by_number, edges_fault, fault_number, first_of, or_else, outside,
    outside_domain, rect_fault,
};
use emath::{Rect, Refusal};

pub fn zero_if_open(outward: f32, edge: f32) -> f32
    ensures { result ≡ zero_if_open outward edge }
{
    if edge == outward { 0.0 } else { edge }
}

fn closed_cursor(main_dir: Direction, cursor: Rect) -> Rect
    ensures { result ≡ closed main_dir cursor }
{
    match main_dir {
        Direction::LeftToRight => Rect {
            right: zero_if_open(f32::INFINITY, cursor.right),
            ..cursor
        },
        Direction::RightToLeft => Rect {
            left: zero_if_open(f32::NEG_INFINITY, cursor.left),
            ..cursor
        },
        Direction::TopDown => Rect {
            bottom: zero_if_open(f32::INFINITY, cursor.bottom),
            ..cursor
        },
        Direction::BottomUp => Rect {
            top: zero_if_open(f32::NEG_INFINITY, cursor.top),
            ..cursor
        },
    }
}

pub fn cursor_fault(main_dir: Direction, cursor: Rect) -> Option<Refusal>
    ensures { fault_number result ≡ cursor_fault main_dir cursor }
{
    edges_fault(closed_cursor(main_dir, cursor))
}

pub fn region_fault(main_dir: Direction, region: Region) -> Option<Refusal>
    ensures { fault_number result ≡ region_fault main_dir region }
{
    first_of(
        rect_fault(region.min_rect),
        first_of(
            rect_fault(region.max_rect),
            cursor_fault(main_dir, region.cursor),
        ),
    )
}

pub fn region_answer(n: u8, given: Region, new: Region) -> RegionAnswer
    ensures { result ≡ region_answer n given new }
{
    if n == 0 {
        RegionAnswer {
            number: n,
            region: new,
        }
    } else {
        RegionAnswer {
            number: n,
            region: given,
        }
    }
}

pub fn cursor_answer(n: u8, given: Rect, new: Rect) -> CursorAnswer
    ensures { result ≡ cursor_answer n given new }
{
    if n == 0 {
        CursorAnswer {
            number: n,
            cursor: new,
        }
    } else {
        CursorAnswer {
            number: n,
            cursor: given,
        }
    }
}

// `before` is the arguments' number.
pub fn placed_rect(before: u8, r: Rect) -> Result<Rect, u8>
    ensures { result ≡ answer (placed_number before r) r }
{
    let after = outside_domain(fault_number(edges_fault(r)));
    answer_by_number(or_else(before, after), r)
}

// The same by the fault.
pub fn placed(before: Option<Refusal>, r: Rect) -> Result<Rect, Refusal>
    ensures { numbered result ≡ answer (placed_number (fault_number before) r) r }
{
    answer(before.or(outside(edges_fault(r))), r)
}

// `before` is the arguments' number.
pub fn changed_region(main_dir: Direction, before: u8, given: Region, new: Region) -> RegionAnswer
    ensures { result ≡ changed_region main_dir before given new }
{
    let after = outside_domain(fault_number(region_fault(main_dir, new)));
    region_answer(or_else(before, after), given, new)
}

// The same by the fault.
pub fn changed(main_dir: Direction, before: Option<Refusal>, new: Region) -> Result<Region, Refusal>
    ensures { (given : Given) → region_outcome given result ≡ changed_region main_dir (fault_number before) given new }
{
    answer(before.or(outside(region_fault(main_dir, new))), new)
}

// What a call without a given region answers when it is refused.
pub fn zero_region() -> Region
    ensures { result ≡ zero_region }
{
    Region {
        min_rect: Rect::ZERO,
        max_rect: Rect::ZERO,
        cursor: Rect::ZERO,
    }
}
