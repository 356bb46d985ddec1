// One pass over a sheet's text (RULES 6.12 to 6.20): the call, `passing::pass`, and what it is made of.
#![tactic(auto)]

use emath::Rect;
use grid::Memory;
use placer::PassState;
use records::SheetRefusal;

pub mod cells;
mod outcomes;
pub mod passing;
mod plate;
mod steps;
mod walk;

// A W's rectangles.
#[derive(Clone, Copy)]
pub struct Cell {
    pub frame: Rect,
    pub widget: Rect,
}

// What a record gives: the state after it, and a W's rectangles.
#[derive(Clone, Copy)]
pub struct Stepped {
    pub state: PassState,
    pub cell: Option<Cell>,
}

// What a run comes to: the state after it, and the plate.
#[derive(Clone, Copy)]
pub struct Ran {
    pub state: PassState,
    pub plate: Rect,
}

// What a pass gives. Where it is refused the plate is all zero, and the memory is the one given (RULES 8.19): so it is no Result.
#[derive(Clone, Copy)]
pub struct Passed {
    pub laid: Result<(), SheetRefusal>,
    pub plate: Rect,
    pub memory: Memory,
    pub save: bool,
}
