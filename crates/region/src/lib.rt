// Direction and Region of egui's layout.rs, and what calls that change a state answer by numbers.
#![tactic(auto)]

use emath::Rect;

mod directions;
pub mod faults;
mod operations;
pub mod regions;

#[derive(Clone, Copy, PartialEq, Eq)]
pub enum Direction {
    LeftToRight,
    RightToLeft,
    TopDown,
    BottomUp,
}

#[derive(Clone, Copy)]
pub struct Region {
    pub min_rect: Rect,
    pub max_rect: Rect,
    pub cursor: Rect,
}

// A call that changes a state, by numbers as the rules have it: its number (0: none; any byte), and the state, the given one where it is
// refused.
#[derive(Clone, Copy)]
pub struct RegionAnswer {
    pub number: u8,
    pub region: Region,
}

#[derive(Clone, Copy)]
pub struct CursorAnswer {
    pub number: u8,
    pub cursor: Rect,
}
