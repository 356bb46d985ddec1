// The arithmetic under everything else (RULES 1): rectangles by value, and the tests and numbers of the domain (RULES 5, 8).
// Names are those of egui's crate emath.
#![tactic(auto)]

mod aligning;
pub mod domain;
pub mod faults;
pub mod gui_rounding;
pub mod num;
mod rects;
pub mod unions;

// A size or a shift, and a place: two types, as in egui, though their fields are the same.
#[derive(Clone, Copy)]
pub struct Vec2 {
    pub x: f32,
    pub y: f32,
}

#[derive(Clone, Copy)]
pub struct Pos2 {
    pub x: f32,
    pub y: f32,
}

// y grows downward.
#[derive(Clone, Copy)]
pub struct Rect {
    pub left: f32,
    pub top: f32,
    pub right: f32,
    pub bottom: f32,
}

// One axis of a rectangle.
#[derive(Clone, Copy)]
pub struct Rangef {
    pub min: f32,
    pub max: f32,
}

#[derive(Clone, Copy, PartialEq, Eq)]
pub enum Align {
    Min,
    Center,
    Max,
}

// Across, and down.
#[derive(Clone, Copy)]
pub struct Align2 {
    pub x: Align,
    pub y: Align,
}

// RULES 8.1: why a call or a sheet is refused, in the order in which the reasons are looked for.
#[derive(Clone, Copy, PartialEq, Eq, PartialOrd, Ord)]
pub enum Refusal {
    Malformed = 1,
    TooLong,
    NoRoom,
    NotFinite,
    TooFar,
    Negative,
    NotInGrid,
    GridFull,
    Outside,
}

// RULES 1.2: a tick is 1/32 point.
pub const TICK: f32 = 0.03125;

pub const TICKS_PER_POINT: f32 = 1.0 / TICK;

// No length is of greater magnitude, in points.
pub const LIMIT: f32 = 65536.0;
