// egui's layout.rs: Layout (RULES 2).
// The unchecked rules are total functions, in `available`, `frames`, `widgets` and `cursors`; `operations` holds the public calls, which
// refuse by RULES 8.15 with the numbers of `region::faults`.
#![tactic(auto)]

use emath::Align;
use region::Direction;

pub mod available;
mod constructors;
pub mod cursors;
pub mod frames;
mod inspectors;
mod operations;
pub mod widgets;

#[derive(Clone, Copy)]
pub struct Layout {
    pub main_dir: Direction,
    pub main_wrap: bool,
    pub main_align: Align,
    pub main_justify: bool,
    pub cross_align: Align,
    pub cross_justify: bool,
}
