// egui's placer.rs (RULES 4): a layout or a grid, with the region that it fills.
// The unchecked rules are total functions, in `rules` and `limits`; `operations` holds the public calls, which refuse by RULES 8.17 with
// the faults of `faults`.
#![tactic(auto)]

use grid::{GridLayout, GridSettings, GridState};
use layout::Layout;
use region::Region;

pub mod calls;
pub mod faults;
mod inspectors;
pub mod lent;
pub mod limits;
mod operations;
pub mod rules;

#[derive(Clone, Copy)]
pub struct Placer {
    // Whether there is a grid, which then takes precedence over the layout. No Option: `grid` and a refused `save_grid` answer what stands
    // here without one too (RULES 8.17).
    pub has_grid: bool,
    pub grid: GridLayout,
    pub layout: Layout,
    pub region: Region,
}

// A call that changes a placer, by numbers as the rules have it: its number (0: none; any byte), and the placer, the given one where it is
// refused.
#[derive(Clone, Copy)]
pub struct PlacerAnswer {
    pub number: u8,
    pub placer: Placer,
}

// What a pass leaves as it is of a placer, without the arrays of its grid's memories, which are lent beside it.
#[derive(Clone, Copy)]
pub struct PlacerSettings {
    pub has_grid: bool,
    pub grid: GridSettings,
    pub layout: Layout,
}

// What a pass carries from record to record.
#[derive(Clone, Copy)]
pub struct PassState {
    pub region: Region,
    pub grid: GridState,
}
