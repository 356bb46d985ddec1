// A sheet's records (RULES 6.5 to 6.11, 6.24): what the text of each says, and the checks over a whole sheet (RULES 8.6 to 8.8).
#![tactic(auto)]

use emath::{Rect, Refusal, Vec2};
use layout::Layout;

mod grids;
pub mod headings;
mod layouts;
mod parts;
pub mod records;
pub mod sheets;
pub mod size_cache;
mod units;

// The greatest magnitude of a length, as its field has it.
pub const LIMIT: u32 = 2097152;

pub const MAX_RECORDS: usize = 512;

// The cache of W sizes: two places for each record, from record 1 on; place 0 and place 513 stay free.
pub const CACHE_LEN: usize = 1026;

pub type SizeCache = [f32; CACHE_LEN];

// What G says.
#[derive(Clone, Copy)]
pub struct GridOptions {
    pub min_cell_size: Vec2,
    // Each may be +infinity.
    pub max_cell_size: Vec2,
    // 0: not named.
    pub num_columns: usize,
    pub start_row: usize,
}

// What the fields of a W are in.
#[derive(Clone, Copy)]
pub enum SizeUnit {
    // Steps of the sheet, as all its other lengths.
    Steps,
    // Hundredths of a millimetre.
    Hundredths,
}

// What comes before the first step: H, and M and G where they are there.
#[derive(Clone, Copy)]
pub struct Heading {
    pub layout: Layout,
    pub max_rect: Rect,
    pub spacing: Vec2,
    pub unit: SizeUnit,
    pub has_grid: bool,
    // No Option: `heading_in` has zeros here without a G (RULES 6.11).
    pub options: GridOptions,
    // How many records that is, and where the next one begins.
    pub records: usize,
    pub next: usize,
}

// Lengths are in points.
#[derive(Clone, Copy)]
pub enum Step {
    Widget(f32, f32),
    Space(f32),
    RowHeight(f32),
    MaxWidth(f32),
    MaxHeight(f32),
    MinWidth(f32),
    MinHeight(f32),
    RowEnd,
}

// A field that holds a length, in points. Three cases, and neither an Option nor a Result: a blank is well formed where it is a maximum, and
// malformed elsewhere (RULES 6.6, 6.9).
#[derive(Clone, Copy)]
pub enum Length {
    Points(f32),
    Blank,
    Wrong,
}

// Of an accepted sheet: how many records, and how many of them are W.
#[derive(Clone, Copy)]
pub struct Counts {
    pub records: usize,
    pub widgets: usize,
}

// Why a sheet is refused, and at which record, from 1.
#[derive(Clone, Copy)]
pub struct SheetRefusal {
    pub refusal: Refusal,
    pub record: usize,
}
