// A plate's drawing, from bytes to bytes: a text of SVG that is made of the plate's printed list.
#![tactic(auto)]

mod controls;
mod elements;
mod lists;
mod millimetres;
mod pages;
pub mod picture;
mod rows;
mod sections;
mod writing;

// More than any drawing has.
pub const MAX_DRAWING: usize = 300000;

// How many lines the list has, the plate's size in ticks, and how the picture is ruled: cut into bands across the longer side, each of
// `step` ticks, where `unit` ticks are as long as the picture; `pitch` is the way from band to band on the page. RULES 7.10 is over these
// fields, the flags `wide` and `large` among them.
#[derive(Clone, Copy)]
pub struct Page {
    pub widgets: usize,
    pub columns: usize,
    pub rows: usize,
    pub width: usize,
    pub height: usize,
    pub wide: bool,
    pub bands: usize,
    pub step: usize,
    pub unit: usize,
    pub large: bool,
    pub pitch: usize,
}

// What is drawn for each line, or for each band.
#[derive(Clone, Copy)]
pub enum Layer {
    ColumnLines,
    RowLines,
    Outlines,
    Windows,
    Captions,
    Labels,
    WidgetRows,
    ColumnRows,
    RowRows,
}

// What two controls may have in common: their column's edges, their row's, or the place of their labels.
#[derive(Clone, Copy)]
pub enum Shared {
    Column,
    Row,
    Place,
}
