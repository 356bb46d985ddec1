// Where things stand on the page.
ghost use Rattle.std.specs.Prelude.{◌≡◌, ◌+◌, ◌*◌, ◌/◌, ◌%◌, ◌≤◌, ◌<◌, max, min};
ghost use Rattle.drawing.specs.Pages.{bands_from, size_of, scaled as scaled_by, cut as cut_into, ruled as ruled_by, page_for, InBounds, px as px_of, thickness as thickness_of, bottom as bottom_of, page_width, per_column, row_across, row_down, page_height, bar_from};

use crate::Page;
use crate::lists::{CELL_SIZE, CONTROL_SIZE, Line, PLATE_SIZE, count_lines};

// The picture's corner, and the way from it to the next thing.
pub const LEFT: usize = 60;

pub const TOP: usize = 108;

const GAP: usize = 40;

// A row of the list below it.
const ROW_WIDTH: usize = 500;

const ROW_HEIGHT: usize = 14;

const MAX_COLUMNS: usize = 32;

const MAX_ROWS: usize = 128;

// A list with its page, no number of which is too large to reckon with.
#[derive(Clone, Copy)]
pub struct Plate<'a> {
    pub page: Page,
    pub list: &'a [u8],
    ghost in_bounds: { InBounds page },
}

// The most bands, at most n, that leave the picture no higher than wide.
fn bands_from(n: usize, long: usize, short: usize) -> usize
    requires { (n ≤ 22) × (short ≤ 20000000) }
    ensures { (result ≡ bands_from n long short) × (0 < result) × (result ≤ 22) }
{
    for k in (1..=n).rev() {
        if k * k * short <= long {
            return k;
        }
    }
    1
}

pub fn size_of(large: bool) -> usize
    ensures { (result ≡ size_of large) × (800 ≤ result) × (result ≤ 1600) }
{
    if large { 1600 } else { 800 }
}

#[tactic(auto, unfolding(crate::specs::Pages::scaled))]
fn scaled(large: bool, unit: usize, d: usize) -> usize
    requires { d ≤ 20000000 }
    ensures { (result ≡ scaled_by large unit d) × (result ≤ 32000000000) }
{
    (d * size_of(large)).checked_div(unit).unwrap_or(0)
}

#[tactic(auto, unfolding(crate::specs::Pages::cut))]
fn cut(
    widgets: usize,
    columns: usize,
    rows: usize,
    width: usize,
    height: usize,
    bands: usize,
) -> Page
    requires { (width ≤ 20000000) × (height ≤ 20000000) × (0 < bands) }
    ensures { result ≡ cut_into widgets columns rows width height bands }
{
    let step = width.max(height) / bands + 1;
    let unit = step.max(32);
    let large = 96 < widgets;
    let pitch = scaled(large, unit, width.min(height)) + GAP;
    Page {
        widgets,
        columns,
        rows,
        width,
        height,
        wide: height <= width,
        bands,
        step,
        unit,
        large,
        pitch,
    }
}

fn ruled(widgets: usize, columns: usize, rows: usize, width: usize, height: usize) -> Page
    requires { (widgets ≤ 512) × (columns ≤ 32) × (rows ≤ 128) × (width ≤ 20000000) × (height ≤ 20000000) }
    ensures { (result ≡ ruled_by widgets columns rows width height) × InBounds result }
{
    let long = width.max(height);
    let short = width.min(height);
    // One for each 24 controls.
    let bands = bands_from((widgets + 23) / 24, long, short.max(1));
    cut(widgets, columns, rows, width, height, bands)
}

impl<'a> Plate<'a> {
    // Of a list with so many W lines.
    #[tactic(auto, unfolding(crate::specs::Pages::page_for, crate::specs::Pages::columns_of, crate::specs::Pages::rows_of))]
    pub fn new(list: &'a [u8], widgets: usize) -> Plate<'a>
        requires { widgets ≤ 512 }
        ensures { (result.page ≡ page_for list.now widgets) × (result.list.now ≡ list.now) }
    {
        let line = Line {
            list,
            at: CONTROL_SIZE * widgets,
        };
        let from = line.at + PLATE_SIZE;
        let columns = count_lines(list, from, b'C', CELL_SIZE, MAX_COLUMNS);
        let rows = count_lines(list, from + CELL_SIZE * columns, b'D', CELL_SIZE, MAX_ROWS);
        let page = ruled(widgets, columns, rows, line.span(0, 2), line.span(1, 3));
        Plate { page, list }
    }

    // W line k.
    pub fn line(&self, k: usize) -> Line<'a>
        requires { k ≤ 512 }
        ensures { (result.list.now ≡ self.now.list.now) × (result.at ≡ 74 * k) }
    {
        Line {
            list: self.list,
            at: CONTROL_SIZE * k,
        }
    }

    // The P line, which comes after them.
    pub fn own_line(&self) -> Line<'a>
        ensures { (result.list.now ≡ self.now.list.now) × (result.at ≡ 74 * self.now.page.widgets) }
    {
        self.line(self.page.widgets)
    }

    // Line k of those of the columns and the rows.
    pub fn cell_line(&self, k: usize) -> Line<'a>
        requires { k ≤ 1000 }
        ensures { (result.list.now ≡ self.now.list.now) × (result.at ≡ 74 * self.now.page.widgets + 34 + 18 * k) }
    {
        Line {
            list: self.list,
            at: CONTROL_SIZE * self.page.widgets + PLATE_SIZE + CELL_SIZE * k,
        }
    }

    pub fn px(&self, d: usize) -> usize
        requires { d ≤ 20000000 }
        ensures { (result ≡ px_of self.now.page d) × (result ≤ 32000000000) }
    {
        scaled(self.page.large, self.page.unit, d)
    }

    #[tactic(auto, unfolding(crate::specs::Pages::thickness))]
    pub fn thickness(&self) -> usize
        ensures { (result ≡ thickness_of self.now.page) × (result ≤ 20000001000) }
    {
        self.page.unit * 1000 / size_of(self.page.large)
    }

    #[tactic(auto, unfolding(crate::specs::Pages::bottom))]
    pub fn bottom(&self) -> usize
        ensures { (result ≡ bottom_of self.now.page) × (108 ≤ result) × (result ≤ 640000000800000108) }
    {
        if self.page.wide {
            return TOP + self.page.bands * self.page.pitch;
        }
        TOP + self.px(self.page.height.min(self.page.step)) + GAP
    }

    #[tactic(auto, unfolding(crate::specs::Pages::page_width))]
    pub fn page_width(&self) -> usize
        ensures { result ≡ page_width self.now.page }
    {
        let size = size_of(self.page.large);
        if self.page.wide {
            return size + 240;
        }
        size.max(self.page.bands * self.page.pitch) + 240
    }

    #[tactic(auto, unfolding(crate::specs::Pages::per_column))]
    fn per_column(&self) -> usize
        ensures { (result ≡ per_column self.now.page) × (0 < result) × (result ≤ 400) }
    {
        (self.page.widgets + self.page.columns + self.page.rows + 2) / 2
    }

    #[tactic(auto, unfolding(crate::specs::Pages::row_across))]
    pub fn row_across(&self, i: usize) -> usize
        requires { i ≤ 2000 }
        ensures { result ≡ row_across self.now.page i }
    {
        GAP + ROW_WIDTH * (i / self.per_column())
    }

    #[tactic(auto, unfolding(crate::specs::Pages::row_down))]
    pub fn row_down(&self, i: usize) -> usize
        ensures { result ≡ row_down self.now.page i }
    {
        self.bottom() + 72 + ROW_HEIGHT * (i % self.per_column())
    }

    #[tactic(auto, unfolding(crate::specs::Pages::page_height))]
    pub fn page_height(&self) -> usize
        ensures { result ≡ page_height self.now.page }
    {
        self.bottom() + 100 + ROW_HEIGHT * self.per_column()
    }
}

// How many ticks the scale shows.
pub fn bar_of(unit: usize) -> usize
    ensures { (result ≡ bar_from 21 2097152 unit) × (result ≤ 2097152) }
{
    let mut bar: usize = 2097152;
    for _ in 0..21usize {
        if 3 * bar <= unit {
            return bar;
        }
        bar /= 2;
    }
    bar
}
