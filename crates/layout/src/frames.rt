// Where the next frame goes: next_frame, with and without wrap.
ghost use Rattle.std.specs.Prelude.{◌≡◌, ◌&&◌};
ghost use Rattle.emath.specs.Steps.{tick};
ghost use Rattle.layout.specs.Rules.{overflows, new_row, new_column, new_cursor, reaching, new_region, next_frame, fills_width, fills_height, frame_width, frame_height, frame_align2, moved_down, frame_rect, next_frame_ignore_wrap};

use crate::Layout;
use crate::available::available_rect_before_wrap;
use emath::num::max;
use emath::{Align, Align2, Rangef, Rect, Vec2};
use region::{Direction, Region};

// The child is longer than what is left, and the cursor has moved on from the starting edge.
fn overflows_main(main_dir: Direction, available: Rect, region: Region, child_size: Vec2) -> bool
    ensures { result ≡ overflows main_dir available region child_size }
{
    let m = region.max_rect;
    let c = region.cursor;
    match main_dir {
        Direction::LeftToRight => (available.right - available.left < child_size.x)
            & (m.left < c.left),
        Direction::RightToLeft => (available.right - available.left < child_size.x)
            & (c.right < m.right),
        Direction::TopDown => (available.bottom - available.top < child_size.y) & (m.top < c.top),
        Direction::BottomUp => (available.bottom - available.top < child_size.y)
            & (c.bottom < m.bottom),
    }
}

// From min_rect's bottom and not the cursor's: tighter packing. A row and a column stay two, as in egui: over an axis, each of their fields
// would take a choice.
fn new_row(region: Region, child_size: Vec2, spacing: Vec2) -> Rangef
    ensures { result ≡ new_row region child_size spacing }
{
    let new_top = region.min_rect.bottom + spacing.y;
    let new_row_height = max(region.cursor.height(), child_size.y);
    Rangef {
        min: new_top,
        max: new_top + new_row_height,
    }
}

fn new_column(region: Region, child_size: Vec2, spacing: Vec2) -> Rangef
    ensures { result ≡ new_column region child_size spacing }
{
    let new_left = region.cursor.right + spacing.x;
    let new_col_width = max(region.cursor.width(), child_size.x);
    Rangef {
        min: new_left,
        max: new_left + new_col_width,
    }
}

fn new_cursor(main_dir: Direction, region: Region, child_size: Vec2, spacing: Vec2) -> Rect
    ensures { result ≡ new_cursor main_dir region child_size spacing }
{
    let m = region.max_rect;
    let row = new_row(region, child_size, spacing);
    let column = new_column(region, child_size, spacing);
    match main_dir {
        Direction::LeftToRight => Rect {
            left: m.left,
            top: row.min,
            right: f32::INFINITY,
            bottom: row.max,
        },
        Direction::RightToLeft => Rect {
            left: f32::NEG_INFINITY,
            top: row.min,
            right: m.right,
            bottom: row.max,
        },
        Direction::TopDown => Rect {
            left: column.min,
            top: m.top,
            right: column.max,
            bottom: f32::INFINITY,
        },
        Direction::BottomUp => Rect {
            left: column.min,
            top: f32::NEG_INFINITY,
            right: column.max,
            bottom: m.bottom,
        },
    }
}

fn reaching_to(horizontal: bool, max_rect: Rect, cursor: Rect) -> Rect
    ensures { result ≡ reaching horizontal max_rect cursor }
{
    let mut m = max_rect;
    if horizontal {
        m.bottom = max(m.bottom, cursor.bottom);
    } else {
        m.right = max(m.right, cursor.right);
    }
    m
}

// The region at the start of a new row or column.
fn new_region(main_dir: Direction, region: Region, child_size: Vec2, spacing: Vec2) -> Region
    ensures { result ≡ new_region main_dir region child_size spacing }
{
    let cursor = new_cursor(main_dir, region, child_size, spacing);
    Region {
        max_rect: reaching_to(main_dir.is_horizontal(), region.max_rect, cursor),
        cursor,
        ..region
    }
}

// The child is too long for what is left, in a layout that wraps.
fn is_wrapping(layout: Layout, available: Rect, region: Region, child_size: Vec2) -> bool
    ensures { result ≡ layout.main_wrap && overflows layout.main_dir available region child_size }
{
    layout.main_wrap & overflows_main(layout.main_dir, available, region, child_size)
}

// What is left is worked out once, where nothing wraps.
pub fn next_frame(layout: Layout, region: Region, child_size: Vec2, spacing: Vec2) -> Rect
    ensures { result ≡ next_frame tick layout region child_size spacing }
{
    let available = available_rect_before_wrap(layout.main_dir, region);
    if is_wrapping(layout, available, region, child_size) {
        let g = new_region(layout.main_dir, region, child_size, spacing);
        next_frame_ignore_wrap(layout, g, child_size)
    } else {
        frame_rect(layout, region.cursor, available, child_size).round_ui()
    }
}

fn fills_width(layout: Layout) -> bool
    ensures { result ≡ fills_width layout }
{
    (layout.is_vertical() & (layout.horizontal_align() == Align::Center))
        | layout.horizontal_justify()
}

fn fills_height(layout: Layout) -> bool
    ensures { result ≡ fills_height layout }
{
    (layout.is_horizontal() & (layout.vertical_align() == Align::Center))
        | layout.vertical_justify()
}

// With wrap, the current column's width and not the layout's.
fn frame_width(layout: Layout, cursor: Rect, available: Rect, width: f32) -> f32
    ensures { result ≡ frame_width layout cursor available width }
{
    if fills_width(layout) {
        if layout.main_wrap {
            return max(width, cursor.width());
        }
        return max(width, available.width());
    }
    width
}

// With wrap, the current row's height and not the layout's.
fn frame_height(layout: Layout, cursor: Rect, available: Rect, height: f32) -> f32
    ensures { result ≡ frame_height layout cursor available height }
{
    if fills_height(layout) {
        if layout.main_wrap {
            return max(height, cursor.height());
        }
        return max(height, available.height());
    }
    height
}

// At the starting edge on the main axis.
fn frame_align2(main_dir: Direction, a: Align2) -> Align2
    ensures { result ≡ frame_align2 main_dir a }
{
    match main_dir {
        Direction::LeftToRight => a.with_x(Align::LEFT),
        Direction::RightToLeft => a.with_x(Align::RIGHT),
        Direction::TopDown => a.with_y(Align::TOP),
        Direction::BottomUp => a.with_y(Align::BOTTOM),
    }
}

// A horizontal layout expands down, or it would overlap the row above.
fn moved_down(horizontal: bool, frame: Rect, cursor: Rect) -> Rect
    ensures { result ≡ moved_down horizontal frame cursor }
{
    if horizontal & (frame.top < cursor.top) {
        let down = Vec2 {
            x: 0.0,
            y: cursor.top - frame.top,
        };
        frame.translate(down)
    } else {
        frame
    }
}

fn frame_rect(layout: Layout, cursor: Rect, available: Rect, child_size: Vec2) -> Rect
    ensures { result ≡ frame_rect layout cursor available child_size }
{
    let frame_size = Vec2 {
        x: frame_width(layout, cursor, available, child_size.x),
        y: frame_height(layout, cursor, available, child_size.y),
    };
    let align2 = frame_align2(layout.main_dir, layout.align2());
    let frame = align2.align_size_within_rect(frame_size, available);
    moved_down(layout.is_horizontal(), frame, cursor)
}

pub fn next_frame_ignore_wrap(layout: Layout, region: Region, child_size: Vec2) -> Rect
    ensures { result ≡ next_frame_ignore_wrap tick layout region child_size }
{
    let available = available_rect_before_wrap(layout.main_dir, region);
    frame_rect(layout, region.cursor, available, child_size).round_ui()
}
