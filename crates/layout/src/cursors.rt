// How the cursor moves: advance_cursor, advance_after_rects, end_row, set_row_height.
ghost use Rattle.std.specs.Prelude.{◌≡◌};
ghost use Rattle.layout.specs.Rules.{advance_cursor, row_started, stays_in_row, grown_across, row_for, past_widget, advance_after_rects, next_row, end_row, set_row_height};

use crate::Layout;
use emath::num::{max, min};
use emath::{Rect, Vec2};
use region::regions::{expand_to_include_x, expand_to_include_y, with_cursor};
use region::{Direction, Region};

pub fn advance_cursor(main_dir: Direction, region: Region, amount: f32) -> Region
    ensures { result ≡ advance_cursor main_dir region amount }
{
    let mut c = region.cursor;
    match main_dir {
        Direction::LeftToRight => {
            let x = c.left + amount;
            c.left = x;
            expand_to_include_x(with_cursor(region, c), x)
        }
        Direction::RightToLeft => {
            let x = c.right - amount;
            c.right = x;
            expand_to_include_x(with_cursor(region, c), x)
        }
        Direction::TopDown => {
            let y = c.top + amount;
            c.top = y;
            expand_to_include_y(with_cursor(region, c), y)
        }
        Direction::BottomUp => {
            let y = c.bottom - amount;
            c.bottom = y;
            expand_to_include_y(with_cursor(region, c), y)
        }
    }
}

// A new row or column. Its starting edge is a placeholder that the caller sets.
fn row_started(main_dir: Direction, frame: Rect) -> Rect
    ensures { result ≡ row_started main_dir frame }
{
    let unset = f32::NAN;
    match main_dir {
        Direction::LeftToRight => Rect {
            left: unset,
            top: frame.top,
            right: f32::INFINITY,
            bottom: frame.bottom,
        },
        Direction::RightToLeft => Rect {
            left: f32::NEG_INFINITY,
            top: frame.top,
            right: unset,
            bottom: frame.bottom,
        },
        Direction::TopDown => Rect {
            left: frame.left,
            top: unset,
            right: frame.right,
            bottom: f32::INFINITY,
        },
        Direction::BottomUp => Rect {
            left: frame.left,
            top: f32::NEG_INFINITY,
            right: frame.right,
            bottom: unset,
        },
    }
}

fn stays_in_row(cursor: Rect, frame: Rect) -> bool
    ensures { result ≡ stays_in_row cursor frame }
{
    cursor.intersects(frame.shrink(1.0))
}

// Without wrap: the cursor with the frame across.
fn grown_across(horizontal: bool, cursor: Rect, frame: Rect) -> Rect
    ensures { result ≡ grown_across horizontal cursor frame }
{
    let mut c = cursor;
    if horizontal {
        c.top = min(c.top, frame.top);
        c.bottom = max(c.bottom, frame.bottom);
    } else {
        c.left = min(c.left, frame.left);
        c.right = max(c.right, frame.right);
    }
    c
}

fn row_for(layout: Layout, cursor: Rect, frame: Rect) -> Rect
    ensures { result ≡ row_for layout cursor frame }
{
    if layout.main_wrap {
        if stays_in_row(cursor, frame) {
            cursor.union(frame)
        } else {
            row_started(layout.main_dir, frame)
        }
    } else {
        grown_across(layout.is_horizontal(), cursor, frame)
    }
}

fn past_widget(main_dir: Direction, cursor: Rect, widget: Rect, spacing: Vec2) -> Rect
    ensures { result ≡ past_widget main_dir cursor widget spacing }
{
    match main_dir {
        Direction::LeftToRight => Rect {
            left: widget.right + spacing.x,
            ..cursor
        },
        Direction::RightToLeft => Rect {
            right: widget.left - spacing.x,
            ..cursor
        },
        Direction::TopDown => Rect {
            top: widget.bottom + spacing.y,
            ..cursor
        },
        Direction::BottomUp => Rect {
            bottom: widget.top - spacing.y,
            ..cursor
        },
    }
}

pub fn advance_after_rects(
    layout: Layout,
    cursor: Rect,
    frame: Rect,
    widget: Rect,
    spacing: Vec2,
) -> Rect
    ensures { result ≡ advance_after_rects layout cursor frame widget spacing }
{
    past_widget(
        layout.main_dir,
        row_for(layout, cursor, frame),
        widget,
        spacing,
    )
}

fn next_row(main_dir: Direction, region: Region, spacing: Vec2) -> Region
    ensures { result ≡ next_row main_dir region spacing }
{
    let m = region.max_rect;
    let new_top = region.cursor.bottom + spacing.y;
    match main_dir {
        Direction::LeftToRight => {
            let c = Rect {
                left: m.left,
                top: new_top,
                right: f32::INFINITY,
                bottom: new_top,
            };
            with_cursor(region, c)
        }
        Direction::RightToLeft => {
            let c = Rect {
                left: f32::NEG_INFINITY,
                top: new_top,
                right: m.right,
                bottom: new_top,
            };
            with_cursor(region, c)
        }
        Direction::TopDown | Direction::BottomUp => region,
    }
}

pub fn end_row(layout: Layout, region: Region, spacing: Vec2) -> Region
    ensures { result ≡ end_row layout region spacing }
{
    if layout.main_wrap {
        next_row(layout.main_dir, region, spacing)
    } else {
        region
    }
}

pub fn set_row_height(layout: Layout, region: Region, height: f32) -> Region
    ensures { result ≡ set_row_height layout region height }
{
    let mut c = region.cursor;
    c.bottom = c.top + height;
    if layout.main_wrap & layout.is_horizontal() {
        with_cursor(region, c)
    } else {
        region
    }
}
