// Where there is room: initial_cursor, available_from_cursor_max_rect, available_size.
ghost use Rattle.std.specs.Prelude.{◌≡◌};
ghost use Rattle.layout.specs.Rules.{initial_cursor, from_cursor, not_negative, not_negative_rect, available_from_cursor_max_rect, available_rect_before_wrap, available_size};

use crate::Layout;
use emath::num::{fast_midpoint, max, min};
use emath::{Rangef, Rect, Vec2};
use region::{Direction, Region};

pub fn initial_cursor(main_dir: Direction, max_rect: Rect) -> Rect
    ensures { result ≡ initial_cursor main_dir max_rect }
{
    match main_dir {
        Direction::LeftToRight => Rect {
            right: f32::INFINITY,
            ..max_rect
        },
        Direction::RightToLeft => Rect {
            left: f32::NEG_INFINITY,
            ..max_rect
        },
        Direction::TopDown => Rect {
            bottom: f32::INFINITY,
            ..max_rect
        },
        Direction::BottomUp => Rect {
            top: f32::NEG_INFINITY,
            ..max_rect
        },
    }
}

// max_rect from the cursor on, not inside out.
fn from_cursor(main_dir: Direction, cursor: Rect, max_rect: Rect) -> Rect
    ensures { result ≡ from_cursor main_dir cursor max_rect }
{
    match main_dir {
        Direction::LeftToRight => Rect {
            left: cursor.left,
            top: max_rect.top,
            right: max(max(max_rect.right, cursor.left), cursor.left),
            bottom: max(max_rect.bottom, max_rect.top),
        },
        Direction::RightToLeft => Rect {
            left: min(min(max_rect.left, cursor.right), cursor.right),
            top: max_rect.top,
            right: cursor.right,
            bottom: max(max_rect.bottom, max_rect.top),
        },
        Direction::TopDown => Rect {
            left: max_rect.left,
            top: cursor.top,
            right: max(max_rect.right, max_rect.left),
            bottom: max(max(max_rect.bottom, cursor.top), cursor.top),
        },
        Direction::BottomUp => Rect {
            left: max_rect.left,
            top: min(min(max_rect.top, cursor.bottom), cursor.bottom),
            right: max(max_rect.right, max_rect.left),
            bottom: cursor.bottom,
        },
    }
}

fn not_negative(low: f32, high: f32) -> Rangef
    ensures { result ≡ not_negative low high }
{
    if high < low {
        let x = fast_midpoint(low, high);
        Rangef { min: x, max: x }
    } else {
        Rangef {
            min: low,
            max: high,
        }
    }
}

fn not_negative_rect(r: Rect) -> Rect
    ensures { result ≡ not_negative_rect r }
{
    let across = not_negative(r.left, r.right);
    let down = not_negative(r.top, r.bottom);
    Rect {
        left: across.min,
        top: down.min,
        right: across.max,
        bottom: down.max,
    }
}

pub fn available_from_cursor_max_rect(main_dir: Direction, cursor: Rect, max_rect: Rect) -> Rect
    ensures { result ≡ available_from_cursor_max_rect main_dir cursor max_rect }
{
    not_negative_rect(from_cursor(main_dir, cursor, max_rect).intersect(cursor))
}

pub fn available_rect_before_wrap(main_dir: Direction, region: Region) -> Rect
    ensures { result ≡ available_rect_before_wrap main_dir region }
{
    available_from_cursor_max_rect(main_dir, region.cursor, region.max_rect)
}

// For wrapping layouts, the maximum after a wrap.
pub fn available_size(layout: Layout, region: Region) -> Vec2
    ensures { result ≡ available_size layout region }
{
    if layout.main_wrap {
        if layout.is_horizontal() {
            return Vec2 {
                x: region.max_rect.width(),
                y: region.cursor.height(),
            };
        }
        return Vec2 {
            x: region.cursor.width(),
            y: region.max_rect.height(),
        };
    }
    available_rect_before_wrap(layout.main_dir, region).size()
}
