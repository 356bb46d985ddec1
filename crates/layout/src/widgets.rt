// Where a widget goes in its frame: align_size_within_rect, justify_and_align and what is built on them.
ghost use Rattle.std.specs.Prelude.{◌≡◌};
ghost use Rattle.emath.specs.Steps.{tick};
ghost use Rattle.layout.specs.Rules.{align_size_within_rect, raised, justify_and_align, next_widget_space_ignore_wrap_justify, next_widget_position, region_from_max_rect};

use crate::Layout;
use crate::available::initial_cursor;
use crate::frames::next_frame_ignore_wrap;
use emath::num::at_least;
use emath::{Pos2, Rect, Vec2};
use region::Region;

pub fn align_size_within_rect(layout: Layout, size: Vec2, outer: Rect) -> Rect
    ensures { result ≡ align_size_within_rect tick layout size outer }
{
    layout
        .align2()
        .align_size_within_rect(size, outer)
        .round_ui()
}

fn raised_to(justify: bool, length: f32, full: f32) -> f32
    ensures { result ≡ raised justify length full }
{
    if justify {
        at_least(length, full)
    } else {
        length
    }
}

pub fn justify_and_align(layout: Layout, frame: Rect, child_size: Vec2) -> Rect
    ensures { result ≡ justify_and_align tick layout frame child_size }
{
    let size = Vec2 {
        x: raised_to(layout.horizontal_justify(), child_size.x, frame.width()),
        y: raised_to(layout.vertical_justify(), child_size.y, frame.height()),
    };
    align_size_within_rect(layout, size, frame)
}

pub fn next_widget_space_ignore_wrap_justify(layout: Layout, region: Region, size: Vec2) -> Rect
    ensures { result ≡ next_widget_space_ignore_wrap_justify tick layout region size }
{
    align_size_within_rect(layout, size, next_frame_ignore_wrap(layout, region, size))
}

// Where the next tiny widget would be centred.
pub fn next_widget_position(layout: Layout, region: Region) -> Pos2
    ensures { result ≡ next_widget_position tick layout region }
{
    next_widget_space_ignore_wrap_justify(layout, region, Vec2::ZERO).center()
}

// min_rect is not read before it is set.
pub fn region_from_max_rect(layout: Layout, max_rect: Rect) -> Region
    ensures { result ≡ region_from_max_rect tick layout max_rect }
{
    let region = Region {
        min_rect: max_rect,
        max_rect,
        cursor: initial_cursor(layout.main_dir, max_rect),
    };
    let seed = next_widget_position(layout, region);
    Region {
        min_rect: Rect::from_center_size(seed, Vec2::ZERO),
        ..region
    }
}
