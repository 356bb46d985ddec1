// set_max_width and its like: a region that is limited or grown around the place of the next widget.
ghost use Rattle.std.specs.Prelude.{◌≡◌, Bool};
ghost use Rattle.emath.specs.Steps.{tick};
ghost use Rattle.region.specs.Regions.{expand_to_include_x, expand_to_include_y};
ghost use Rattle.grid.specs.declared.GridLayout.{GridLayout};
ghost use Rattle.placer.specs.Rules.{limited_across, limited_down, set_max_width, set_max_height, set_min_width, set_min_height};
ghost use Rattle.placer.specs.Implementation.Lent.{placer_with};

use crate::Placer;
use crate::rules::with_region;
use emath::{Rect, Vec2};
use layout::Layout;
use layout::widgets::next_widget_space_ignore_wrap_justify;
use region::Region;
use region::regions::{expand_to_include_x, expand_to_include_y};

// Not below min_rect. Across and down stay two, here and below: over an axis, each of their fields would take a choice.
fn limited_across(region: Region, rect: Rect) -> Region
    ensures { result ≡ limited_across region rect }
{
    let limit = Rect {
        left: rect.left,
        right: rect.right,
        ..region.max_rect
    };
    let max_rect = limit.union(region.min_rect);
    let cursor = Rect {
        left: max_rect.left,
        right: max_rect.right,
        ..region.cursor
    };
    Region {
        max_rect,
        cursor,
        ..region
    }
}

fn limited_down(region: Region, rect: Rect) -> Region
    ensures { result ≡ limited_down region rect }
{
    let limit = Rect {
        top: rect.top,
        bottom: rect.bottom,
        ..region.max_rect
    };
    let max_rect = limit.union(region.min_rect);
    let cursor = Rect {
        top: max_rect.top,
        bottom: max_rect.bottom,
        ..region.cursor
    };
    Region {
        max_rect,
        cursor,
        ..region
    }
}

pub fn max_width(layout: Layout, region: Region, width: f32) -> Region
    ensures { (b : Bool) (m : GridLayout) → result ≡ (set_max_width tick (placer_with b m layout region) width).region }
{
    limited_across(
        region,
        next_widget_space_ignore_wrap_justify(layout, region, Vec2 { x: width, y: 0.0 }),
    )
}

pub fn max_height(layout: Layout, region: Region, height: f32) -> Region
    ensures { (b : Bool) (m : GridLayout) → result ≡ (set_max_height tick (placer_with b m layout region) height).region }
{
    limited_down(
        region,
        next_widget_space_ignore_wrap_justify(layout, region, Vec2 { x: 0.0, y: height }),
    )
}

pub fn set_max_width(placer: Placer, width: f32) -> Placer
    ensures { result ≡ set_max_width tick placer width }
{
    with_region(placer, max_width(placer.layout, placer.region, width))
}

pub fn set_max_height(placer: Placer, height: f32) -> Placer
    ensures { result ≡ set_max_height tick placer height }
{
    with_region(placer, max_height(placer.layout, placer.region, height))
}

fn grown_across(region: Region, rect: Rect) -> Region
    ensures { result ≡ expand_to_include_x (expand_to_include_x region rect.left) rect.right }
{
    expand_to_include_x(expand_to_include_x(region, rect.left), rect.right)
}

fn grown_down(region: Region, rect: Rect) -> Region
    ensures { result ≡ expand_to_include_y (expand_to_include_y region rect.top) rect.bottom }
{
    expand_to_include_y(expand_to_include_y(region, rect.top), rect.bottom)
}

// 0 or less changes nothing.
pub fn min_width(layout: Layout, region: Region, width: f32) -> Region
    ensures { (b : Bool) (m : GridLayout) → result ≡ (set_min_width tick (placer_with b m layout region) width).region }
{
    if width <= 0.0 {
        return region;
    }
    grown_across(
        region,
        next_widget_space_ignore_wrap_justify(layout, region, Vec2 { x: width, y: 0.0 }),
    )
}

pub fn min_height(layout: Layout, region: Region, height: f32) -> Region
    ensures { (b : Bool) (m : GridLayout) → result ≡ (set_min_height tick (placer_with b m layout region) height).region }
{
    if height <= 0.0 {
        return region;
    }
    grown_down(
        region,
        next_widget_space_ignore_wrap_justify(layout, region, Vec2 { x: 0.0, y: height }),
    )
}

pub fn set_min_width(placer: Placer, width: f32) -> Placer
    ensures { result ≡ set_min_width tick placer width }
{
    with_region(placer, min_width(placer.layout, placer.region, width))
}

pub fn set_min_height(placer: Placer, height: f32) -> Placer
    ensures { result ≡ set_min_height tick placer height }
{
    with_region(placer, min_height(placer.layout, placer.region, height))
}
