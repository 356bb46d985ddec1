// Placer, in placer.rs's order, before anything is refused.
ghost use Rattle.std.specs.Prelude.{◌≡◌};
ghost use Rattle.emath.specs.Steps.{tick};
ghost use Rattle.placer.specs.Rules.{new_placer, set_grid, save_grid, with_region, force_set_min_rect, set_cursor, align_size_within_rect, available, available_rect_before_wrap, available_size, next_space, next_widget_position, justify_and_align, advance_cursor, moved_past, advance_after_rects, end_row, set_row_height, expand_to_include_rect, expand_to_include_x, expand_to_include_y, next_widget_space_ignore_wrap_justify};

use crate::Placer;
use emath::{Pos2, Rect, Vec2};
use grid::memories::empty_memory;
use grid::{GridLayout, Saved, grids};
use layout::{Layout, available, cursors, frames, widgets};
use region::{Region, regions};

pub fn new_placer(max_rect: Rect, layout: Layout) -> Placer
    ensures { result ≡ new_placer tick max_rect layout }
{
    Placer {
        has_grid: false,
        grid: grids::empty_grid(),
        layout,
        region: widgets::region_from_max_rect(layout, max_rect),
    }
}

pub fn set_grid(placer: Placer, grid: GridLayout) -> Placer
    ensures { result ≡ set_grid placer grid }
{
    Placer {
        has_grid: true,
        grid,
        ..placer
    }
}

// Without a grid there is nothing to save.
pub fn save_grid(placer: Placer) -> Saved
    ensures { result ≡ save_grid placer }
{
    if placer.has_grid {
        return grids::save(placer.grid);
    }
    Saved {
        memory: empty_memory(),
        save: false,
    }
}

pub fn with_region(placer: Placer, region: Region) -> Placer
    ensures { result ≡ with_region placer region }
{
    Placer { region, ..placer }
}

pub fn force_set_min_rect(placer: Placer, min_rect: Rect) -> Placer
    ensures { result ≡ force_set_min_rect placer min_rect }
{
    with_region(
        placer,
        Region {
            min_rect,
            ..placer.region
        },
    )
}

pub fn set_cursor(placer: Placer, cursor: Rect) -> Placer
    ensures { result ≡ set_cursor placer cursor }
{
    with_region(placer, regions::with_cursor(placer.region, cursor))
}

pub fn align_size_within_rect(placer: Placer, size: Vec2, outer: Rect) -> Rect
    ensures { result ≡ align_size_within_rect tick placer size outer }
{
    if placer.has_grid {
        return grids::align_size_within_rect(size, outer);
    }
    widgets::align_size_within_rect(placer.layout, size, outer)
}

fn available_rect(placer: Placer) -> Rect
    ensures { result ≡ available placer }
{
    if placer.has_grid {
        return grids::available_rect(placer.grid, placer.region);
    }
    available::available_rect_before_wrap(placer.layout.main_dir, placer.region)
}

pub fn available_rect_before_wrap(placer: Placer) -> Rect
    ensures { result ≡ available_rect_before_wrap tick placer }
{
    available_rect(placer).round_ui()
}

pub fn available_size(placer: Placer) -> Vec2
    ensures { result ≡ available_size placer }
{
    if placer.has_grid {
        return grids::available_rect(placer.grid, placer.region).size();
    }
    available::available_size(placer.layout, placer.region)
}

pub fn next_space(placer: Placer, child_size: Vec2, item_spacing: Vec2) -> Rect
    ensures { result ≡ next_space tick placer child_size item_spacing }
{
    if placer.has_grid {
        return grids::next_cell(placer.grid, placer.region.cursor, child_size);
    }
    frames::next_frame(placer.layout, placer.region, child_size, item_spacing)
}

pub fn next_widget_position(placer: Placer) -> Pos2
    ensures { result ≡ next_widget_position tick placer }
{
    if placer.has_grid {
        return grids::next_cell(placer.grid, placer.region.cursor, Vec2::ZERO).center();
    }
    widgets::next_widget_position(placer.layout, placer.region)
}

pub fn justify_and_align(placer: Placer, rect: Rect, child_size: Vec2) -> Rect
    ensures { result ≡ justify_and_align tick placer rect child_size }
{
    if placer.has_grid {
        return grids::align_size_within_rect(child_size, rect);
    }
    widgets::justify_and_align(placer.layout, rect, child_size)
}

pub fn advance_cursor(placer: Placer, amount: f32) -> Placer
    ensures { result ≡ advance_cursor placer amount }
{
    with_region(
        placer,
        cursors::advance_cursor(placer.layout.main_dir, placer.region, amount),
    )
}

// The grid or the layout moves the cursor.
fn moved_past(placer: Placer, frame_rect: Rect, widget_rect: Rect, item_spacing: Vec2) -> Placer
    ensures { result ≡ moved_past placer frame_rect widget_rect item_spacing }
{
    if placer.has_grid {
        let m = grids::advance(placer.grid, placer.region.cursor, widget_rect);
        return set_grid(set_cursor(placer, m.cursor), m.grid);
    }
    let c = cursors::advance_after_rects(
        placer.layout,
        placer.region.cursor,
        frame_rect,
        widget_rect,
        item_spacing,
    );
    set_cursor(placer, c)
}

// As if the whole frame was used, for centred layouts.
pub fn advance_after_rects(
    placer: Placer,
    frame_rect: Rect,
    widget_rect: Rect,
    item_spacing: Vec2,
) -> Placer
    ensures { result ≡ advance_after_rects placer frame_rect widget_rect item_spacing }
{
    expand_to_include_rect(
        moved_past(placer, frame_rect, widget_rect, item_spacing),
        frame_rect,
    )
}

pub fn end_row(placer: Placer, item_spacing: Vec2) -> Placer
    ensures { result ≡ end_row placer item_spacing }
{
    if placer.has_grid {
        let m = grids::end_row(placer.grid, placer.region.cursor);
        return set_grid(set_cursor(placer, m.cursor), m.grid);
    }
    with_region(
        placer,
        cursors::end_row(placer.layout, placer.region, item_spacing),
    )
}

// The layout is asked even in a grid.
pub fn set_row_height(placer: Placer, height: f32) -> Placer
    ensures { result ≡ set_row_height placer height }
{
    with_region(
        placer,
        cursors::set_row_height(placer.layout, placer.region, height),
    )
}

pub fn expand_to_include_rect(placer: Placer, rect: Rect) -> Placer
    ensures { result ≡ expand_to_include_rect placer rect }
{
    with_region(placer, regions::expand_to_include_rect(placer.region, rect))
}

pub fn expand_to_include_x(placer: Placer, x: f32) -> Placer
    ensures { result ≡ expand_to_include_x placer x }
{
    with_region(placer, regions::expand_to_include_x(placer.region, x))
}

pub fn expand_to_include_y(placer: Placer, y: f32) -> Placer
    ensures { result ≡ expand_to_include_y placer y }
{
    with_region(placer, regions::expand_to_include_y(placer.region, y))
}

pub fn next_widget_space_ignore_wrap_justify(placer: Placer, size: Vec2) -> Rect
    ensures { result ≡ next_widget_space_ignore_wrap_justify tick placer size }
{
    widgets::next_widget_space_ignore_wrap_justify(placer.layout, placer.region, size)
}
