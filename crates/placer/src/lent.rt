// Cores for a pass: a placer taken apart, and the calls of a W, with the grid's arrays lent beside it. Each holds for the placer that the
// parts and the arrays make. A placer without fault is not checked again: a new one's fault is that of what has changed.
ghost use Rattle.std.specs.Prelude.{◌≡◌, List, length, Float};
ghost use Rattle.emath.specs.Implementation.NoNaN.{Numbers};
ghost use Rattle.emath.specs.Refusals.{fault_number};
ghost use Rattle.emath.specs.Steps.{tick};
ghost use Rattle.emath.specs.declared.Rect.{Rect as Frame};
ghost use Rattle.emath.specs.declared.Vec2.{Vec2 as Spacing};
ghost use Rattle.placer.specs.Rules.{next_space, justify_and_align, moved_past, advance_after_rects};
ghost use Rattle.placer.specs.Implementation.Lent.{placer_of, settings_of, state_of, raised_part, past_part};

use crate::{PassState, Placer, PlacerSettings};
use emath::faults::{extent_fault, first_of};
use emath::{Rect, Refusal, Vec2};
use grid::{Memory, grids, lent};
use layout::{cursors, frames, widgets};
use region::faults::region_fault;
use region::{Region, regions};

pub fn settings(placer: Placer) -> PlacerSettings
    ensures { result ≡ settings_of placer }
{
    PlacerSettings {
        has_grid: placer.has_grid,
        grid: lent::settings(placer.grid),
        layout: placer.layout,
    }
}

pub fn state(placer: Placer) -> PassState
    ensures { result ≡ state_of placer }
{
    PassState {
        region: placer.region,
        grid: lent::state(placer.grid),
    }
}

// The arrays of `prev` beside those of this pass.
pub fn whole(
    placer: PlacerSettings,
    state: PassState,
    prev: Memory,
    widths: [f32; 32],
    heights: [f32; 128],
) -> Placer
    ensures { result ≡ placer_of placer state prev.col_widths prev.row_heights widths heights }
{
    Placer {
        has_grid: placer.has_grid,
        grid: lent::whole(placer.grid, state.grid, prev, widths, heights),
        layout: placer.layout,
        region: state.region,
    }
}

pub fn next_space(
    placer: PlacerSettings,
    state: PassState,
    prev_widths: &[f32],
    prev_heights: &[f32],
    child_size: Vec2,
    item_spacing: Vec2,
) -> Rect
    ensures { (ws hs : List Float) → result ≡ next_space tick (placer_of placer state prev_widths.now prev_heights.now ws hs) child_size item_spacing }
{
    if placer.has_grid {
        return lent::next_cell(
            placer.grid,
            state.grid,
            prev_widths,
            prev_heights,
            state.region.cursor,
            child_size,
        );
    }
    frames::next_frame(placer.layout, state.region, child_size, item_spacing)
}

pub fn justify_and_align(
    placer: PlacerSettings,
    state: PassState,
    rect: Rect,
    child_size: Vec2,
) -> Rect
    ensures { (pw ph ws hs : List Float) → result ≡ justify_and_align tick (placer_of placer state pw ph ws hs) rect child_size }
{
    if placer.has_grid {
        return grids::align_size_within_rect(child_size, rect);
    }
    widgets::justify_and_align(placer.layout, rect, child_size)
}

fn cursor_past(
    placer: PlacerSettings,
    state: PassState,
    prev_widths: &[f32],
    frame_rect: Rect,
    widget_rect: Rect,
    item_spacing: Vec2,
) -> Rect
    ensures { (ph ws hs : List Float) → result ≡ (moved_past (placer_of placer state prev_widths.now ph ws hs) frame_rect widget_rect item_spacing).region.cursor }
{
    if placer.has_grid {
        return lent::advanced_cursor(placer.grid, state.grid, prev_widths, state.region.cursor);
    }
    cursors::advance_after_rects(
        placer.layout,
        state.region.cursor,
        frame_rect,
        widget_rect,
        item_spacing,
    )
}

// The region after `advance_after_rects`, where the one before has no fault, and so no NaN.
pub fn region_past(
    placer: PlacerSettings,
    state: PassState,
    prev_widths: &[f32],
    frame_rect: Rect,
    widget_rect: Rect,
    item_spacing: Vec2,
) -> Region
    requires { Numbers state.region.min_rect × Numbers state.region.max_rect }
    ensures { (ph ws hs : List Float) → result ≡ (advance_after_rects (placer_of placer state prev_widths.now ph ws hs) frame_rect widget_rect item_spacing).region }
{
    let c = cursor_past(
        placer,
        state,
        prev_widths,
        frame_rect,
        widget_rect,
        item_spacing,
    );
    regions::expand_with_rect(regions::with_cursor(state.region, c), frame_rect)
}

fn raised_fault(
    placer: PlacerSettings,
    state: PassState,
    widths: &[f32],
    heights: &[f32],
    widget_rect: Rect,
) -> Option<Refusal>
    ensures { (pw ph : List Float) → fault_number result ≡ raised_part (placer_of placer state pw ph widths.now heights.now) widget_rect }
{
    if placer.has_grid {
        let size = lent::noted_size(placer.grid, state.grid, widths, heights, widget_rect);
        return first_of(extent_fault(size.x), extent_fault(size.y));
    }
    None
}

// The fault of the placer after `advance_after_rects`, which leaves this region: where the placer had none and there is room, the region's
// or that of what the grid is to remember.
pub fn past_fault(
    placer: PlacerSettings,
    state: PassState,
    widths: &[f32],
    heights: &[f32],
    region: Region,
    widget_rect: Rect,
) -> Option<Refusal>
    ensures { (pw ph : List Float) → fault_number result ≡ past_part (placer_of placer state pw ph widths.now heights.now) region widget_rect }
{
    first_of(
        region_fault(placer.layout.main_dir, region),
        raised_fault(placer, state, widths, heights, widget_rect),
    )
}

// The rest of `advance_after_rects`.
pub fn advance(
    placer: PlacerSettings,
    state: PassState,
    widths: &mut [f32],
    heights: &mut [f32],
    region: Region,
    widget_rect: Rect,
) -> PassState
    requires { (length widths.old ≡ 32) × (length heights.old ≡ 128) }
    ensures { (pw ph : List Float) (f : Frame) (sp : Spacing) → region ≡ (advance_after_rects (placer_of placer state pw ph widths.old heights.old) f widget_rect sp).region → placer_of placer result pw ph widths.new heights.new ≡ advance_after_rects (placer_of placer state pw ph widths.old heights.old) f widget_rect sp }
{
    if placer.has_grid {
        let grid = lent::advance(placer.grid, state.grid, widths, heights, widget_rect);
        return PassState { region, grid };
    }
    PassState { region, ..state }
}
