// Cores for a pass: the records that are one call each. A placer without fault is not checked again: a new one's fault is the region's.
ghost use Rattle.std.specs.Prelude.{◌≡◌, true, List, [], ◌∷◌, Float};
ghost use Rattle.emath.specs.Steps.{tick};
ghost use Rattle.emath.specs.Refusals.{least, fault_number};
ghost use Rattle.emath.specs.declared.Vec2.{Vec2 as Spacing};
ghost use Rattle.placer.specs.declared.PlacerSettings.{PlacerSettings as Settings};
ghost use Rattle.placer.specs.Rules.{with_region, end_row};
ghost use Rattle.placer.specs.Refusals.{placer_fault, changed_placer};
ghost use Rattle.placer.specs.Operations.{checked_advance_cursor, checked_end_row, checked_set_row_height, checked_set_max_width, checked_set_max_height, checked_set_min_width, checked_set_min_height};
ghost use Rattle.placer.specs.Implementation.Lent.{placer_of, answer_of};

use crate::faults::row_fault;
use crate::{PassState, PlacerSettings, limits};
use emath::faults::{answer, extent_fault, first_of, length_fault, outside, pair_fault};
use emath::{Refusal, Vec2};
use grid::lent;
use layout::cursors;
use region::faults::region_fault;
use region::{Region, regions};

// A call that sets the region anew; `before` is its arguments' fault.
fn settled(
    placer: PlacerSettings,
    state: PassState,
    before: Option<Refusal>,
    region: Region,
) -> Result<PassState, Refusal>
    ensures { (pw ph ws hs : List Float) → placer_fault (placer_of placer state pw ph ws hs) ≡ 0 → answer_of placer state result pw ph ws hs ≡ changed_placer (least (placer_fault (placer_of placer state pw ph ws hs) ∷ fault_number before ∷ [])) (placer_of placer state pw ph ws hs) (with_region (placer_of placer state pw ph ws hs) region) }
{
    let after = outside(region_fault(placer.layout.main_dir, region));
    answer(before.or(after), PassState { region, ..state })
}

pub fn advance_cursor(
    placer: PlacerSettings,
    state: PassState,
    amount: f32,
) -> Result<PassState, Refusal>
    ensures { (pw ph ws hs : List Float) → placer_fault (placer_of placer state pw ph ws hs) ≡ 0 → answer_of placer state result pw ph ws hs ≡ checked_advance_cursor (placer_of placer state pw ph ws hs) amount }
{
    let before = first_of(
        length_fault(amount),
        placer.has_grid.then_some(Refusal::NotInGrid),
    );
    settled(
        placer,
        state,
        before,
        cursors::advance_cursor(placer.layout.main_dir, state.region, amount),
    )
}

pub fn set_row_height(
    placer: PlacerSettings,
    state: PassState,
    height: f32,
) -> Result<PassState, Refusal>
    ensures { (pw ph ws hs : List Float) → placer_fault (placer_of placer state pw ph ws hs) ≡ 0 → answer_of placer state result pw ph ws hs ≡ checked_set_row_height (placer_of placer state pw ph ws hs) height }
{
    settled(
        placer,
        state,
        length_fault(height),
        cursors::set_row_height(placer.layout, state.region, height),
    )
}

pub fn set_max_width(
    placer: PlacerSettings,
    state: PassState,
    width: f32,
) -> Result<PassState, Refusal>
    ensures { (pw ph ws hs : List Float) → placer_fault (placer_of placer state pw ph ws hs) ≡ 0 → answer_of placer state result pw ph ws hs ≡ checked_set_max_width tick (placer_of placer state pw ph ws hs) width }
{
    settled(
        placer,
        state,
        extent_fault(width),
        limits::max_width(placer.layout, state.region, width),
    )
}

pub fn set_max_height(
    placer: PlacerSettings,
    state: PassState,
    height: f32,
) -> Result<PassState, Refusal>
    ensures { (pw ph ws hs : List Float) → placer_fault (placer_of placer state pw ph ws hs) ≡ 0 → answer_of placer state result pw ph ws hs ≡ checked_set_max_height tick (placer_of placer state pw ph ws hs) height }
{
    settled(
        placer,
        state,
        extent_fault(height),
        limits::max_height(placer.layout, state.region, height),
    )
}

pub fn set_min_width(
    placer: PlacerSettings,
    state: PassState,
    width: f32,
) -> Result<PassState, Refusal>
    ensures { (pw ph ws hs : List Float) → placer_fault (placer_of placer state pw ph ws hs) ≡ 0 → answer_of placer state result pw ph ws hs ≡ checked_set_min_width tick (placer_of placer state pw ph ws hs) width }
{
    settled(
        placer,
        state,
        length_fault(width),
        limits::min_width(placer.layout, state.region, width),
    )
}

pub fn set_min_height(
    placer: PlacerSettings,
    state: PassState,
    height: f32,
) -> Result<PassState, Refusal>
    ensures { (pw ph ws hs : List Float) → placer_fault (placer_of placer state pw ph ws hs) ≡ 0 → answer_of placer state result pw ph ws hs ≡ checked_set_min_height tick (placer_of placer state pw ph ws hs) height }
{
    settled(
        placer,
        state,
        length_fault(height),
        limits::min_height(placer.layout, state.region, height),
    )
}

// In a grid.
fn row_ended(
    placer: PlacerSettings,
    state: PassState,
    before: Option<Refusal>,
    heights: &[f32],
) -> Result<PassState, Refusal>
    ensures { (pw ph ws : List Float) (sp : Spacing) → placer.has_grid ≡ true → placer_fault (placer_of placer state pw ph ws heights.now) ≡ 0 → answer_of placer state result pw ph ws heights.now ≡ changed_placer (least (placer_fault (placer_of placer state pw ph ws heights.now) ∷ fault_number before ∷ [])) (placer_of placer state pw ph ws heights.now) (end_row (placer_of placer state pw ph ws heights.now) sp) }
{
    let region = regions::with_cursor(
        state.region,
        lent::ended_cursor(placer.grid, state.grid, heights, state.region.cursor),
    );
    let grid = lent::end_row(state.grid);
    let after = outside(region_fault(placer.layout.main_dir, region));
    answer(before.or(after), PassState { region, grid })
}

pub fn end_row(
    placer: PlacerSettings,
    state: PassState,
    heights: &[f32],
    item_spacing: Vec2,
) -> Result<PassState, Refusal>
    ensures { (pw ph ws : List Float) → placer_fault (placer_of placer state pw ph ws heights.now) ≡ 0 → answer_of placer state result pw ph ws heights.now ≡ checked_end_row (placer_of placer state pw ph ws heights.now) item_spacing }
{
    let before = first_of(
        pair_fault(item_spacing.x, item_spacing.y),
        row_fault(placer.has_grid, state.grid.row),
    );
    if placer.has_grid {
        return row_ended(placer, state, before, heights);
    }
    settled(
        placer,
        state,
        before,
        cursors::end_row(placer.layout, state.region, item_spacing),
    )
}
