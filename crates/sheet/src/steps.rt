// One step (RULES 6.15, 6.16) on a placer without a fault, whose grid's arrays are lent beside it.
ghost use Rattle.std.specs.Prelude.{◌≡◌, List, Float};
ghost use Rattle.emath.specs.Refusals.{fault_number};
ghost use Rattle.placer.specs.declared.PlacerSettings.{PlacerSettings as Settings};
ghost use Rattle.placer.specs.declared.PassState.{PassState as Given};
ghost use Rattle.placer.specs.Implementation.Lent.{placer_of, answer_of};
ghost use Rattle.sheet.specs.Implementation.Calls.{Gives, given_number, answered_number, placement, called_by, step_result, record_result, Ready};

use crate::{Cell, Stepped};
use emath::faults::{first_of, pair_fault, size_fault};
use emath::{Rect, Refusal, Vec2};
use placer::faults::cell_fault;
use placer::{PassState, PlacerSettings, calls, lent};
use records::Step;

// 4 to 8, of what a W's calls are given (RULES 8.18).
fn given_fault(
    placer: PlacerSettings,
    state: PassState,
    spacing: Vec2,
    size: Vec2,
) -> Option<Refusal>
    ensures { (pw ph ws hs : List Float) → fault_number result ≡ given_number (placer_of placer state pw ph ws hs) spacing size }
{
    let place = cell_fault(placer.has_grid, state.grid.col, state.grid.row);
    first_of(
        size_fault(size),
        first_of(pair_fault(spacing.x, spacing.y), place),
    )
}

// 9, of what they answer; `past` is the fault of the placer after them.
fn answered_fault(frame: Rect, widget: Rect, past: Option<Refusal>) -> Option<Refusal>
    ensures { fault_number result ≡ answered_number frame widget (fault_number past) }
{
    if frame.is_within() & (widget.is_within() & past.is_none()) {
        return None;
    }
    Some(Refusal::Outside)
}

// W: `next_space`, then `justify_and_align`, then `advance_after_rects`.
fn place(
    placer: PlacerSettings,
    state: PassState,
    prev_widths: &[f32],
    prev_heights: &[f32],
    widths: &mut [f32],
    heights: &mut [f32],
    spacing: Vec2,
    size: Vec2,
) -> Result<Stepped, Refusal>
    requires { Ready placer state prev_widths.now prev_heights.now widths.old heights.old }
    ensures { Gives placer state result prev_widths.now prev_heights.now widths.new heights.new (placement (placer_of placer state prev_widths.now prev_heights.now widths.old heights.old) spacing size) }
{
    let frame = lent::next_space(placer, state, prev_widths, prev_heights, size, spacing);
    let widget = lent::justify_and_align(placer, state, frame, size);
    let region = lent::region_past(placer, state, prev_widths, frame, widget, spacing);
    let past = lent::past_fault(placer, state, &*widths, &*heights, region, widget);
    let given = given_fault(placer, state, spacing, size);
    if let Some(refusal) = given.or(answered_fault(frame, widget, past)) {
        return Err(refusal);
    }
    let s = lent::advance(placer, state, widths, heights, region, widget);
    Ok(Stepped {
        state: s,
        cell: Some(Cell { frame, widget }),
    })
}

// A step that is one call.
fn called(a: Result<PassState, Refusal>) -> Result<Stepped, Refusal>
    ensures { (p : Settings) (s : Given) (pw ph ws hs : List Float) → Gives p s result pw ph ws hs (called_by (answer_of p s a pw ph ws hs)) }
{
    let state = a?;
    Ok(Stepped { state, cell: None })
}

// What each step runs: a match, since each is another call with its own fields.
fn run_step(
    placer: PlacerSettings,
    state: PassState,
    prev_widths: &[f32],
    prev_heights: &[f32],
    widths: &mut [f32],
    heights: &mut [f32],
    spacing: Vec2,
    st: Step,
) -> Result<Stepped, Refusal>
    requires { Ready placer state prev_widths.now prev_heights.now widths.old heights.old }
    ensures { Gives placer state result prev_widths.now prev_heights.now widths.new heights.new (step_result (placer_of placer state prev_widths.now prev_heights.now widths.old heights.old) spacing st) }
{
    match st {
        Step::Widget(x, y) => place(
            placer,
            state,
            prev_widths,
            prev_heights,
            widths,
            heights,
            spacing,
            Vec2 { x, y },
        ),
        Step::Space(amount) => called(calls::advance_cursor(placer, state, amount)),
        Step::RowHeight(height) => called(calls::set_row_height(placer, state, height)),
        Step::MaxWidth(width) => called(calls::set_max_width(placer, state, width)),
        Step::MaxHeight(height) => called(calls::set_max_height(placer, state, height)),
        Step::MinWidth(width) => called(calls::set_min_width(placer, state, width)),
        Step::MinHeight(height) => called(calls::set_min_height(placer, state, height)),
        Step::RowEnd => called(calls::end_row(placer, state, &*heights, spacing)),
    }
}

// A record that is no step is malformed; after the check there is none.
pub fn run_record(
    placer: PlacerSettings,
    state: PassState,
    prev_widths: &[f32],
    prev_heights: &[f32],
    widths: &mut [f32],
    heights: &mut [f32],
    spacing: Vec2,
    r: Option<Step>,
) -> Result<Stepped, Refusal>
    requires { Ready placer state prev_widths.now prev_heights.now widths.old heights.old }
    ensures { Gives placer state result prev_widths.now prev_heights.now widths.new heights.new (record_result (placer_of placer state prev_widths.now prev_heights.now widths.old heights.old) spacing r) }
{
    let Some(st) = r else {
        return Err(Refusal::Malformed);
    };
    run_step(
        placer,
        state,
        prev_widths,
        prev_heights,
        widths,
        heights,
        spacing,
        st,
    )
}
