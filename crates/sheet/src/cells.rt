// A W's rectangles in a lent slice, in ticks (RULES 6.18).
ghost use Rattle.std.specs.Prelude.{◌≡◌, ◌+◌, ◌*◌, ◌≤◌, ◌<◌, length};
ghost use Rattle.std.proofs.lemmas.List.Edits.{sets};
ghost use Rattle.emath.specs.Steps.{tick, Edge};
ghost use Rattle.region.specs.Steps.{WholeRect};
ghost use Rattle.sheet.specs.Ticks.{ticks};
ghost use Rattle.sheet.specs.Implementation.Calls.{placed_of, frame_of, widget_of};
ghost use Rattle.sheet.specs.Implementation.Walks.{eight_of, put_at};

use crate::Cell;
use emath::{Rect, TICKS_PER_POINT};

// An edge that is a whole tick, counted in ticks.
pub fn tick(x: f32) -> i32
    requires { Edge tick x }
    ensures { result ≡ ticks tick x }
{
    (x * TICKS_PER_POINT) as i32
}

// The edges of the frame and then of the widget, from `at` on.
fn write_cell(out: &mut [i32], at: usize, frame: Rect, widget: Rect)
    requires at_in_bounds { at + 8 ≤ length out.old }
    requires whole_rect { WholeRect tick frame × WholeRect tick widget }
    ensures { out.new ≡ sets out.old at (eight_of frame widget) }
{
    out[at] = tick(frame.left);
    out[at + 1] = tick(frame.top);
    out[at + 2] = tick(frame.right);
    out[at + 3] = tick(frame.bottom);
    out[at + 4] = tick(widget.left);
    out[at + 5] = tick(widget.top);
    out[at + 6] = tick(widget.right);
    out[at + 7] = tick(widget.bottom);
}

// Writes W number w, where there is one, and answers how many W there are then.
pub fn put(out: &mut [i32], w: usize, cell: Option<Cell>) -> usize
    requires placed_in_bounds { 8 * (w + placed_of cell) ≤ length out.old }
    requires whole_rect { 0 < placed_of cell → WholeRect tick (frame_of cell) × WholeRect tick (widget_of cell) }
    ensures { (result ≡ w + placed_of cell) × (out.new ≡ put_at out.old w (placed_of cell) (frame_of cell) (widget_of cell)) }
{
    let Some(c) = cell else {
        return w;
    };
    write_cell(out, 8 * w, c.frame, c.widget);
    w + 1
}
