// The plate of a pass, a frame at a time (RULES 6.19).
ghost use Rattle.std.specs.Prelude.{◌≡◌};
ghost use Rattle.emath.specs.Implementation.NoNaN.{Numbers};
ghost use Rattle.sheet.specs.Implementation.Calls.{placed_of, frame_of};
ghost use Rattle.sheet.specs.Implementation.Walks.{joined as joined_by, plate_with};

use crate::Cell;
use emath::Rect;
use emath::unions::union_with;

// The plate with the frame of W number w. The first frame is the plate: a plate need not touch 0, 0.
#[tactic(auto, unfolding(crate::specs::Implementation::Walks::joined))]
fn joined(plate: Rect, w: usize, frame: Rect) -> Rect
    requires { Numbers plate }
    ensures { result ≡ joined_by plate w frame }
{
    if w < 1 {
        return frame;
    }
    union_with(plate, frame)
}

// The plate after a record, which may be W number w.
pub fn plate_with(plate: Rect, w: usize, cell: Option<Cell>) -> Rect
    requires { Numbers plate }
    ensures { result ≡ plate_with plate w (placed_of cell) (frame_of cell) }
{
    match cell {
        None => plate,
        Some(c) => joined(plate, w, c.frame),
    }
}
