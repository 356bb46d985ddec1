// RULES 1.15, 1.16: rounding, worked out here and not by a library.
ghost use Rattle.std.specs.Prelude.{◌≡◌, true, false, T, pos};
ghost use Rattle.std.specs.Float.{binary32, fin};
ghost use Rattle.std.specs.Float.Ieee.{lt, add, sub};
ghost use Rattle.emath.specs.Steps.{tick};
ghost use Rattle.emath.specs.Implementation.Shifting.{shift, back_in_ticks, back_rect};
ghost use Rattle.emath.specs.Rectangles.{round_f, round_by, round_ui, round_rect};

use crate::{Rect, TICKS_PER_POINT};

// 2^23 and half of it.
const SHIFT: f32 = 12582912.0;

// The nearest whole number of a y above 0 and below 2^23. Twice y is exact, where y + 0.5 would round: 0.49999997 to 1.
fn near(y: f32) -> f32
    requires above_zero { T (lt (fin false 0 (pos 0)) y) }
    requires below_limit { T (lt y (fin false 1 (pos 23))) }
    ensures { result ≡ round_f y }
{
    let n = (std::num::truncating_f32_to_u64(y + y) + 1) / 2;
    n as f32
}

// For every y. From 2^23 on every f32 is whole.
fn near_any(y: f32) -> f32
    ensures { result ≡ round_f y }
{
    if !(y < 8388608.0) {
        y
    } else if !(-8388608.0 < y) {
        y
    } else if 0.0 < y {
        near(y)
    } else if y < 0.0 {
        0.0 - near(-y)
    } else {
        0.0
    }
}

// Whether y comes back from where every f32 is whole: then it is whole.
fn is_whole(y: f32) -> bool
    ensures { result ≡ true → sub binary32 (add binary32 y shift) shift ≡ round_f y }
{
    let far = y + SHIFT;
    (8388608.0 <= far) & (far - SHIFT == y)
}

// The nearest whole number, halves away from zero. Most are whole already.
pub fn round(y: f32) -> f32
    ensures { result ≡ round_f y }
{
    if is_whole(y) {
        return y + SHIFT - SHIFT;
    }
    near_any(y)
}

// To whole steps, of which a point has `per`.
pub fn round_by(per: f32, x: f32) -> f32
    ensures { result ≡ round_by per x }
{
    round(x * per) / per
}

pub fn round_ui(x: f32) -> f32
    ensures { result ≡ round_ui tick x }
{
    round_by(TICKS_PER_POINT, x)
}

fn is_in_ticks(x: f32) -> bool
    ensures { result ≡ true → back_in_ticks x ≡ round_ui tick x }
{
    is_whole(x * TICKS_PER_POINT)
}

fn back_in_ticks(x: f32) -> f32
    ensures { result ≡ back_in_ticks x }
{
    (x * TICKS_PER_POINT + SHIFT - SHIFT) / TICKS_PER_POINT
}

impl Rect {
    pub fn round_ui(self) -> Rect
        ensures { result ≡ round_rect tick self }
    {
        Rect {
            left: round_ui(self.left),
            top: round_ui(self.top),
            right: round_ui(self.right),
            bottom: round_ui(self.bottom),
        }
    }

    fn is_in_ticks(self) -> bool
        ensures { result ≡ true → back_rect self ≡ round_rect tick self }
    {
        is_in_ticks(self.left)
            & (is_in_ticks(self.top) & (is_in_ticks(self.right) & is_in_ticks(self.bottom)))
    }

    // The same, short enough to be inlined: the fast path is that all edges are whole ticks already.
    pub fn round_ui_quickly(self) -> Rect
        ensures { result ≡ round_rect tick self }
    {
        if self.is_in_ticks() {
            return Rect {
                left: back_in_ticks(self.left),
                top: back_in_ticks(self.top),
                right: back_in_ticks(self.right),
                bottom: back_in_ticks(self.bottom),
            };
        }
        self.round_ui()
    }
}
