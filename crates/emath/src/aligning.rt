// RULES 1.13, 1.14: a size aligned on an axis, and on both.
ghost use Rattle.std.specs.Prelude.{◌≡◌, ◌&&◌};
ghost use Rattle.std.specs.Float.{binary32};
ghost use Rattle.std.specs.Float.Ieee.{sub};
ghost use Rattle.emath.specs.Rectangles.{is_infinite, centred, align_on, align_within, with_x, with_y};

use crate::num::is_infinite;
use crate::{Align, Align2, Rangef, Rect, Vec2};

impl Align {
    pub const LEFT: Align = Align::Min;

    pub const RIGHT: Align = Align::Max;

    pub const TOP: Align = Align::Min;

    pub const BOTTOM: Align = Align::Max;

    pub fn align_size_within_range(self, size: f32, range: Rangef) -> Rangef
        ensures { result ≡ align_on self range.min range.max size }
    {
        let low = range.min;
        let high = range.max;
        if fills(low, high, size) {
            return range;
        }
        match self {
            Align::Min => Rangef {
                min: low,
                max: low + size,
            },
            Align::Center => centred_in(low, high, size),
            Align::Max => Rangef {
                min: high - size,
                max: high,
            },
        }
    }
}

// Size and range are both infinite: the range is filled.
fn fills(low: f32, high: f32, size: f32) -> bool
    ensures { result ≡ is_infinite size && is_infinite (sub binary32 high low) }
{
    is_infinite(size) && is_infinite(high - low)
}

fn centred_in(low: f32, high: f32, size: f32) -> Rangef
    ensures { result ≡ centred low high size }
{
    if is_infinite(size) {
        return Rangef {
            min: f32::NEG_INFINITY,
            max: f32::INFINITY,
        };
    }
    let min = (low + high) / 2.0 - size / 2.0;
    Rangef {
        min,
        max: min + size,
    }
}

impl Align2 {
    pub const LEFT_CENTER: Align2 = Align2 {
        x: Align::Min,
        y: Align::Center,
    };

    pub fn with_x(self, x: Align) -> Align2
        ensures { result ≡ with_x self x }
    {
        Align2 { x, ..self }
    }

    pub fn with_y(self, y: Align) -> Align2
        ensures { result ≡ with_y self y }
    {
        Align2 { y, ..self }
    }

    pub fn align_size_within_rect(self, size: Vec2, frame: Rect) -> Rect
        ensures { result ≡ align_within self size frame }
    {
        let x_range = self.x.align_size_within_range(
            size.x,
            Rangef {
                min: frame.left,
                max: frame.right,
            },
        );
        let y_range = self.y.align_size_within_range(
            size.y,
            Rangef {
                min: frame.top,
                max: frame.bottom,
            },
        );
        Rect {
            left: x_range.min,
            top: y_range.min,
            right: x_range.max,
            bottom: y_range.max,
        }
    }
}
