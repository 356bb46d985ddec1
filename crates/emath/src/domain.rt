// The tests of the domain (RULES 5). Pairs and rectangles name each number: a closure for the test would take more lines than it saves.
ghost use Rattle.std.specs.Prelude.{◌≡◌};
ghost use Rattle.emath.specs.Domain.{finite, within, both_of, edges_of, negative, inside_out};

use crate::{LIMIT, Rect, Vec2};

// NaN and the infinities give NaN here.
pub fn is_finite(x: f32) -> bool
    ensures { result ≡ finite x }
{
    x - x == 0.0
}

pub fn is_within(x: f32) -> bool
    ensures { result ≡ within x }
{
    (-LIMIT <= x) & (x <= LIMIT)
}

pub fn both_finite(x: f32, y: f32) -> bool
    ensures { result ≡ both_of finite x y }
{
    is_finite(x) & is_finite(y)
}

pub fn both_within(x: f32, y: f32) -> bool
    ensures { result ≡ both_of within x y }
{
    is_within(x) & is_within(y)
}

impl Rect {
    pub fn is_finite(self) -> bool
        ensures { result ≡ edges_of finite self }
    {
        is_finite(self.left)
            & (is_finite(self.top) & (is_finite(self.right) & is_finite(self.bottom)))
    }

    pub fn is_within(self) -> bool
        ensures { result ≡ edges_of within self }
    {
        is_within(self.left)
            & (is_within(self.top) & (is_within(self.right) & is_within(self.bottom)))
    }

    pub fn is_inside_out(self) -> bool
        ensures { result ≡ inside_out self }
    {
        (self.right < self.left) | (self.bottom < self.top)
    }
}

impl Vec2 {
    pub fn is_negative(self) -> bool
        ensures { result ≡ negative self }
    {
        (self.x < 0.0) | (self.y < 0.0)
    }
}
