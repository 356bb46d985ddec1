// RULES 1.5 to 1.12: rectangles, but for alignment and rounding.
ghost use Rattle.std.specs.Prelude.{◌≡◌};
ghost use Rattle.emath.specs.Rectangles.{width, height, size_of, center, from_min_size, from_center_size, translate, intersect, union, extend_with_x, extend_with_y, intersects, shrink, zero_f};

use crate::num::{max, min};
use crate::{Pos2, Rect, Vec2};

impl Vec2 {
    pub const ZERO: Vec2 = Vec2 { x: 0.0, y: 0.0 };
}

impl Pos2 {
    pub const ZERO: Pos2 = Pos2 { x: 0.0, y: 0.0 };
}

impl Rect {
    pub const ZERO: Rect = Rect {
        left: 0.0,
        top: 0.0,
        right: 0.0,
        bottom: 0.0,
    };

    pub fn width(self) -> f32
        ensures { result ≡ width self }
    {
        self.right - self.left
    }

    pub fn height(self) -> f32
        ensures { result ≡ height self }
    {
        self.bottom - self.top
    }

    pub fn size(self) -> Vec2
        ensures { result ≡ size_of self }
    {
        Vec2 {
            x: self.right - self.left,
            y: self.bottom - self.top,
        }
    }

    pub fn center(self) -> Pos2
        ensures { result ≡ center self }
    {
        Pos2 {
            x: (self.left + self.right) / 2.0,
            y: (self.top + self.bottom) / 2.0,
        }
    }

    pub fn from_min_size(min: Pos2, size: Vec2) -> Rect
        ensures { result ≡ from_min_size min size }
    {
        Rect {
            left: min.x,
            top: min.y,
            right: min.x + size.x,
            bottom: min.y + size.y,
        }
    }

    pub fn from_center_size(center: Pos2, size: Vec2) -> Rect
        ensures { result ≡ from_center_size center size }
    {
        Rect {
            left: center.x - 0.5 * size.x,
            top: center.y - 0.5 * size.y,
            right: center.x + 0.5 * size.x,
            bottom: center.y + 0.5 * size.y,
        }
    }

    // The right edge is worked out anew from the width, which costs a rounding: so does the Rust.
    pub fn translate(self, amount: Vec2) -> Rect
        ensures { result ≡ translate self amount }
    {
        let min = Pos2 {
            x: self.left + amount.x,
            y: self.top + amount.y,
        };
        Rect::from_min_size(min, self.size())
    }

    pub fn intersect(self, other: Rect) -> Rect
        ensures { result ≡ intersect self other }
    {
        Rect {
            left: max(self.left, other.left),
            top: max(self.top, other.top),
            right: min(self.right, other.right),
            bottom: min(self.bottom, other.bottom),
        }
    }

    pub fn union(self, other: Rect) -> Rect
        ensures { result ≡ union self other }
    {
        Rect {
            left: min(self.left, other.left),
            top: min(self.top, other.top),
            right: max(self.right, other.right),
            bottom: max(self.bottom, other.bottom),
        }
    }

    pub fn extend_with_x(self, x: f32) -> Rect
        ensures { result ≡ extend_with_x self x }
    {
        Rect {
            left: min(self.left, x),
            top: self.top,
            right: max(self.right, x),
            bottom: self.bottom,
        }
    }

    pub fn extend_with_y(self, y: f32) -> Rect
        ensures { result ≡ extend_with_y self y }
    {
        Rect {
            left: self.left,
            top: min(self.top, y),
            right: self.right,
            bottom: max(self.bottom, y),
        }
    }

    pub fn intersects(self, other: Rect) -> bool
        ensures { result ≡ intersects self other }
    {
        ((self.left <= other.right) & (other.left <= self.right))
            & ((self.top <= other.bottom) & (other.top <= self.bottom))
    }

    pub fn shrink(self, amount: f32) -> Rect
        ensures { result ≡ shrink self amount }
    {
        Rect {
            left: self.left + amount,
            top: self.top + amount,
            right: self.right - amount,
            bottom: self.bottom - amount,
        }
    }
}
