// The values of crate emath.
use crate::packing::rect_at;
use emath::{Align, Align2, Pos2, Rangef, Rect, Vec2};

// A value as an array of its numbers.
pub trait Numbers<const N: usize>: Copy {
    fn numbers(self) -> [f32; N];
}

impl Numbers<4> for Rect {
    fn numbers(self) -> [f32; 4] {
        [self.left, self.top, self.right, self.bottom]
    }
}

impl Numbers<2> for Vec2 {
    fn numbers(self) -> [f32; 2] {
        [self.x, self.y]
    }
}

impl Numbers<2> for Pos2 {
    fn numbers(self) -> [f32; 2] {
        [self.x, self.y]
    }
}

impl Numbers<2> for Rangef {
    fn numbers(self) -> [f32; 2] {
        [self.min, self.max]
    }
}

// The length, and 1 where there is one.
impl Numbers<2> for Option<f32> {
    fn numbers(self) -> [f32; 2] {
        self.map_or([0.0, 0.0], |x| [x, 1.0])
    }
}

pub fn rect_of(v: &[f32; 4]) -> Rect {
    rect_at(v, 0)
}

// No From: each number gives an align, and neither type is of this crate.
pub fn align_of(n: usize) -> Align {
    match n {
        0 => Align::Min,
        1 => Align::Center,
        _ => Align::Max,
    }
}

pub fn align2_of(across: usize, down: usize) -> Align2 {
    Align2 {
        x: align_of(across),
        y: align_of(down),
    }
}

// Its two aligns, as 3 times the one across and the one down.
pub fn code_of(a: Align2) -> u8 {
    3 * (a.x as u8) + a.y as u8
}
