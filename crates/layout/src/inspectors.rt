// What a Layout says of itself.
ghost use Rattle.std.specs.Prelude.{◌≡◌, not};
ghost use Rattle.region.specs.Directions.{is_horizontal};
ghost use Rattle.layout.specs.Layouts.{prefer_right_to_left, horizontal_placement, horizontal_align, vertical_align, align2, horizontal_justify, vertical_justify};

use crate::Layout;
use emath::{Align, Align2};
use region::Direction;

impl Layout {
    pub fn main_dir(self) -> Direction
        ensures { result ≡ self.main_dir }
    {
        self.main_dir
    }

    pub fn main_wrap(self) -> bool
        ensures { result ≡ self.main_wrap }
    {
        self.main_wrap
    }

    pub fn cross_align(self) -> Align
        ensures { result ≡ self.cross_align }
    {
        self.cross_align
    }

    pub fn cross_justify(self) -> bool
        ensures { result ≡ self.cross_justify }
    {
        self.cross_justify
    }

    pub fn is_horizontal(self) -> bool
        ensures { result ≡ is_horizontal self.main_dir }
    {
        self.main_dir.is_horizontal()
    }

    pub fn is_vertical(self) -> bool
        ensures { result ≡ not (is_horizontal self.main_dir) }
    {
        self.main_dir.is_vertical()
    }

    pub fn prefer_right_to_left(self) -> bool
        ensures { result ≡ prefer_right_to_left self }
    {
        (self.main_dir == Direction::RightToLeft)
            | (self.is_vertical() & (self.cross_align == Align::Max))
    }

    pub fn horizontal_placement(self) -> Align
        ensures { result ≡ horizontal_placement self }
    {
        match self.main_dir {
            Direction::LeftToRight => Align::LEFT,
            Direction::RightToLeft => Align::RIGHT,
            Direction::TopDown | Direction::BottomUp => self.cross_align,
        }
    }

    pub fn horizontal_align(self) -> Align
        ensures { result ≡ horizontal_align self }
    {
        if self.is_horizontal() {
            self.main_align
        } else {
            self.cross_align
        }
    }

    pub fn vertical_align(self) -> Align
        ensures { result ≡ vertical_align self }
    {
        if self.is_vertical() {
            self.main_align
        } else {
            self.cross_align
        }
    }

    pub fn align2(self) -> Align2
        ensures { result ≡ align2 self }
    {
        Align2 {
            x: self.horizontal_align(),
            y: self.vertical_align(),
        }
    }

    pub fn horizontal_justify(self) -> bool
        ensures { result ≡ horizontal_justify self }
    {
        if self.is_horizontal() {
            self.main_justify
        } else {
            self.cross_justify
        }
    }

    pub fn vertical_justify(self) -> bool
        ensures { result ≡ vertical_justify self }
    {
        if self.is_vertical() {
            self.main_justify
        } else {
            self.cross_justify
        }
    }
}
