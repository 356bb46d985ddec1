// What a placer says of itself.
ghost use Rattle.std.specs.Prelude.{◌≡◌};
ghost use Rattle.layout.specs.Layouts.{prefer_right_to_left};

use crate::Placer;
use emath::Rect;
use grid::GridLayout;
use layout::Layout;

impl Placer {
    // The grid beside the flag.
    pub fn grid(self) -> GridLayout
        ensures { result ≡ self.grid }
    {
        self.grid
    }

    pub fn is_grid(self) -> bool
        ensures { result ≡ self.has_grid }
    {
        self.has_grid
    }

    pub fn layout(self) -> Layout
        ensures { result ≡ self.layout }
    {
        self.layout
    }

    pub fn prefer_right_to_left(self) -> bool
        ensures { result ≡ prefer_right_to_left self.layout }
    {
        self.layout.prefer_right_to_left()
    }

    pub fn min_rect(self) -> Rect
        ensures { result ≡ self.region.min_rect }
    {
        self.region.min_rect
    }

    pub fn max_rect(self) -> Rect
        ensures { result ≡ self.region.max_rect }
    {
        self.region.max_rect
    }

    pub fn cursor(self) -> Rect
        ensures { result ≡ self.region.cursor }
    {
        self.region.cursor
    }
}
