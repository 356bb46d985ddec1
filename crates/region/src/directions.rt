// What a Direction says of itself.
ghost use Rattle.std.specs.Prelude.{◌≡◌, not};
ghost use Rattle.region.specs.Directions.{is_horizontal};

use crate::Direction;

impl Direction {
    pub fn is_horizontal(self) -> bool
        ensures { result ≡ is_horizontal self }
    {
        match self {
            Direction::LeftToRight | Direction::RightToLeft => true,
            Direction::TopDown | Direction::BottomUp => false,
        }
    }

    pub fn is_vertical(self) -> bool
        ensures { result ≡ not (is_horizontal self) }
    {
        !self.is_horizontal()
    }
}
