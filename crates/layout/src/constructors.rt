// Layout's constructors and builders.
ghost use Rattle.std.specs.Prelude.{◌≡◌, true, false};
ghost use Rattle.layout.specs.Layouts.{plain, centered_and_justified, with_main_wrap, with_main_align, with_cross_align, with_main_justify, with_cross_justify};
ghost use Rattle.region.specs.declared.Direction.TheVariants.{LeftToRight, RightToLeft, TopDown, BottomUp};
ghost use Rattle.emath.specs.declared.Align.TheVariants.{Min};

use crate::Layout;
use emath::Align;
use region::Direction;

impl Layout {
    pub fn default() -> Layout
        ensures { result ≡ plain TopDown Min }
    {
        Layout::top_down(Align::LEFT)
    }

    pub fn left_to_right(valign: Align) -> Layout
        ensures { result ≡ plain LeftToRight valign }
    {
        Layout::from_main_dir_and_cross_align(Direction::LeftToRight, valign)
    }

    pub fn right_to_left(valign: Align) -> Layout
        ensures { result ≡ plain RightToLeft valign }
    {
        Layout::from_main_dir_and_cross_align(Direction::RightToLeft, valign)
    }

    pub fn top_down(halign: Align) -> Layout
        ensures { result ≡ plain TopDown halign }
    {
        Layout::from_main_dir_and_cross_align(Direction::TopDown, halign)
    }

    pub fn top_down_justified(halign: Align) -> Layout
        ensures { result ≡ with_cross_justify (plain TopDown halign) true }
    {
        Layout::top_down(halign).with_cross_justify(true)
    }

    pub fn bottom_up(halign: Align) -> Layout
        ensures { result ≡ plain BottomUp halign }
    {
        Layout::from_main_dir_and_cross_align(Direction::BottomUp, halign)
    }

    pub fn from_main_dir_and_cross_align(main_dir: Direction, cross_align: Align) -> Layout
        ensures { result ≡ plain main_dir cross_align }
    {
        Layout {
            main_dir,
            main_wrap: false,
            main_align: Align::Center,
            main_justify: false,
            cross_align,
            cross_justify: false,
        }
    }

    pub fn centered_and_justified(main_dir: Direction) -> Layout
        ensures { result ≡ centered_and_justified main_dir }
    {
        Layout {
            main_justify: true,
            cross_justify: true,
            ..Layout::from_main_dir_and_cross_align(main_dir, Align::Center)
        }
    }

    pub fn with_main_wrap(self, main_wrap: bool) -> Layout
        ensures { result ≡ with_main_wrap self main_wrap }
    {
        Layout { main_wrap, ..self }
    }

    pub fn with_main_align(self, main_align: Align) -> Layout
        ensures { result ≡ with_main_align self main_align }
    {
        Layout { main_align, ..self }
    }

    pub fn with_cross_align(self, cross_align: Align) -> Layout
        ensures { result ≡ with_cross_align self cross_align }
    {
        Layout {
            cross_align,
            ..self
        }
    }

    pub fn with_main_justify(self, main_justify: bool) -> Layout
        ensures { result ≡ with_main_justify self main_justify }
    {
        Layout {
            main_justify,
            ..self
        }
    }

    pub fn with_cross_justify(self, cross_justify: bool) -> Layout
        ensures { result ≡ with_cross_justify self cross_justify }
    {
        Layout {
            cross_justify,
            ..self
        }
    }
}
