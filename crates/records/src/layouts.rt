// H (RULES 6.8). Fields count from 0 here.
ghost use Rattle.std.specs.Prelude.{◌≡◌, ◌<◌};
ghost use Rattle.records.specs.Records.{direction_of, align_of, layout_fits, layout_in, rect_in, pair_fits, pair_in, heading_fits};

use crate::parts::{byte, count, count_value, ends, is_count, is_length, length, length_value};
use emath::{Align, Rect, Vec2};
use layout::Layout;
use region::Direction;

// 0 LeftToRight, 1 RightToLeft, 2 TopDown, 3 BottomUp.
#[tactic(auto, unfolding(crate::specs::Records::direction_of))]
fn direction_of(n: usize) -> Direction
    ensures { result ≡ direction_of n }
{
    match n {
        0 => Direction::LeftToRight,
        1 => Direction::RightToLeft,
        2 => Direction::TopDown,
        _ => Direction::BottomUp,
    }
}

// 0 Min, 1 Center, 2 Max.
#[tactic(auto, unfolding(crate::specs::Records::align_of))]
fn align_of(n: usize) -> Align
    ensures { result ≡ align_of n }
{
    match n {
        0 => Align::Min,
        1 => Align::Center,
        _ => Align::Max,
    }
}

// Fields 0 to 5.
#[tactic(auto, unfolding(crate::specs::Records::layout_fits))]
fn layout_fits(text: &[u8]) -> bool
    ensures { result ≡ layout_fits text.now }
{
    let direction = is_count(count(text, 0, 3), 0);
    let wrap = is_count(count(text, 1, 1), 0);
    let main_align = is_count(count(text, 2, 2), 0);
    let main_justify = is_count(count(text, 3, 1), 0);
    let cross_align = is_count(count(text, 4, 2), 0);
    let cross_justify = is_count(count(text, 5, 1), 0);
    direction & wrap & main_align & main_justify & cross_align & cross_justify
}

#[tactic(auto, unfolding(crate::specs::Records::layout_in))]
pub fn layout_in(text: &[u8]) -> Layout
    ensures { result ≡ layout_in text.now }
{
    let direction = count_value(count(text, 0, 3));
    let wrap = count_value(count(text, 1, 1));
    let main_align = count_value(count(text, 2, 2));
    let main_justify = count_value(count(text, 3, 1));
    let cross_align = count_value(count(text, 4, 2));
    let cross_justify = count_value(count(text, 5, 1));
    Layout {
        main_dir: direction_of(direction),
        main_wrap: wrap == 1,
        main_align: align_of(main_align),
        main_justify: main_justify == 1,
        cross_align: align_of(cross_align),
        cross_justify: cross_justify == 1,
    }
}

// Fields i and i + 1.
#[tactic(auto, unfolding(crate::specs::Records::pair_fits))]
pub fn pair_fits(text: &[u8], i: usize) -> bool
    requires { i < 11 }
    ensures { result ≡ pair_fits text.now i }
{
    is_length(length(text, i)) & is_length(length(text, i + 1))
}

#[tactic(auto, unfolding(crate::specs::Records::pair_in))]
pub fn pair_in(text: &[u8], i: usize) -> Vec2
    requires { i < 11 }
    ensures { result ≡ pair_in text.now i }
{
    Vec2 {
        x: length_value(length(text, i)),
        y: length_value(length(text, i + 1)),
    }
}

// Fields 6 to 9.
#[tactic(auto, unfolding(crate::specs::Records::rect_in))]
pub fn rect_in(text: &[u8]) -> Rect
    ensures { result ≡ rect_in text.now }
{
    let min = pair_in(text, 6);
    let max = pair_in(text, 8);
    Rect {
        left: min.x,
        top: min.y,
        right: max.x,
        bottom: max.y,
    }
}

#[tactic(auto, unfolding(crate::specs::Records::heading_fits))]
pub fn heading_fits(text: &[u8]) -> bool
    ensures { result ≡ heading_fits text.now }
{
    let edges = pair_fits(text, 6) & pair_fits(text, 8);
    let fields = layout_fits(text) & edges & pair_fits(text, 10) & ends(text, 12);
    (byte(text, 0) == b'H') & fields
}
