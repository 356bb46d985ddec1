// The values of crates region and layout.
ghost use Rattle.std.specs.Prelude.{◌≡◌, ◌≤◌, length};

use crate::packing::{
    CROSS_ALIGN, CROSS_JUSTIFY, CURSOR, Counts, Lengths, MAIN_ALIGN, MAIN_DIR, MAIN_JUSTIFY,
    MAIN_WRAP, MAX_RECT, MIN_RECT, put_at, rect_at,
};
use crate::rects::{Numbers, align_of};
use layout::Layout;
use region::{Direction, Region};

// No From: each number gives a direction, and neither type is of this crate.
pub fn direction_of(n: usize) -> Direction {
    match n {
        0 => Direction::LeftToRight,
        1 => Direction::RightToLeft,
        2 => Direction::TopDown,
        _ => Direction::BottomUp,
    }
}

pub fn layout_of(counts: &Counts) -> Layout {
    Layout {
        main_dir: direction_of(counts[MAIN_DIR]),
        main_wrap: counts[MAIN_WRAP] != 0,
        main_align: align_of(counts[MAIN_ALIGN]),
        main_justify: counts[MAIN_JUSTIFY] != 0,
        cross_align: align_of(counts[CROSS_ALIGN]),
        cross_justify: counts[CROSS_JUSTIFY] != 0,
    }
}

// Of a state, or of a heading.
pub fn put_layout(counts: &mut [usize], l: Layout)
    requires { 6 ≤ length counts.old }
    ensures { length counts.new ≡ length counts.old }
{
    counts[MAIN_DIR] = l.main_dir as usize;
    counts[MAIN_WRAP] = l.main_wrap as usize;
    counts[MAIN_ALIGN] = l.main_align as usize;
    counts[MAIN_JUSTIFY] = l.main_justify as usize;
    counts[CROSS_ALIGN] = l.cross_align as usize;
    counts[CROSS_JUSTIFY] = l.cross_justify as usize;
}

pub fn region_of(lengths: &Lengths) -> Region {
    Region {
        min_rect: rect_at(lengths, MIN_RECT),
        max_rect: rect_at(lengths, MAX_RECT),
        cursor: rect_at(lengths, CURSOR),
    }
}

pub fn put_region(lengths: &mut Lengths, g: Region) {
    put_at(lengths, MIN_RECT, &g.min_rect.numbers());
    put_at(lengths, MAX_RECT, &g.max_rect.numbers());
    put_at(lengths, CURSOR, &g.cursor.numbers());
}
