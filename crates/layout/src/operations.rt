// The public calls, in layout.rs's order: each answers the refusal of the least number that applies to its arguments or its answer, or what its
// rule gives.
ghost use Rattle.std.specs.Prelude.{◌≡◌};
ghost use Rattle.emath.specs.Steps.{tick};
ghost use Rattle.emath.specs.Refusals.{numbered, Says};
ghost use Rattle.region.specs.Regions.{zero_vec};
ghost use Rattle.region.specs.Refusals.{zero_rect, zero_pos, zero_region, region_outcome, cursor_outcome};
ghost use Rattle.layout.specs.Rules.{align_size_within_rect, available_from_cursor_max_rect, available_rect_before_wrap, available_size, initial_cursor, justify_and_align, next_frame, next_frame_ignore_wrap, next_widget_position, next_widget_space_ignore_wrap_justify};
ghost use Rattle.layout.specs.Operations.{checked_align_size_within_rect, checked_initial_cursor, checked_region_from_max_rect, checked_available_rect_before_wrap, checked_available_size, checked_available_from_cursor_max_rect, checked_next_frame, checked_next_frame_ignore_wrap, checked_justify_and_align, checked_next_widget_space_ignore_wrap_justify, checked_next_widget_position, checked_advance_cursor, checked_advance_after_rects, checked_end_row, checked_set_row_height, align_size_within_rect_number, available_from_cursor_max_rect_number, available_rect_before_wrap_number, available_size_number, initial_cursor_number, justify_and_align_number, next_frame_ignore_wrap_number, next_frame_number, next_widget_position_number, next_widget_space_ignore_wrap_justify_number};

use crate::{Layout, available, cursors, frames, widgets};
use emath::faults::{
    answer, fault_number, first_of, length_fault, outside, pair_fault, rect_fault, size_fault,
};
use emath::{Pos2, Rect, Refusal, Vec2};
use region::faults::{changed, changed_region, cursor_fault, placed, region_fault, zero_region};
use region::{Region, RegionAnswer};

impl Layout {
    pub fn align_size_within_rect(self, size: Vec2, outer: Rect) -> Result<Rect, Refusal>
        ensures answer { numbered result ≡ checked_align_size_within_rect tick self size outer }
        ensures says { Says zero_rect (numbered result) (align_size_within_rect_number tick self size outer) (align_size_within_rect tick self size outer) }
    {
        let rect = widgets::align_size_within_rect(self, size, outer);
        placed(first_of(size_fault(size), rect_fault(outer)), rect)
    }

    pub fn initial_cursor(self, max_rect: Rect) -> Result<Rect, Refusal>
        ensures answer { numbered result ≡ checked_initial_cursor self max_rect }
        ensures says { Says zero_rect (numbered result) (initial_cursor_number self max_rect) (initial_cursor self.main_dir max_rect) }
    {
        let cursor = available::initial_cursor(self.main_dir, max_rect);
        let after = outside(cursor_fault(self.main_dir, cursor));
        answer(rect_fault(max_rect).or(after), cursor)
    }

    pub fn region_from_max_rect(self, max_rect: Rect) -> Result<Region, Refusal>
        ensures { region_outcome zero_region result ≡ checked_region_from_max_rect tick self max_rect }
    {
        let new = widgets::region_from_max_rect(self, max_rect);
        changed(self.main_dir, rect_fault(max_rect), new)
    }

    // With the region that is there then: zeros where it is refused.
    pub fn region_from_max_rect_answer(self, max_rect: Rect) -> RegionAnswer
        ensures { result ≡ checked_region_from_max_rect tick self max_rect }
    {
        let new = widgets::region_from_max_rect(self, max_rect);
        let before = fault_number(rect_fault(max_rect));
        changed_region(self.main_dir, before, zero_region(), new)
    }

    pub fn available_rect_before_wrap(self, region: Region) -> Result<Rect, Refusal>
        ensures answer { numbered result ≡ checked_available_rect_before_wrap self region }
        ensures says { Says zero_rect (numbered result) (available_rect_before_wrap_number self region) (available_rect_before_wrap self.main_dir region) }
    {
        let rect = available::available_rect_before_wrap(self.main_dir, region);
        placed(region_fault(self.main_dir, region), rect)
    }

    pub fn available_size(self, region: Region) -> Result<Vec2, Refusal>
        ensures answer { numbered result ≡ checked_available_size self region }
        ensures says { Says zero_vec (numbered result) (available_size_number self region) (available_size self region) }
    {
        let size = available::available_size(self, region);
        let after = outside(pair_fault(size.x, size.y));
        answer(region_fault(self.main_dir, region).or(after), size)
    }

    pub fn available_from_cursor_max_rect(
        self,
        cursor: Rect,
        max_rect: Rect,
    ) -> Result<Rect, Refusal>
        ensures answer { numbered result ≡ checked_available_from_cursor_max_rect self cursor max_rect }
        ensures says { Says zero_rect (numbered result) (available_from_cursor_max_rect_number self cursor max_rect) (available_from_cursor_max_rect self.main_dir cursor max_rect) }
    {
        let rect = available::available_from_cursor_max_rect(self.main_dir, cursor, max_rect);
        placed(
            first_of(cursor_fault(self.main_dir, cursor), rect_fault(max_rect)),
            rect,
        )
    }

    pub fn next_frame(
        self,
        region: Region,
        child_size: Vec2,
        spacing: Vec2,
    ) -> Result<Rect, Refusal>
        ensures answer { numbered result ≡ checked_next_frame tick self region child_size spacing }
        ensures says { Says zero_rect (numbered result) (next_frame_number tick self region child_size spacing) (next_frame tick self region child_size spacing) }
    {
        let frame = frames::next_frame(self, region, child_size, spacing);
        let sizes = first_of(size_fault(child_size), pair_fault(spacing.x, spacing.y));
        placed(first_of(region_fault(self.main_dir, region), sizes), frame)
    }

    pub fn next_frame_ignore_wrap(self, region: Region, child_size: Vec2) -> Result<Rect, Refusal>
        ensures answer { numbered result ≡ checked_next_frame_ignore_wrap tick self region child_size }
        ensures says { Says zero_rect (numbered result) (next_frame_ignore_wrap_number tick self region child_size) (next_frame_ignore_wrap tick self region child_size) }
    {
        let frame = frames::next_frame_ignore_wrap(self, region, child_size);
        placed(
            first_of(region_fault(self.main_dir, region), size_fault(child_size)),
            frame,
        )
    }

    pub fn justify_and_align(self, frame: Rect, child_size: Vec2) -> Result<Rect, Refusal>
        ensures answer { numbered result ≡ checked_justify_and_align tick self frame child_size }
        ensures says { Says zero_rect (numbered result) (justify_and_align_number tick self frame child_size) (justify_and_align tick self frame child_size) }
    {
        let widget = widgets::justify_and_align(self, frame, child_size);
        placed(first_of(rect_fault(frame), size_fault(child_size)), widget)
    }

    pub fn next_widget_space_ignore_wrap_justify(
        self,
        region: Region,
        size: Vec2,
    ) -> Result<Rect, Refusal>
        ensures answer { numbered result ≡ checked_next_widget_space_ignore_wrap_justify tick self region size }
        ensures says { Says zero_rect (numbered result) (next_widget_space_ignore_wrap_justify_number tick self region size) (next_widget_space_ignore_wrap_justify tick self region size) }
    {
        let rect = widgets::next_widget_space_ignore_wrap_justify(self, region, size);
        placed(
            first_of(region_fault(self.main_dir, region), size_fault(size)),
            rect,
        )
    }

    pub fn next_widget_position(self, region: Region) -> Result<Pos2, Refusal>
        ensures answer { numbered result ≡ checked_next_widget_position tick self region }
        ensures says { Says zero_pos (numbered result) (next_widget_position_number tick self region) (next_widget_position tick self region) }
    {
        let pos = widgets::next_widget_position(self, region);
        let after = outside(pair_fault(pos.x, pos.y));
        answer(region_fault(self.main_dir, region).or(after), pos)
    }

    pub fn advance_cursor(self, region: Region, amount: f32) -> Result<Region, Refusal>
        ensures { region_outcome region result ≡ checked_advance_cursor self region amount }
    {
        let new = cursors::advance_cursor(self.main_dir, region, amount);
        let before = first_of(region_fault(self.main_dir, region), length_fault(amount));
        changed(self.main_dir, before, new)
    }

    pub fn advance_after_rects(
        self,
        cursor: Rect,
        frame_rect: Rect,
        widget_rect: Rect,
        item_spacing: Vec2,
    ) -> Result<Rect, Refusal>
        ensures { cursor_outcome cursor result ≡ checked_advance_after_rects self cursor frame_rect widget_rect item_spacing }
    {
        let new = cursors::advance_after_rects(self, cursor, frame_rect, widget_rect, item_spacing);
        let rest = first_of(
            rect_fault(widget_rect),
            pair_fault(item_spacing.x, item_spacing.y),
        );
        let rects = first_of(rect_fault(frame_rect), rest);
        let before = first_of(cursor_fault(self.main_dir, cursor), rects);
        let after = outside(cursor_fault(self.main_dir, new));
        answer(before.or(after), new)
    }

    pub fn end_row(self, region: Region, spacing: Vec2) -> Result<Region, Refusal>
        ensures { region_outcome region result ≡ checked_end_row self region spacing }
    {
        let new = cursors::end_row(self, region, spacing);
        let before = first_of(
            region_fault(self.main_dir, region),
            pair_fault(spacing.x, spacing.y),
        );
        changed(self.main_dir, before, new)
    }

    pub fn set_row_height(self, region: Region, height: f32) -> Result<Region, Refusal>
        ensures { region_outcome region result ≡ checked_set_row_height self region height }
    {
        let new = cursors::set_row_height(self, region, height);
        let before = first_of(region_fault(self.main_dir, region), length_fault(height));
        changed(self.main_dir, before, new)
    }
}
