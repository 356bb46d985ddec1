// The public calls, in placer.rs's order: each answers the refusal of the least number that applies to its arguments or its answer, or what
// its rule gives.
ghost use Rattle.std.specs.Prelude.{◌≡◌};
ghost use Rattle.emath.specs.Steps.{tick};
ghost use Rattle.emath.specs.Refusals.{numbered, Says};
ghost use Rattle.region.specs.Regions.{zero_vec};
ghost use Rattle.region.specs.Refusals.{zero_rect, zero_pos};
ghost use Rattle.grid.specs.Refusals.{saved_outcome};
ghost use Rattle.placer.specs.Refusals.{zero_placer, placer_outcome};
ghost use Rattle.placer.specs.Rules.{align_size_within_rect, available_rect_before_wrap, available_size, justify_and_align, next_space, next_widget_position, next_widget_space_ignore_wrap_justify};
ghost use Rattle.placer.specs.Operations.{checked_new, checked_set_grid, checked_save_grid, checked_force_set_min_rect, checked_set_cursor, checked_align_size_within_rect, checked_available_rect_before_wrap, checked_available_size, checked_next_space, checked_next_widget_position, checked_justify_and_align, checked_advance_cursor, checked_advance_after_rects, checked_end_row, checked_set_row_height, checked_expand_to_include_rect, checked_expand_to_include_x, checked_expand_to_include_y, checked_next_widget_space_ignore_wrap_justify, checked_set_max_width, checked_set_max_height, checked_set_min_width, checked_set_min_height, align_size_within_rect_number, available_rect_before_wrap_number, available_size_number, justify_and_align_number, next_space_number, next_widget_position_number, next_widget_space_ignore_wrap_justify_number};

use crate::faults::{
    advance_fault, changed, changed_placer, end_row_fault, placer_fault, zero_placer,
};
use crate::{Placer, PlacerAnswer, limits, rules};
use emath::faults::{
    answer, extent_fault, fault_number, first_of, length_fault, outside, pair_fault, rect_fault,
    size_fault,
};
use emath::{Pos2, Rect, Refusal, Vec2};
use grid::faults::{direction_fault, grid_fault, saved_answer};
use grid::{GridLayout, Saved, SavedAnswer};
use layout::Layout;
use region::faults::{cursor_fault, placed};

impl Placer {
    pub fn new(max_rect: Rect, layout: Layout) -> Result<Placer, Refusal>
        ensures { placer_outcome (zero_placer layout) result ≡ checked_new tick max_rect layout }
    {
        let new = rules::new_placer(max_rect, layout);
        changed(rect_fault(max_rect), new)
    }

    // With the placer that is there then: the layout, no grid and a region of zeros where it is refused.
    pub fn new_answer(max_rect: Rect, layout: Layout) -> PlacerAnswer
        ensures { result ≡ checked_new tick max_rect layout }
    {
        let new = rules::new_placer(max_rect, layout);
        changed_placer(fault_number(rect_fault(max_rect)), zero_placer(layout), new)
    }

    pub fn set_grid(self, grid: GridLayout) -> Result<Placer, Refusal>
        ensures { placer_outcome self result ≡ checked_set_grid self grid }
    {
        let new = rules::set_grid(self, grid);
        let rest = first_of(grid_fault(grid), direction_fault(self.layout.main_dir));
        changed(first_of(placer_fault(self), rest), new)
    }

    pub fn save_grid(self) -> Result<Saved, Refusal>
        ensures { saved_outcome self.grid.prev_state result ≡ checked_save_grid self }
    {
        answer(placer_fault(self), rules::save_grid(self))
    }

    // With what is there then: the memory that the pass was given, and a clear flag, where it is refused.
    pub fn save_grid_answer(self) -> SavedAnswer
        ensures { result ≡ checked_save_grid self }
    {
        let number = fault_number(placer_fault(self));
        saved_answer(number, self.grid.prev_state, rules::save_grid(self))
    }

    pub fn force_set_min_rect(self, min_rect: Rect) -> Result<Placer, Refusal>
        ensures { placer_outcome self result ≡ checked_force_set_min_rect self min_rect }
    {
        let new = rules::force_set_min_rect(self, min_rect);
        changed(first_of(placer_fault(self), rect_fault(min_rect)), new)
    }

    pub fn set_cursor(self, cursor: Rect) -> Result<Placer, Refusal>
        ensures { placer_outcome self result ≡ checked_set_cursor self cursor }
    {
        let new = rules::set_cursor(self, cursor);
        changed(
            first_of(
                placer_fault(self),
                cursor_fault(self.layout.main_dir, cursor),
            ),
            new,
        )
    }

    pub fn align_size_within_rect(self, size: Vec2, outer: Rect) -> Result<Rect, Refusal>
        ensures answer { numbered result ≡ checked_align_size_within_rect tick self size outer }
        ensures says { Says zero_rect (numbered result) (align_size_within_rect_number tick self size outer) (align_size_within_rect tick self size outer) }
    {
        let rect = rules::align_size_within_rect(self, size, outer);
        let rest = first_of(size_fault(size), rect_fault(outer));
        placed(first_of(placer_fault(self), rest), rect)
    }

    pub fn available_rect_before_wrap(self) -> Result<Rect, Refusal>
        ensures answer { numbered result ≡ checked_available_rect_before_wrap tick self }
        ensures says { Says zero_rect (numbered result) (available_rect_before_wrap_number tick self) (available_rect_before_wrap tick self) }
    {
        placed(placer_fault(self), rules::available_rect_before_wrap(self))
    }

    pub fn available_size(self) -> Result<Vec2, Refusal>
        ensures answer { numbered result ≡ checked_available_size self }
        ensures says { Says zero_vec (numbered result) (available_size_number self) (available_size self) }
    {
        let size = rules::available_size(self);
        let after = outside(pair_fault(size.x, size.y));
        answer(placer_fault(self).or(after), size)
    }

    pub fn next_space(self, child_size: Vec2, item_spacing: Vec2) -> Result<Rect, Refusal>
        ensures answer { numbered result ≡ checked_next_space tick self child_size item_spacing }
        ensures says { Says zero_rect (numbered result) (next_space_number tick self child_size item_spacing) (next_space tick self child_size item_spacing) }
    {
        let frame = rules::next_space(self, child_size, item_spacing);
        let rest = first_of(
            size_fault(child_size),
            pair_fault(item_spacing.x, item_spacing.y),
        );
        placed(first_of(placer_fault(self), rest), frame)
    }

    pub fn next_widget_position(self) -> Result<Pos2, Refusal>
        ensures answer { numbered result ≡ checked_next_widget_position tick self }
        ensures says { Says zero_pos (numbered result) (next_widget_position_number tick self) (next_widget_position tick self) }
    {
        let pos = rules::next_widget_position(self);
        let after = outside(pair_fault(pos.x, pos.y));
        answer(placer_fault(self).or(after), pos)
    }

    pub fn justify_and_align(self, rect: Rect, child_size: Vec2) -> Result<Rect, Refusal>
        ensures answer { numbered result ≡ checked_justify_and_align tick self rect child_size }
        ensures says { Says zero_rect (numbered result) (justify_and_align_number tick self rect child_size) (justify_and_align tick self rect child_size) }
    {
        let widget = rules::justify_and_align(self, rect, child_size);
        let rest = first_of(rect_fault(rect), size_fault(child_size));
        placed(first_of(placer_fault(self), rest), widget)
    }

    pub fn advance_cursor(self, amount: f32) -> Result<Placer, Refusal>
        ensures { placer_outcome self result ≡ checked_advance_cursor self amount }
    {
        let new = rules::advance_cursor(self, amount);
        let rest = first_of(
            length_fault(amount),
            self.has_grid.then_some(Refusal::NotInGrid),
        );
        changed(first_of(placer_fault(self), rest), new)
    }

    pub fn advance_after_rects(
        self,
        frame_rect: Rect,
        widget_rect: Rect,
        item_spacing: Vec2,
    ) -> Result<Placer, Refusal>
        ensures { placer_outcome self result ≡ checked_advance_after_rects self frame_rect widget_rect item_spacing }
    {
        let new = rules::advance_after_rects(self, frame_rect, widget_rect, item_spacing);
        let room = first_of(
            pair_fault(item_spacing.x, item_spacing.y),
            advance_fault(self),
        );
        let rects = first_of(
            rect_fault(frame_rect),
            first_of(rect_fault(widget_rect), room),
        );
        changed(first_of(placer_fault(self), rects), new)
    }

    pub fn end_row(self, item_spacing: Vec2) -> Result<Placer, Refusal>
        ensures { placer_outcome self result ≡ checked_end_row self item_spacing }
    {
        let new = rules::end_row(self, item_spacing);
        let rest = first_of(
            pair_fault(item_spacing.x, item_spacing.y),
            end_row_fault(self),
        );
        changed(first_of(placer_fault(self), rest), new)
    }

    pub fn set_row_height(self, height: f32) -> Result<Placer, Refusal>
        ensures { placer_outcome self result ≡ checked_set_row_height self height }
    {
        let new = rules::set_row_height(self, height);
        changed(first_of(placer_fault(self), length_fault(height)), new)
    }

    pub fn expand_to_include_rect(self, rect: Rect) -> Result<Placer, Refusal>
        ensures { placer_outcome self result ≡ checked_expand_to_include_rect self rect }
    {
        let new = rules::expand_to_include_rect(self, rect);
        changed(first_of(placer_fault(self), rect_fault(rect)), new)
    }

    pub fn expand_to_include_x(self, x: f32) -> Result<Placer, Refusal>
        ensures { placer_outcome self result ≡ checked_expand_to_include_x self x }
    {
        let new = rules::expand_to_include_x(self, x);
        changed(first_of(placer_fault(self), length_fault(x)), new)
    }

    pub fn expand_to_include_y(self, y: f32) -> Result<Placer, Refusal>
        ensures { placer_outcome self result ≡ checked_expand_to_include_y self y }
    {
        let new = rules::expand_to_include_y(self, y);
        changed(first_of(placer_fault(self), length_fault(y)), new)
    }

    pub fn next_widget_space_ignore_wrap_justify(self, size: Vec2) -> Result<Rect, Refusal>
        ensures answer { numbered result ≡ checked_next_widget_space_ignore_wrap_justify tick self size }
        ensures says { Says zero_rect (numbered result) (next_widget_space_ignore_wrap_justify_number tick self size) (next_widget_space_ignore_wrap_justify tick self size) }
    {
        let rect = rules::next_widget_space_ignore_wrap_justify(self, size);
        placed(first_of(placer_fault(self), size_fault(size)), rect)
    }

    pub fn set_max_width(self, width: f32) -> Result<Placer, Refusal>
        ensures { placer_outcome self result ≡ checked_set_max_width tick self width }
    {
        let new = limits::set_max_width(self, width);
        changed(first_of(placer_fault(self), extent_fault(width)), new)
    }

    pub fn set_max_height(self, height: f32) -> Result<Placer, Refusal>
        ensures { placer_outcome self result ≡ checked_set_max_height tick self height }
    {
        let new = limits::set_max_height(self, height);
        changed(first_of(placer_fault(self), extent_fault(height)), new)
    }

    pub fn set_min_width(self, width: f32) -> Result<Placer, Refusal>
        ensures { placer_outcome self result ≡ checked_set_min_width tick self width }
    {
        let new = limits::set_min_width(self, width);
        changed(first_of(placer_fault(self), length_fault(width)), new)
    }

    pub fn set_min_height(self, height: f32) -> Result<Placer, Refusal>
        ensures { placer_outcome self result ≡ checked_set_min_height tick self height }
    {
        let new = limits::set_min_height(self, height);
        changed(first_of(placer_fault(self), length_fault(height)), new)
    }
}
