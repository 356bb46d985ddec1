// The public calls, in grid.rs's order: each answers the refusal of the least number that applies to its arguments or its answer, or what its
// rule gives.
ghost use Rattle.std.specs.Prelude.{◌≡◌, [], ◌∷◌, ltb};
ghost use Rattle.emath.specs.Numbers as number;
ghost use Rattle.emath.specs.Steps.{tick};
ghost use Rattle.emath.specs.Domain.{finite};
ghost use Rattle.emath.specs.Rectangles.{zero_f};
ghost use Rattle.emath.specs.Refusals.{when, least, pair_fault, size_fault, fault_number, numbered, Says};
ghost use Rattle.region.specs.Refusals.{zero_rect, region_fault};
ghost use Rattle.grid.specs.Memories.{col_width, full_width, row_height};
ghost use Rattle.grid.specs.Grids.{empty_grid, align_size_within_rect, available_rect, next_cell, prev_col_width, prev_row_height};
ghost use Rattle.grid.specs.Refusals.{memory_fault, max_cell_fault, grid_fault, direction_fault, memory_outcome, grid_outcome, moved_outcome, saved_outcome, SaysEntry};
ghost use Rattle.grid.specs.Operations.{checked_set_min_col_width, checked_set_min_row_height, checked_col_width, checked_row_height, checked_full_width, checked_new, checked_prev_col_width, checked_prev_row_height, checked_available_rect, checked_next_cell, checked_align_size_within_rect, checked_advance, checked_end_row, checked_save, align_size_within_rect_number, available_rect_number, full_width_number, next_cell_number};

use crate::faults::{
    direction_fault, grid_answer, grid_fault, max_cell_fault, memory_fault, moved_fault,
    saved_answer,
};
use crate::{
    GridAnswer, GridLayout, MAX_COLS, MAX_ROWS, Memory, Moved, Saved, SavedAnswer, grids, memories,
};
use emath::domain::is_finite;
use emath::faults::{
    answer, extent_fault, fault_number, first_of, length_fault, outside, pair_fault, rect_fault,
    size_fault,
};
use emath::{Rect, Refusal, Vec2};
use region::faults::{cursor_fault, placed, region_fault};
use region::{Direction, Region};

impl Memory {
    pub fn set_min_col_width(self, col: usize, width: f32) -> Result<Memory, Refusal>
        ensures { memory_outcome self result ≡ checked_set_min_col_width self col width }
    {
        let new = memories::set_min_col_width(self, col, width);
        let rest = first_of(
            extent_fault(width),
            (MAX_COLS <= col).then_some(Refusal::GridFull),
        );
        let before = first_of(memory_fault(self), rest);
        answer(before.or(outside(memory_fault(new))), new)
    }

    pub fn set_min_row_height(self, row: usize, height: f32) -> Result<Memory, Refusal>
        ensures { memory_outcome self result ≡ checked_set_min_row_height self row height }
    {
        let new = memories::set_min_row_height(self, row, height);
        let rest = first_of(
            extent_fault(height),
            (MAX_ROWS <= row).then_some(Refusal::GridFull),
        );
        let before = first_of(memory_fault(self), rest);
        answer(before.or(outside(memory_fault(new))), new)
    }

    pub fn col_width(self, col: usize) -> Result<Option<f32>, Refusal>
        ensures answer { numbered result ≡ checked_col_width self col }
        ensures says { SaysEntry (numbered result) (memory_fault self) (col_width self col zero_f) }
    {
        let width = memories::col_width(self, col, 0.0);
        answer(memory_fault(self), (col < self.cols).then_some(width))
    }

    pub fn row_height(self, row: usize) -> Result<Option<f32>, Refusal>
        ensures answer { numbered result ≡ checked_row_height self row }
        ensures says { SaysEntry (numbered result) (memory_fault self) (row_height self row zero_f) }
    {
        let height = memories::row_height(self, row, 0.0);
        answer(memory_fault(self), (row < self.rows).then_some(height))
    }

    pub fn full_width(self, x_spacing: f32) -> Result<f32, Refusal>
        ensures answer { numbered result ≡ checked_full_width self x_spacing }
        ensures says { Says zero_f (numbered result) (full_width_number self x_spacing) (full_width self x_spacing) }
    {
        let width = memories::full_width(self, x_spacing);
        let before = first_of(memory_fault(self), length_fault(x_spacing));
        answer(before.or(outside(length_fault(width))), width)
    }
}

// Of what `new` is given; `remembered` is the memory's fault.
fn new_fault(
    main_dir: Direction,
    region: Region,
    remembered: Option<Refusal>,
    spacing: Vec2,
    min_cell_size: Vec2,
    max_cell_size: Vec2,
    start_row: usize,
) -> Option<Refusal>
    ensures { fault_number result ≡ least (region_fault main_dir region ∷ fault_number remembered ∷ pair_fault spacing.x spacing.y ∷ size_fault min_cell_size ∷ max_cell_fault max_cell_size ∷ direction_fault main_dir ∷ when (ltb 128 start_row) number.grid_full ∷ []) }
{
    let place = first_of(
        direction_fault(main_dir),
        (MAX_ROWS < start_row).then_some(Refusal::GridFull),
    );
    let most = first_of(max_cell_fault(max_cell_size), place);
    let least = first_of(size_fault(min_cell_size), most);
    let options = first_of(pair_fault(spacing.x, spacing.y), least);
    first_of(
        region_fault(main_dir, region),
        first_of(remembered, options),
    )
}

impl GridLayout {
    // `known` says whether `memory` is there: C gives them apart, and a pass hands the memory back, known or not (RULES 8.19). `num_columns` is
    // 0 where it is not named.
    pub fn new(
        main_dir: Direction,
        region: Region,
        known: bool,
        memory: Memory,
        sizing_pass: bool,
        spacing: Vec2,
        min_cell_size: Vec2,
        max_cell_size: Vec2,
        num_columns: usize,
        start_row: usize,
    ) -> Result<GridLayout, Refusal>
        ensures { grid_outcome empty_grid result ≡ checked_new main_dir region known memory sizing_pass spacing min_cell_size max_cell_size num_columns start_row }
    {
        let new = grids::new_grid(
            region,
            known,
            memory,
            sizing_pass,
            spacing,
            min_cell_size,
            max_cell_size,
            num_columns,
            start_row,
        );
        let before = new_fault(
            main_dir,
            region,
            memory_fault(grids::known_memory(known, memory)),
            spacing,
            min_cell_size,
            max_cell_size,
            start_row,
        );
        answer(before.or(outside(grid_fault(new))), new)
    }

    // With the grid that is there then: an empty one where it is refused.
    pub fn new_answer(
        main_dir: Direction,
        region: Region,
        known: bool,
        memory: Memory,
        sizing_pass: bool,
        spacing: Vec2,
        min_cell_size: Vec2,
        max_cell_size: Vec2,
        num_columns: usize,
        start_row: usize,
    ) -> GridAnswer
        ensures { result ≡ checked_new main_dir region known memory sizing_pass spacing min_cell_size max_cell_size num_columns start_row }
    {
        let new = grids::new_grid(
            region,
            known,
            memory,
            sizing_pass,
            spacing,
            min_cell_size,
            max_cell_size,
            num_columns,
            start_row,
        );
        let before = new_fault(
            main_dir,
            region,
            memory_fault(grids::known_memory(known, memory)),
            spacing,
            min_cell_size,
            max_cell_size,
            start_row,
        );
        let number = fault_number(before.or(outside(grid_fault(new))));
        grid_answer(number, grids::empty_grid(), new)
    }

    pub fn prev_col_width(self, col: usize) -> Result<f32, Refusal>
        ensures answer { numbered result ≡ checked_prev_col_width self col }
        ensures says { Says zero_f (numbered result) (grid_fault self) (prev_col_width self col) }
    {
        answer(grid_fault(self), grids::prev_col_width(self, col))
    }

    pub fn prev_row_height(self, row: usize) -> Result<f32, Refusal>
        ensures answer { numbered result ≡ checked_prev_row_height self row }
        ensures says { Says zero_f (numbered result) (grid_fault self) (prev_row_height self row) }
    {
        answer(grid_fault(self), grids::prev_row_height(self, row))
    }

    pub fn wrap_text(self) -> bool
        ensures { result ≡ finite self.max_cell_size.x }
    {
        is_finite(self.max_cell_size.x)
    }

    pub fn available_rect(self, main_dir: Direction, region: Region) -> Result<Rect, Refusal>
        ensures answer { numbered result ≡ checked_available_rect self main_dir region }
        ensures says { Says zero_rect (numbered result) (available_rect_number self main_dir region) (available_rect self region) }
    {
        let rect = grids::available_rect(self, region);
        let rest = first_of(region_fault(main_dir, region), direction_fault(main_dir));
        placed(first_of(grid_fault(self), rest), rect)
    }

    pub fn next_cell(
        self,
        main_dir: Direction,
        cursor: Rect,
        child_size: Vec2,
    ) -> Result<Rect, Refusal>
        ensures answer { numbered result ≡ checked_next_cell tick self main_dir cursor child_size }
        ensures says { Says zero_rect (numbered result) (next_cell_number tick self main_dir cursor child_size) (next_cell tick self cursor child_size) }
    {
        let frame = grids::next_cell(self, cursor, child_size);
        let sizes = first_of(size_fault(child_size), direction_fault(main_dir));
        let rest = first_of(cursor_fault(main_dir, cursor), sizes);
        placed(first_of(grid_fault(self), rest), frame)
    }

    pub fn align_size_within_rect(self, size: Vec2, frame: Rect) -> Result<Rect, Refusal>
        ensures answer { numbered result ≡ checked_align_size_within_rect tick self size frame }
        ensures says { Says zero_rect (numbered result) (align_size_within_rect_number tick self size frame) (align_size_within_rect tick size frame) }
    {
        let rect = grids::align_size_within_rect(size, frame);
        let rest = first_of(size_fault(size), rect_fault(frame));
        placed(first_of(grid_fault(self), rest), rect)
    }

    pub fn justify_and_align(self, frame: Rect, size: Vec2) -> Result<Rect, Refusal>
        ensures answer { numbered result ≡ checked_align_size_within_rect tick self size frame }
        ensures says { Says zero_rect (numbered result) (align_size_within_rect_number tick self size frame) (align_size_within_rect tick size frame) }
    {
        self.align_size_within_rect(size, frame)
    }

    pub fn advance(
        self,
        main_dir: Direction,
        cursor: Rect,
        frame_rect: Rect,
        widget_rect: Rect,
    ) -> Result<Moved, Refusal>
        ensures { moved_outcome (record { grid = self; cursor = cursor }) result ≡ checked_advance self main_dir cursor frame_rect widget_rect }
    {
        let new = grids::advance(self, cursor, widget_rect);
        let room = first_of(
            (MAX_COLS <= self.col).then_some(Refusal::GridFull),
            (MAX_ROWS <= self.row).then_some(Refusal::GridFull),
        );
        let place = first_of(direction_fault(main_dir), room);
        let rects = first_of(
            rect_fault(frame_rect),
            first_of(rect_fault(widget_rect), place),
        );
        let before = first_of(
            grid_fault(self),
            first_of(cursor_fault(main_dir, cursor), rects),
        );
        let after = outside(moved_fault(main_dir, new));
        answer(before.or(after), new)
    }

    pub fn end_row(self, main_dir: Direction, cursor: Rect) -> Result<Moved, Refusal>
        ensures { moved_outcome (record { grid = self; cursor = cursor }) result ≡ checked_end_row self main_dir cursor }
    {
        let new = grids::end_row(self, cursor);
        let place = first_of(
            direction_fault(main_dir),
            (MAX_ROWS <= self.row).then_some(Refusal::GridFull),
        );
        let before = first_of(
            grid_fault(self),
            first_of(cursor_fault(main_dir, cursor), place),
        );
        let after = outside(moved_fault(main_dir, new));
        answer(before.or(after), new)
    }

    pub fn save(self) -> Result<Saved, Refusal>
        ensures { saved_outcome self.prev_state result ≡ checked_save self }
    {
        answer(grid_fault(self), grids::save(self))
    }

    // With what is there then: the memory that the pass was given, and a clear flag, where it is refused.
    pub fn save_answer(self) -> SavedAnswer
        ensures { result ≡ checked_save self }
    {
        let number = fault_number(grid_fault(self));
        saved_answer(number, self.prev_state, grids::save(self))
    }
}
