// GridLayout's calls that make or change a grid, or save it, each giving its answer's number.
use emath::Refusal;
use grid::{GridLayout, Moved};
use probe_values::grids::{grid_of, memory_of, put_grid, put_moved, put_saved};
use probe_values::layouts::{direction_of, region_of};
use probe_values::packing::{
    CURSOR, Counts, KNOWN, Lengths, MAIN_DIR, MAX_CELL_SIZE, MIN_CELL_SIZE, NUM_COLUMNS, RECT, ROW,
    SIZING_PASS, SPACING, WIDGET_RECT, rect_at, vec2_at,
};

// As `answer_region` of probe_values.
fn answer_moved(
    out: &mut Lengths,
    out_counts: &mut Counts,
    given: &Moved,
    a: &Result<Moved, Refusal>,
) -> u8 {
    match a {
        Ok(new) => {
            put_moved(out, out_counts, new);
            0
        }
        Err(refusal) => {
            put_moved(out, out_counts, given);
            refusal.number()
        }
    }
}

// The options stand where a grid has them, and the start row where it has its row.
#[unsafe(no_mangle)]
pub extern "C" fn grid_new(
    lengths: &Lengths,
    counts: &Counts,
    out: &mut Lengths,
    out_counts: &mut Counts,
) -> u8 {
    let a = GridLayout::new_answer(
        direction_of(counts[MAIN_DIR]),
        region_of(lengths),
        counts[KNOWN] != 0,
        memory_of(lengths, counts),
        counts[SIZING_PASS] != 0,
        vec2_at(lengths, SPACING),
        vec2_at(lengths, MIN_CELL_SIZE),
        vec2_at(lengths, MAX_CELL_SIZE),
        counts[NUM_COLUMNS],
        counts[ROW],
    );
    put_grid(out, out_counts, &a.grid);
    a.number
}

#[unsafe(no_mangle)]
pub extern "C" fn grid_advance(
    lengths: &Lengths,
    counts: &Counts,
    out: &mut Lengths,
    out_counts: &mut Counts,
) -> u8 {
    let grid = grid_of(lengths, counts);
    let cursor = rect_at(lengths, CURSOR);
    let a = grid.advance(
        direction_of(counts[MAIN_DIR]),
        cursor,
        rect_at(lengths, RECT),
        rect_at(lengths, WIDGET_RECT),
    );
    answer_moved(out, out_counts, &Moved { grid, cursor }, &a)
}

#[unsafe(no_mangle)]
pub extern "C" fn grid_end_row(
    lengths: &Lengths,
    counts: &Counts,
    out: &mut Lengths,
    out_counts: &mut Counts,
) -> u8 {
    let grid = grid_of(lengths, counts);
    let cursor = rect_at(lengths, CURSOR);
    let a = grid.end_row(direction_of(counts[MAIN_DIR]), cursor);
    answer_moved(out, out_counts, &Moved { grid, cursor }, &a)
}

#[unsafe(no_mangle)]
pub extern "C" fn grid_save(
    lengths: &Lengths,
    counts: &Counts,
    out: &mut Lengths,
    out_counts: &mut Counts,
) -> u8 {
    let a = grid_of(lengths, counts).save_answer();
    put_saved(out, out_counts, &a.saved);
    a.number
}
