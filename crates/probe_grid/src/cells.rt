// GridLayout's calls that read a grid, each giving its answer's number.
use probe_values::answers::answer_value;
use probe_values::grids::grid_of;
use probe_values::layouts::{direction_of, region_of};
use probe_values::packing::{
    CURSOR, Counts, Lengths, MAIN_DIR, PLACE, RECT, SIZE, rect_at, vec2_at,
};

#[unsafe(no_mangle)]
pub extern "C" fn grid_prev_col_width(
    lengths: &Lengths,
    counts: &Counts,
    out: &mut [f32; 2],
) -> u8 {
    let g = grid_of(lengths, counts);
    answer_value(out, g.prev_col_width(counts[PLACE]).map(Some))
}

#[unsafe(no_mangle)]
pub extern "C" fn grid_prev_row_height(
    lengths: &Lengths,
    counts: &Counts,
    out: &mut [f32; 2],
) -> u8 {
    let g = grid_of(lengths, counts);
    answer_value(out, g.prev_row_height(counts[PLACE]).map(Some))
}

#[unsafe(no_mangle)]
pub extern "C" fn grid_wrap_text(lengths: &Lengths, counts: &Counts) -> bool {
    let g = grid_of(lengths, counts);
    g.wrap_text()
}

#[unsafe(no_mangle)]
pub extern "C" fn grid_available_rect(
    lengths: &Lengths,
    counts: &Counts,
    out: &mut [f32; 4],
) -> u8 {
    let g = grid_of(lengths, counts);
    let d = direction_of(counts[MAIN_DIR]);
    answer_value(out, g.available_rect(d, region_of(lengths)))
}

#[unsafe(no_mangle)]
pub extern "C" fn grid_next_cell(lengths: &Lengths, counts: &Counts, out: &mut [f32; 4]) -> u8 {
    let g = grid_of(lengths, counts);
    let d = direction_of(counts[MAIN_DIR]);
    answer_value(
        out,
        g.next_cell(d, rect_at(lengths, CURSOR), vec2_at(lengths, SIZE)),
    )
}

#[unsafe(no_mangle)]
pub extern "C" fn grid_align_size_within_rect(
    lengths: &Lengths,
    counts: &Counts,
    out: &mut [f32; 4],
) -> u8 {
    let g = grid_of(lengths, counts);
    answer_value(
        out,
        g.align_size_within_rect(vec2_at(lengths, SIZE), rect_at(lengths, RECT)),
    )
}

#[unsafe(no_mangle)]
pub extern "C" fn grid_justify_and_align(
    lengths: &Lengths,
    counts: &Counts,
    out: &mut [f32; 4],
) -> u8 {
    let g = grid_of(lengths, counts);
    answer_value(
        out,
        g.justify_and_align(rect_at(lengths, RECT), vec2_at(lengths, SIZE)),
    )
}
