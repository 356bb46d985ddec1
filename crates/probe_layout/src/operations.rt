// Crate layout's operations, each giving its answer's number.
use probe_values::answers::{answer_region, answer_value, number_of};
use probe_values::layouts::{direction_of, layout_of, put_region, region_of};
use probe_values::packing::{
    CURSOR, Counts, ITEM_SPACING, LENGTH, Lengths, MAIN_DIR, MAX_RECT, RECT, SIZE, WIDGET_RECT,
    rect_at, vec2_at,
};
use probe_values::rects::Numbers;

#[unsafe(no_mangle)]
pub extern "C" fn layout_region_expand_to_include_rect(
    lengths: &Lengths,
    counts: &Counts,
    out: &mut Lengths,
) -> u8 {
    let g = region_of(lengths);
    let d = direction_of(counts[MAIN_DIR]);
    answer_region(
        out,
        &g,
        &g.expand_to_include_rect(d, rect_at(lengths, RECT)),
    )
}

#[unsafe(no_mangle)]
pub extern "C" fn layout_region_expand_to_include_x(
    lengths: &Lengths,
    counts: &Counts,
    out: &mut Lengths,
) -> u8 {
    let g = region_of(lengths);
    let d = direction_of(counts[MAIN_DIR]);
    answer_region(out, &g, &g.expand_to_include_x(d, lengths[LENGTH]))
}

#[unsafe(no_mangle)]
pub extern "C" fn layout_region_expand_to_include_y(
    lengths: &Lengths,
    counts: &Counts,
    out: &mut Lengths,
) -> u8 {
    let g = region_of(lengths);
    let d = direction_of(counts[MAIN_DIR]);
    answer_region(out, &g, &g.expand_to_include_y(d, lengths[LENGTH]))
}

#[unsafe(no_mangle)]
pub extern "C" fn layout_align_size_within_rect(
    lengths: &Lengths,
    counts: &Counts,
    out: &mut [f32; 4],
) -> u8 {
    let l = layout_of(counts);
    answer_value(
        out,
        l.align_size_within_rect(vec2_at(lengths, SIZE), rect_at(lengths, RECT)),
    )
}

#[unsafe(no_mangle)]
pub extern "C" fn layout_initial_cursor(
    lengths: &Lengths,
    counts: &Counts,
    out: &mut [f32; 4],
) -> u8 {
    let l = layout_of(counts);
    answer_value(out, l.initial_cursor(rect_at(lengths, MAX_RECT)))
}

#[unsafe(no_mangle)]
pub extern "C" fn layout_region_from_max_rect(
    lengths: &Lengths,
    counts: &Counts,
    out: &mut Lengths,
) -> u8 {
    let l = layout_of(counts);
    let a = l.region_from_max_rect_answer(rect_at(lengths, MAX_RECT));
    put_region(out, a.region);
    a.number
}

#[unsafe(no_mangle)]
pub extern "C" fn layout_available_rect_before_wrap(
    lengths: &Lengths,
    counts: &Counts,
    out: &mut [f32; 4],
) -> u8 {
    let l = layout_of(counts);
    answer_value(out, l.available_rect_before_wrap(region_of(lengths)))
}

#[unsafe(no_mangle)]
pub extern "C" fn layout_available_size(
    lengths: &Lengths,
    counts: &Counts,
    out: &mut [f32; 2],
) -> u8 {
    let l = layout_of(counts);
    answer_value(out, l.available_size(region_of(lengths)))
}

#[unsafe(no_mangle)]
pub extern "C" fn layout_available_from_cursor_max_rect(
    lengths: &Lengths,
    counts: &Counts,
    out: &mut [f32; 4],
) -> u8 {
    let l = layout_of(counts);
    answer_value(
        out,
        l.available_from_cursor_max_rect(rect_at(lengths, CURSOR), rect_at(lengths, MAX_RECT)),
    )
}

#[unsafe(no_mangle)]
pub extern "C" fn layout_next_frame(lengths: &Lengths, counts: &Counts, out: &mut [f32; 4]) -> u8 {
    let l = layout_of(counts);
    answer_value(
        out,
        l.next_frame(
            region_of(lengths),
            vec2_at(lengths, SIZE),
            vec2_at(lengths, ITEM_SPACING),
        ),
    )
}

#[unsafe(no_mangle)]
pub extern "C" fn layout_next_frame_ignore_wrap(
    lengths: &Lengths,
    counts: &Counts,
    out: &mut [f32; 4],
) -> u8 {
    let l = layout_of(counts);
    answer_value(
        out,
        l.next_frame_ignore_wrap(region_of(lengths), vec2_at(lengths, SIZE)),
    )
}

#[unsafe(no_mangle)]
pub extern "C" fn layout_justify_and_align(
    lengths: &Lengths,
    counts: &Counts,
    out: &mut [f32; 4],
) -> u8 {
    let l = layout_of(counts);
    answer_value(
        out,
        l.justify_and_align(rect_at(lengths, RECT), vec2_at(lengths, SIZE)),
    )
}

#[unsafe(no_mangle)]
pub extern "C" fn layout_next_widget_space_ignore_wrap_justify(
    lengths: &Lengths,
    counts: &Counts,
    out: &mut [f32; 4],
) -> u8 {
    let l = layout_of(counts);
    answer_value(
        out,
        l.next_widget_space_ignore_wrap_justify(region_of(lengths), vec2_at(lengths, SIZE)),
    )
}

#[unsafe(no_mangle)]
pub extern "C" fn layout_next_widget_position(
    lengths: &Lengths,
    counts: &Counts,
    out: &mut [f32; 2],
) -> u8 {
    let l = layout_of(counts);
    answer_value(out, l.next_widget_position(region_of(lengths)))
}

#[unsafe(no_mangle)]
pub extern "C" fn layout_advance_cursor(
    lengths: &Lengths,
    counts: &Counts,
    out: &mut Lengths,
) -> u8 {
    let l = layout_of(counts);
    let g = region_of(lengths);
    answer_region(out, &g, &l.advance_cursor(g, lengths[LENGTH]))
}

#[unsafe(no_mangle)]
pub extern "C" fn layout_advance_after_rects(
    lengths: &Lengths,
    counts: &Counts,
    out: &mut [f32; 4],
) -> u8 {
    let l = layout_of(counts);
    let cursor = rect_at(lengths, CURSOR);
    let a = l.advance_after_rects(
        cursor,
        rect_at(lengths, RECT),
        rect_at(lengths, WIDGET_RECT),
        vec2_at(lengths, ITEM_SPACING),
    );
    *out = a.unwrap_or(cursor).numbers();
    number_of(a)
}

#[unsafe(no_mangle)]
pub extern "C" fn layout_end_row(lengths: &Lengths, counts: &Counts, out: &mut Lengths) -> u8 {
    let l = layout_of(counts);
    let g = region_of(lengths);
    answer_region(out, &g, &l.end_row(g, vec2_at(lengths, ITEM_SPACING)))
}

#[unsafe(no_mangle)]
pub extern "C" fn layout_set_row_height(
    lengths: &Lengths,
    counts: &Counts,
    out: &mut Lengths,
) -> u8 {
    let l = layout_of(counts);
    let g = region_of(lengths);
    answer_region(out, &g, &l.set_row_height(g, lengths[LENGTH]))
}
