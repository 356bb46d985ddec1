// The calls that make or change a placer, each giving its answer's number.
use crate::placers::{answer_placer, placer_of, put_placer};
use placer::Placer;
use probe_values::grids::grid_of;
use probe_values::layouts::layout_of;
use probe_values::packing::{
    CALL, Counts, ITEM_SPACING, LENGTH, Lengths, MAX_RECT, RECT, WIDGET_RECT, rect_at, vec2_at,
};

#[unsafe(no_mangle)]
pub extern "C" fn placer_new(
    lengths: &Lengths,
    counts: &Counts,
    out: &mut Lengths,
    out_counts: &mut Counts,
) -> u8 {
    let a = Placer::new_answer(rect_at(lengths, MAX_RECT), layout_of(counts));
    put_placer(out, out_counts, &a.placer);
    a.number
}

#[unsafe(no_mangle)]
pub extern "C" fn placer_set_grid(
    lengths: &Lengths,
    counts: &Counts,
    grid_lengths: &Lengths,
    grid_counts: &Counts,
    out: &mut Lengths,
    out_counts: &mut Counts,
) -> u8 {
    let p = placer_of(lengths, counts);
    let a = p.set_grid(grid_of(grid_lengths, grid_counts));
    answer_placer(out, out_counts, &p, &a)
}

#[unsafe(no_mangle)]
pub extern "C" fn placer_change_by_rect(
    lengths: &Lengths,
    counts: &Counts,
    out: &mut Lengths,
    out_counts: &mut Counts,
) -> u8 {
    let p = placer_of(lengths, counts);
    let r = rect_at(lengths, RECT);
    let a = match counts[CALL] {
        0 => p.force_set_min_rect(r),
        1 => p.set_cursor(r),
        _ => p.expand_to_include_rect(r),
    };
    answer_placer(out, out_counts, &p, &a)
}

#[unsafe(no_mangle)]
pub extern "C" fn placer_change_by_length(
    lengths: &Lengths,
    counts: &Counts,
    out: &mut Lengths,
    out_counts: &mut Counts,
) -> u8 {
    let p = placer_of(lengths, counts);
    let length = lengths[LENGTH];
    let a = match counts[CALL] {
        0 => p.advance_cursor(length),
        1 => p.set_row_height(length),
        2 => p.expand_to_include_x(length),
        3 => p.expand_to_include_y(length),
        4 => p.set_max_width(length),
        5 => p.set_max_height(length),
        6 => p.set_min_width(length),
        _ => p.set_min_height(length),
    };
    answer_placer(out, out_counts, &p, &a)
}

#[unsafe(no_mangle)]
pub extern "C" fn placer_advance_after_rects(
    lengths: &Lengths,
    counts: &Counts,
    out: &mut Lengths,
    out_counts: &mut Counts,
) -> u8 {
    let p = placer_of(lengths, counts);
    let a = p.advance_after_rects(
        rect_at(lengths, RECT),
        rect_at(lengths, WIDGET_RECT),
        vec2_at(lengths, ITEM_SPACING),
    );
    answer_placer(out, out_counts, &p, &a)
}

#[unsafe(no_mangle)]
pub extern "C" fn placer_end_row(
    lengths: &Lengths,
    counts: &Counts,
    out: &mut Lengths,
    out_counts: &mut Counts,
) -> u8 {
    let p = placer_of(lengths, counts);
    let a = p.end_row(vec2_at(lengths, ITEM_SPACING));
    answer_placer(out, out_counts, &p, &a)
}
