// The calls that read a placer, and save_grid.
use crate::placers::placer_of;
use probe_values::answers::answer_value;
use probe_values::grids::put_saved;
use probe_values::packing::{CALL, Counts, ITEM_SPACING, Lengths, RECT, SIZE, rect_at, vec2_at};
use probe_values::rects::Numbers;

// is_grid, prefer_right_to_left.
#[unsafe(no_mangle)]
pub extern "C" fn placer_inspect(lengths: &Lengths, counts: &Counts) -> bool {
    let p = placer_of(lengths, counts);
    match counts[CALL] {
        0 => p.is_grid(),
        _ => p.prefer_right_to_left(),
    }
}

// min_rect, max_rect, cursor.
#[unsafe(no_mangle)]
pub extern "C" fn placer_inspect_rect(
    lengths: &Lengths,
    counts: &Counts,
    out: &mut [f32; 4],
) -> u8 {
    let p = placer_of(lengths, counts);
    let r = match counts[CALL] {
        0 => p.min_rect(),
        1 => p.max_rect(),
        _ => p.cursor(),
    };
    *out = r.numbers();
    0
}

#[unsafe(no_mangle)]
pub extern "C" fn placer_place_rect(lengths: &Lengths, counts: &Counts, out: &mut [f32; 4]) -> u8 {
    let p = placer_of(lengths, counts);
    let size = vec2_at(lengths, SIZE);
    let a = match counts[CALL] {
        0 => p.align_size_within_rect(size, rect_at(lengths, RECT)),
        1 => p.available_rect_before_wrap(),
        2 => p.next_space(size, vec2_at(lengths, ITEM_SPACING)),
        3 => p.justify_and_align(rect_at(lengths, RECT), size),
        _ => p.next_widget_space_ignore_wrap_justify(size),
    };
    answer_value(out, a)
}

#[unsafe(no_mangle)]
pub extern "C" fn placer_available_size(
    lengths: &Lengths,
    counts: &Counts,
    out: &mut [f32; 2],
) -> u8 {
    let p = placer_of(lengths, counts);
    answer_value(out, p.available_size())
}

#[unsafe(no_mangle)]
pub extern "C" fn placer_next_widget_position(
    lengths: &Lengths,
    counts: &Counts,
    out: &mut [f32; 2],
) -> u8 {
    let p = placer_of(lengths, counts);
    answer_value(out, p.next_widget_position())
}

#[unsafe(no_mangle)]
pub extern "C" fn placer_save_grid(
    lengths: &Lengths,
    counts: &Counts,
    out: &mut Lengths,
    out_counts: &mut Counts,
) -> u8 {
    let a = placer_of(lengths, counts).save_grid_answer();
    put_saved(out, out_counts, &a.saved);
    a.number
}
