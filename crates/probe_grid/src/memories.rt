// Memory's calls, each giving its answer's number.
use emath::Refusal;
use grid::Memory;
use probe_values::answers::answer_value;
use probe_values::grids::{memory_of, put_memory};
use probe_values::packing::{Counts, LENGTH, Lengths, PLACE};

// As `answer_region` of probe_values.
fn answer_memory(
    out: &mut Lengths,
    out_counts: &mut Counts,
    given: &Memory,
    a: &Result<Memory, Refusal>,
) -> u8 {
    match a {
        Ok(new) => {
            put_memory(out, out_counts, new);
            0
        }
        Err(refusal) => {
            put_memory(out, out_counts, given);
            refusal.number()
        }
    }
}

#[unsafe(no_mangle)]
pub extern "C" fn grid_memory_set_min_col_width(
    lengths: &Lengths,
    counts: &Counts,
    out: &mut Lengths,
    out_counts: &mut Counts,
) -> u8 {
    let m = memory_of(lengths, counts);
    answer_memory(
        out,
        out_counts,
        &m,
        &m.set_min_col_width(counts[PLACE], lengths[LENGTH]),
    )
}

#[unsafe(no_mangle)]
pub extern "C" fn grid_memory_set_min_row_height(
    lengths: &Lengths,
    counts: &Counts,
    out: &mut Lengths,
    out_counts: &mut Counts,
) -> u8 {
    let m = memory_of(lengths, counts);
    answer_memory(
        out,
        out_counts,
        &m,
        &m.set_min_row_height(counts[PLACE], lengths[LENGTH]),
    )
}

#[unsafe(no_mangle)]
pub extern "C" fn grid_memory_col_width(
    lengths: &Lengths,
    counts: &Counts,
    out: &mut [f32; 2],
) -> u8 {
    let m = memory_of(lengths, counts);
    answer_value(out, m.col_width(counts[PLACE]))
}

#[unsafe(no_mangle)]
pub extern "C" fn grid_memory_row_height(
    lengths: &Lengths,
    counts: &Counts,
    out: &mut [f32; 2],
) -> u8 {
    let m = memory_of(lengths, counts);
    answer_value(out, m.row_height(counts[PLACE]))
}

#[unsafe(no_mangle)]
pub extern "C" fn grid_memory_full_width(
    lengths: &Lengths,
    counts: &Counts,
    out: &mut [f32; 2],
) -> u8 {
    let m = memory_of(lengths, counts);
    answer_value(out, m.full_width(lengths[LENGTH]).map(Some))
}
