// A placer, packed.
use emath::Refusal;
use placer::Placer;
use probe_values::grids::{grid_of, put_grid};
use probe_values::layouts::{layout_of, put_layout, put_region, region_of};
use probe_values::packing::{Counts, HAS_GRID, Lengths};

pub fn placer_of(lengths: &Lengths, counts: &Counts) -> Placer {
    Placer {
        has_grid: counts[HAS_GRID] != 0,
        grid: grid_of(lengths, counts),
        layout: layout_of(counts),
        region: region_of(lengths),
    }
}

pub fn put_placer(lengths: &mut Lengths, counts: &mut Counts, p: &Placer) {
    counts[HAS_GRID] = p.has_grid as usize;
    put_grid(lengths, counts, &p.grid);
    put_layout(counts, p.layout);
    put_region(lengths, p.region);
}

// As `answer_region` of probe_values.
pub fn answer_placer(
    out: &mut Lengths,
    out_counts: &mut Counts,
    given: &Placer,
    a: &Result<Placer, Refusal>,
) -> u8 {
    match a {
        Ok(new) => {
            put_placer(out, out_counts, new);
            0
        }
        Err(refusal) => {
            put_placer(out, out_counts, given);
            refusal.number()
        }
    }
}
