// The entry point of crate lent_region: tests only.
#![tactic(auto)]

use lent_region::edit;
use probe_values::answers::number_of;
use probe_values::layouts::{layout_of, put_region, region_of};
use probe_values::packing::{Counts, ITEM_SPACING, LENGTH, Lengths, vec2_at};

// The two lent calls on one region: their numbers, and the region as each left it.
#[unsafe(no_mangle)]
pub extern "C" fn lent_edit(
    lengths: &Lengths,
    counts: &Counts,
    numbers: &mut [u8; 2],
    advanced: &mut Lengths,
    ended: &mut Lengths,
) {
    let e = edit(
        layout_of(counts),
        region_of(lengths),
        lengths[LENGTH],
        vec2_at(lengths, ITEM_SPACING),
    );
    put_region(advanced, e.advanced.region);
    put_region(ended, e.ended.region);
    *numbers = [number_of(e.advanced.answer), number_of(e.ended.answer)];
}
