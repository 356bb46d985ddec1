// The entry point of crate sheet: tests only.
#![tactic(auto)]

use probe_values::grids::{memory_of, put_memory};
use probe_values::packing::{Counts, KNOWN, Lengths, PLACE, RECT, SAVE, SIZING_PASS, put_at};
use probe_values::rects::Numbers;
use records::SheetRefusal;
use sheet::passing::pass;

// The number, 0 for none, and the record, 0 for none too.
fn put_laid(counts: &mut Counts, laid: Result<(), SheetRefusal>) -> u8 {
    match laid {
        Ok(()) => {
            counts[PLACE] = 0;
            0
        }
        Err(e) => {
            counts[PLACE] = e.record;
            e.refusal.number()
        }
    }
}

#[unsafe(no_mangle)]
pub extern "C" fn sheet_pass(
    text: &[u8],
    lengths: &Lengths,
    counts: &Counts,
    out: &mut [i32],
    out_lengths: &mut Lengths,
    out_counts: &mut Counts,
) -> u8 {
    let m = memory_of(lengths, counts);
    let p = pass(text, counts[KNOWN] != 0, m, counts[SIZING_PASS] != 0, out);
    put_at(out_lengths, RECT, &p.plate.numbers());
    put_memory(out_lengths, out_counts, &p.memory);
    out_counts[SAVE] = p.save as usize;
    put_laid(out_counts, p.laid)
}
