// The records of a text one after the other (RULES 6.17).
ghost use Rattle.std.specs.Prelude.{◌≡◌, ◌+◌, ◌*◌, ◌≤◌, length, drop};
ghost use Rattle.records.specs.Sheets.{records_from, widgets};
ghost use Rattle.records.specs.Implementation.SizeCache.{AreCached};
ghost use Rattle.placer.specs.Implementation.Lent.{placer_of};
ghost use Rattle.sheet.specs.Implementation.Calls.{Ready};
ghost use Rattle.sheet.specs.Texts.{steps_of};
ghost use Rattle.sheet.specs.Implementation.Walks.{Run, Comes, Walked, OnlySteps};

use crate::Ran;
use crate::cells::put;
use crate::plate::plate_with;
use crate::steps::run_record;
use emath::{Rect, Vec2};
use placer::{PassState, PlacerSettings};
use records::records::next_record;
use records::size_cache::cached_record;
use records::{SheetRefusal, SizeCache, SizeUnit};

// From the place `from`, where record `first` is, at most `most` records, the W from the cache; each W's rectangles go to the slice, and its
// frame joins the plate.
pub fn run(
    text: &[u8],
    unit: SizeUnit,
    sizes: &SizeCache,
    from: usize,
    first: usize,
    most: usize,
    placer: PlacerSettings,
    state: PassState,
    prev_widths: &[f32],
    prev_heights: &[f32],
    widths: &mut [f32],
    heights: &mut [f32],
    spacing: Vec2,
    out: &mut [i32],
) -> Result<Ran, SheetRefusal>
    requires ready { Ready placer state prev_widths.now prev_heights.now widths.old heights.old }
    requires from_in_bounds { (from ≤ length text.now) × (first + most ≤ 513) }
    requires only_steps { OnlySteps (records_from unit most (drop from text.now)) × (8 * widgets (records_from unit most (drop from text.now)) ≤ length out.old) × AreCached unit most (drop from text.now) sizes.now first }
    ensures { (r : Run) × Comes placer result prev_widths.now prev_heights.now widths.new heights.new r × Walked spacing first (placer_of placer state prev_widths.now prev_heights.now widths.old heights.old) (steps_of (records_from unit most (drop from text.now))) out.old r out.new }
{
    let mut s = state;
    let mut at = from;
    let mut w: usize = 0;
    let mut plate = Rect::ZERO;
    for n in first..first + most {
        if text.len() <= at {
            return Ok(Ran { state: s, plate });
        }
        let record = cached_record(text, unit, at, sizes, n);
        let m = match run_record(
            placer,
            s,
            prev_widths,
            prev_heights,
            widths,
            heights,
            spacing,
            record,
        ) {
            Ok(m) => m,
            Err(refusal) => return Err(SheetRefusal { refusal, record: n }),
        };
        plate = plate_with(plate, w, m.cell);
        w = put(out, w, m.cell);
        s = m.state;
        at = next_record(text, at);
    }
    Ok(Ran { state: s, plate })
}
