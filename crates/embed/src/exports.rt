// What a pass gives, put into the caller's memory.
ghost use Rattle.std.specs.Prelude.{◌≡◌, cond, ◌≤◌, leb, length, take};
ghost use Rattle.std.proofs.lemmas.List.Edits.{sets};
ghost use Rattle.emath.specs.Steps.{tick};
ghost use Rattle.region.specs.Steps.{WholeRect};
ghost use Rattle.sheet.specs.Ticks.{in_ticks};
ghost use Rattle.sheet.specs.Slices.{edges, laid_number, laid_record, laid_outcome};
ghost use Rattle.grid.specs.Memories.{memory_of};

use emath::Rect;
use grid::Memory;
use records::SheetRefusal;
use sheet::Passed;
use sheet::cells::tick;

pub(crate) fn memory_of(
    widths: &[f32; 32],
    cols: usize,
    heights: &[f32; 128],
    rows: usize,
) -> Memory
    ensures { result ≡ memory_of widths.now cols heights.now rows }
{
    Memory {
        col_widths: *widths,
        cols,
        row_heights: *heights,
        rows,
    }
}

fn put_memory(
    widths: &mut [f32; 32],
    cols: &mut usize,
    heights: &mut [f32; 128],
    rows: &mut usize,
    memory: Memory,
)
    ensures { memory_of widths.new cols.new heights.new rows.new ≡ memory }
{
    let ws = memory.col_widths;
    let hs = memory.row_heights;
    *widths = ws;
    *cols = memory.cols;
    *heights = hs;
    *rows = memory.rows;
}

// In ticks.
fn put_plate(plate: &mut [i32; 4], rect: Rect)
    requires { WholeRect tick rect }
    ensures { plate.new ≡ edges (in_ticks tick rect) }
{
    let numbers = [
        tick(rect.left),
        tick(rect.top),
        tick(rect.right),
        tick(rect.bottom),
    ];
    *plate = numbers;
}

// The number and the record, 0 and 0 where the pass is accepted.
fn put_laid(at: &mut usize, laid: Result<(), SheetRefusal>) -> u8
    ensures { (result ≡ laid_number (laid_outcome laid)) × (at.new ≡ laid_record (laid_outcome laid)) }
{
    match laid {
        Ok(()) => {
            *at = 0;
            0
        }
        Err(e) => {
            *at = e.record;
            e.refusal.number()
        }
    }
}

pub(crate) fn put_passed(
    plate: &mut [i32; 4],
    widths: &mut [f32; 32],
    cols: &mut usize,
    heights: &mut [f32; 128],
    rows: &mut usize,
    at: &mut usize,
    p: Passed,
) -> u8
    requires { WholeRect tick p.plate }
    ensures { ((result ≡ laid_number (laid_outcome p.laid)) × (at.new ≡ laid_record (laid_outcome p.laid))) × ((plate.new ≡ edges (in_ticks tick p.plate)) × (memory_of widths.new cols.new heights.new rows.new ≡ p.memory)) }
{
    put_plate(plate, p.plate);
    put_memory(widths, cols, heights, rows, p.memory);
    put_laid(at, p.laid)
}

// The first n bytes, where there is room for them; else nothing.
pub(crate) fn copy_whole(from: &[u8], n: usize, out: &mut [u8])
    requires { n ≤ length from.now }
    ensures { out.new ≡ cond (leb n (length out.old)) (sets out.old 0 (take n from.now)) out.old }
{
    if n <= out.len() {
        out[..n].copy_from_slice(&from[..n]);
    }
}
