// The list of a text (RULES 7.1, 7.3, 7.7): one pass, or with a grid two over one slice, and the lines of the last.
ghost use Rattle.std.specs.Prelude.{◌≡◌, ◌≤◌, ◌<◌};
ghost use Rattle.emath.specs.Steps.{tick};
ghost use Rattle.region.specs.Steps.{WholeRect};
ghost use Rattle.sheet.specs.Slices.{laid_number, laid_outcome, passed_outcome, Returns};
ghost use Rattle.listing.specs.Lists.{settled, list_in};
ghost use Rattle.listing.specs.Implementation.ListWriter.{put_accepted, put_passed, WholeMemory, Printable};
ghost use Rattle.listing.specs.Implementation.Pens.{Writes};

use crate::lines::Pen;
use crate::{MAX_LIST, PLACES};
use emath::Rect;
use grid::Memory;
use grid::memories::empty_memory;
use records::CACHE_LEN;
use records::headings::has_grid;
use sheet::Passed;
use sheet::passing::{pass_cached, pass_caching};

// An accepted pass: W for each control, P, then C and D. Without a grid the memory is empty, and there is neither.
#[tactic(auto, using(crate::proofs::Pens::after), unfolding(crate::specs::Implementation::ListWriter::put_accepted))]
fn put_accepted(pen: &mut Pen, text: &[u8], cells: &[i32], plate: Rect, memory: Memory)
    requires { WholeRect tick plate × WholeMemory memory }
    ensures { Writes (put_accepted text.now cells.now plate memory) pen.old pen.new }
{
    pen.put_widgets(text, cells);
    pen.put_plate(plate);
    pen.put_memory(memory);
}

// The lines of the pass that is printed.
#[tactic(auto, unfolding(crate::specs::Implementation::ListWriter::printable, crate::specs::Implementation::ListWriter::put_passed, sheet::specs::Slices::laid_number))]
fn put_passed(pen: &mut Pen, text: &[u8], cells: &[i32], p: Passed)
    requires { Printable (passed_outcome p) }
    ensures lines { Writes (put_passed (laid_outcome p.laid) text.now cells.now (passed_outcome p)) pen.old pen.new }
    ensures number { laid_number (laid_outcome p.laid) < 256 }
{
    match p.laid {
        Ok(()) => put_accepted(pen, text, cells, p.plate, p.memory),
        Err(e) => pen.put_refusal(e.refusal, e.record),
    }
}

// One pass, or with a grid a second one with the memory of the first: what the last one gives, and its rectangles in `cells`.
pub fn settle(text: &[u8], cells: &mut [i32]) -> Passed
    ensures { Returns (settled text.now cells.old) (passed_outcome result) cells.new }
{
    let mut sizes: [f32; CACHE_LEN] = [0.0; CACHE_LEN];
    let none = empty_memory();
    let first = pass_caching(text, &mut sizes, false, none, true, cells);
    if first.laid.is_ok() & has_grid(text) {
        return pass_cached(text, &sizes, true, first.memory, false, cells);
    }
    first
}

// Writes the list from the array's front, and answers its length. The rest of the array stays as it was.
pub fn print(text: &[u8], out: &mut [u8; MAX_LIST]) -> usize
    ensures { ((result, out.new) ≡ list_in out.old text.now) × (result ≤ 40802) }
{
    let mut cells: [i32; PLACES] = [0; PLACES];
    let p = settle(text, &mut cells);
    let mut pen = Pen { out, at: 0 };
    put_passed(&mut pen, text, &cells, p);
    pen.at
}
