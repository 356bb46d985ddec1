// One pass over a sheet's text, with a memory or none, and a lent slice for the rectangles.
ghost use Rattle.std.specs.Prelude.{◌≡◌, ◌+◌, ◌*◌, ◌≤◌, length, drop};
ghost use Rattle.std.proofs.lemmas.List.Edits.{sets};
ghost use Rattle.emath.specs.Steps.{tick};
ghost use Rattle.placer.specs.Refusals.{placer_fault};
ghost use Rattle.records.specs.Sheets.{records_from, widgets};
ghost use Rattle.records.specs.Implementation.SizeCache.{AreCached, cached_by};
ghost use Rattle.sheet.specs.Pass.{called, followed, grid_set as grid_set_by, run_from, pass as pass_by};
ghost use Rattle.sheet.specs.Texts.{steps_of};
ghost use Rattle.sheet.specs.Slices.{written, passed_of, passed_outcome, Called};
ghost use Rattle.sheet.specs.Implementation.Walks.{OnlySteps, records_after, sheet_after, Room, Known, Answers};

use crate::Passed;
use crate::outcomes::{finish, grid_set, refused};
use crate::walk::run;
use emath::Vec2;
use grid::Memory;
use placer::Placer;
use placer::lent::{settings, state};
use records::headings::read_heading;
use records::sheets::check_caching;
use records::{CACHE_LEN, Heading, MAX_RECORDS, SizeCache};

// The steps after the heading, on the placer that it gave.
fn go_on(
    placer: Placer,
    heading: Heading,
    text: &[u8],
    sizes: &SizeCache,
    memory: Memory,
    out: &mut [i32],
) -> Passed
    requires placer_value { placer_fault placer ≡ 0 }
    requires room { Room heading text.now (length out.old) sizes.now }
    ensures { Answers heading.has_grid memory (run_from tick heading.spacing (heading.records + 1) placer (steps_of (records_after heading text.now))) out.old (passed_outcome result) out.new }
{
    let prev = placer.grid.prev_state;
    let mut widths = placer.grid.curr_state.col_widths;
    let mut heights = placer.grid.curr_state.row_heights;
    let b = settings(placer);
    let r = run(
        text,
        heading.unit,
        sizes,
        heading.next,
        heading.records + 1,
        MAX_RECORDS - heading.records,
        b,
        state(placer),
        &prev.col_widths,
        &prev.row_heights,
        &mut widths,
        &mut heights,
        heading.spacing,
        out,
    );
    finish(heading.has_grid, memory, b, r, prev, widths, heights)
}

// G, the heading's last record, and the steps.
fn with_grid(
    placer: Placer,
    heading: Heading,
    text: &[u8],
    sizes: &SizeCache,
    known: bool,
    memory: Memory,
    sizing: bool,
    out: &mut [i32],
) -> Passed
    requires { Room heading text.now (length out.old) sizes.now }
    ensures { Answers heading.has_grid memory (followed heading.records (called (grid_set_by heading known memory sizing placer)) (run_from tick heading.spacing (heading.records + 1) (grid_set_by heading known memory sizing placer).placer (steps_of (records_after heading text.now)))) out.old (passed_outcome result) out.new }
{
    match grid_set(heading, known, memory, sizing, placer) {
        Ok(p) => go_on(p, heading, text, sizes, memory, out),
        Err(refusal) => refused(refusal, heading.records, memory),
    }
}

// H (RULES 6.13): Placer's `new`; and all that follows.
fn from_heading(
    heading: Heading,
    text: &[u8],
    sizes: &SizeCache,
    known: bool,
    memory: Memory,
    sizing: bool,
    out: &mut [i32],
) -> Passed
    requires { Room heading text.now (length out.old) sizes.now }
    ensures { (passed_outcome result ≡ passed_of (pass_by tick (sheet_after heading text.now) known memory sizing)) × (out.new ≡ sets out.old 0 (written (pass_by tick (sheet_after heading text.now) known memory sizing).cells)) }
{
    let p = match Placer::new(heading.max_rect, heading.layout) {
        Ok(p) => p,
        Err(refusal) => return refused(refusal, 1, memory),
    };
    if heading.has_grid {
        return with_grid(p, heading, text, sizes, known, memory, sizing, out);
    }
    go_on(p, heading, text, sizes, memory, out)
}

// A pass over a text that was checked before, with its W cached in `sizes`.
pub fn pass_cached(
    text: &[u8],
    sizes: &SizeCache,
    known: bool,
    memory: Memory,
    sizing: bool,
    out: &mut [i32],
) -> Passed
    requires { Known text.now (length out.old) sizes.now }
    ensures { Called text.now known memory sizing out.old (passed_outcome result) out.new }
{
    from_heading(read_heading(text), text, sizes, known, memory, sizing, out)
}

// As `pass`; the check, which comes first, fills the cache `sizes`.
pub fn pass_caching(
    text: &[u8],
    sizes: &mut SizeCache,
    known: bool,
    memory: Memory,
    sizing: bool,
    out: &mut [i32],
) -> Passed
    ensures { Called text.now known memory sizing out.old (passed_outcome result) out.new × (sizes.new ≡ cached_by text.now sizes.old) }
{
    let room = out.len();
    match check_caching(text, room, sizes) {
        Ok(_) => {
            from_heading(
                read_heading(text),
                text,
                &*sizes,
                known,
                memory,
                sizing,
                out,
            )
        }
        Err(e) => refused(e.refusal, e.record, memory),
    }
}

// RULES 6.12: one pass over the text, with the memory where it is known, sizing or not; no Option of it, since a refused pass hands back the
// memory it was given, known or not (RULES 8.19). W that are laid out have their places in the slice,
// which is otherwise as it was.
pub fn pass(text: &[u8], known: bool, memory: Memory, sizing: bool, out: &mut [i32]) -> Passed
    ensures { Called text.now known memory sizing out.old (passed_outcome result) out.new }
{
    let mut sizes: [f32; CACHE_LEN] = [0.0; CACHE_LEN];
    pass_caching(text, &mut sizes, known, memory, sizing, out)
}
