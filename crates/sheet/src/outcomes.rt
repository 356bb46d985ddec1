// What a pass answers: a refusal, or what the run came to; and the placer that G gives.
ghost use Rattle.std.specs.Prelude.{◌≡◌, List, []};
ghost use Rattle.emath.specs.Refusals.{number_of};
ghost use Rattle.sheet.specs.Pass.{Cell, refused_at, plate_of, outcome_of, grid_set as grid_set_by};
ghost use Rattle.sheet.specs.Implementation.Walks.{Run, Comes, Sets, ran_of};
ghost use Rattle.sheet.specs.Slices.{passed_of, passed_outcome};

use crate::{Passed, Ran};
use emath::{Rect, Refusal};
use grid::{GridLayout, Memory};
use placer::lent::whole;
use placer::rules::save_grid;
use placer::{Placer, PlacerSettings};
use records::{Heading, SheetRefusal};

pub(crate) fn refused(refusal: Refusal, at: usize, memory: Memory) -> Passed
    ensures { passed_outcome result ≡ passed_of (refused_at (number_of refusal) at [] memory) }
{
    Passed {
        laid: Err(SheetRefusal {
            refusal,
            record: at,
        }),
        plate: Rect::ZERO,
        memory,
        save: false,
    }
}

// At the run's end: the plate is that of its frames, and the memory is the grid's, which the arrays hold, or without a grid the given one.
pub(crate) fn finish(
    grid: bool,
    memory: Memory,
    placer: PlacerSettings,
    ran: Result<Ran, SheetRefusal>,
    prev: Memory,
    widths: [f32; 32],
    heights: [f32; 128],
) -> Passed
    ensures { (r : Run) (cs : List Cell) → Comes placer ran prev.col_widths prev.row_heights widths heights r → r.plate ≡ plate_of cs → passed_outcome result ≡ passed_of (outcome_of grid memory (ran_of cs r)) }
{
    let r = match ran {
        Ok(r) => r,
        Err(e) => return refused(e.refusal, e.record, memory),
    };
    let plate = r.plate;
    if grid {
        let saved = save_grid(whole(placer, r.state, prev, widths, heights));
        return Passed {
            laid: Ok(()),
            plate,
            memory: saved.memory,
            save: saved.save,
        };
    }
    Passed {
        laid: Ok(()),
        plate,
        memory,
        save: false,
    }
}

// G (RULES 6.14): GridLayout's `new`, then `set_grid`.
pub(crate) fn grid_set(
    heading: Heading,
    known: bool,
    memory: Memory,
    sizing: bool,
    placer: Placer,
) -> Result<Placer, Refusal>
    ensures { Sets result (grid_set_by heading known memory sizing placer) }
{
    let layout = heading.layout;
    let options = heading.options;
    let grid = GridLayout::new(
        layout.main_dir,
        placer.region,
        known,
        memory,
        sizing,
        heading.spacing,
        options.min_cell_size,
        options.max_cell_size,
        options.num_columns,
        options.start_row,
    )?;
    placer.set_grid(grid)
}
