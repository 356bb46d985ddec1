// The calls of include/platelist.h, for C and Rust (RULES 7.11): a sheet's text in; rectangles, plate, memory, list and drawing out, all
// in the caller's memory.
#![tactic(auto)]

mod exports;

ghost use Rattle.std.specs.Prelude.{◌≡◌, ◌≤◌};
ghost use Rattle.sheet_drawing.specs.SheetDrawings.{sheet_drawn_in};
ghost use Rattle.listing.specs.Lists.{settled};
ghost use Rattle.grid.specs.Memories.{memory_of};
ghost use Rattle.embed.specs.Calls.{exported, one_pass, list_into};

use drawing::MAX_DRAWING;
use exports::{copy_whole, memory_of, put_passed};
use listing::MAX_LIST;
use listing::printing::{print, settle};
use sheet::passing::pass;
use sheet_drawing::draw_sheet;

// One pass, with the memory in the arrays where it is known, sizing or not. It answers the number, 0 where the sheet is accepted.
#[unsafe(no_mangle)]
pub extern "C" fn platelist_pass(
    text: &[u8],
    known: bool,
    sizing: bool,
    places: &mut [i32],
    plate: &mut [i32; 4],
    widths: &mut [f32; 32],
    cols: &mut usize,
    heights: &mut [f32; 128],
    rows: &mut usize,
    save: &mut bool,
    at: &mut usize,
) -> u8
    ensures { (record { number = result; at = at.new; places = places.new; plate = plate.new; memory = memory_of widths.new cols.new heights.new rows.new }, save.new) ≡ one_pass text.now known (memory_of widths.old cols.old heights.old rows.old) sizing places.old }
{
    let memory = memory_of(widths, *cols, heights, *rows);
    let p = pass(text, known, memory, sizing, places);
    *save = p.save;
    put_passed(plate, widths, cols, heights, rows, at, p)
}

// What program platelist lays out: one pass, or with G the second of two.
#[unsafe(no_mangle)]
pub extern "C" fn platelist_settle(
    text: &[u8],
    places: &mut [i32],
    plate: &mut [i32; 4],
    widths: &mut [f32; 32],
    cols: &mut usize,
    heights: &mut [f32; 128],
    rows: &mut usize,
    at: &mut usize,
) -> u8
    ensures { record { number = result; at = at.new; places = places.new; plate = plate.new; memory = memory_of widths.new cols.new heights.new rows.new } ≡ exported (settled text.now places.old) }
{
    let p = settle(text, places);
    put_passed(plate, widths, cols, heights, rows, at, p)
}

// The list's length, at most MAX_LIST; the list itself where the slice has room for all of it.
#[unsafe(no_mangle)]
pub extern "C" fn platelist_list(text: &[u8], out: &mut [u8]) -> usize
    ensures { ((result, out.new) ≡ list_into out.old text.now) × (result ≤ 40802) }
{
    let mut list: [u8; MAX_LIST] = [0; MAX_LIST];
    let n = print(text, &mut list);
    copy_whole(&list, n, out);
    n
}

// The drawing, an SVG, from the array's front on, and its length, at most MAX_DRAWING.
#[unsafe(no_mangle)]
pub extern "C" fn platelist_draw(text: &[u8], out: &mut [u8; MAX_DRAWING]) -> usize
    ensures { ((result, out.new) ≡ sheet_drawn_in out.old text.now) × (result ≤ 300000) }
{
    draw_sheet(text, out)
}
