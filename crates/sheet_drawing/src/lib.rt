// The drawing of a sheet: that of the list that is printed of it, with the plate in millimetres where the sheet has an M.
#![tactic(auto)]

ghost use Rattle.std.specs.Prelude.{◌≡◌, ◌≤◌};
ghost use Rattle.sheet_drawing.specs.SheetDrawings.{sheet_drawn_in};

use drawing::MAX_DRAWING;
use drawing::picture::draw;
use listing::MAX_LIST;
use listing::printing::print;
use records::headings::has_unit;

// Writes the drawing from the slice's start, and answers its length. The rest of the slice stays as it was.
pub fn draw_sheet(text: &[u8], out: &mut [u8; MAX_DRAWING]) -> usize
    ensures { ((result, out.new) ≡ sheet_drawn_in out.old text.now) × (result ≤ 300000) }
{
    let mut list = [0u8; MAX_LIST];
    let n = print(text, &mut list);
    draw(has_unit(text), &list[..n], out)
}
