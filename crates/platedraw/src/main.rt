// Reads a sheet on standard input and writes its plate's drawing, an SVG, to standard output. Reads and writes that fail are those of program
// platelist (RULES 7.8).
#![tactic(auto)]

use drawing::MAX_DRAWING;
use listing::MAX_TEXT;
use reading::read_full;
use sheet_drawing::draw_sheet;

fn main(rt: HostRuntime) {
    let mut text = [0u8; MAX_TEXT];
    let mut out = [0u8; MAX_DRAWING];
    let (n, _) = read_full(&mut rt.stdin(), &mut text);
    let length = draw_sheet(&text[..n], &mut out);
    let _ = rt.write_all(&out[..length]);
}
