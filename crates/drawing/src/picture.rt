// The drawing of a printed list.
ghost use Rattle.std.specs.Prelude.{◌≡◌, [], ◌*◌, ◌≤◌};
ghost use Rattle.drawing.specs.Implementation.Pens.{Writes};
ghost use Rattle.drawing.specs.Pictures.{accepted, reason as reason_of, refusal_number, refusal, drawn_from, drawn_in};

use crate::MAX_DRAWING;
use crate::lists::{
    CELL_SIZE, CONTROL_SIZE, Line, MAX_CONTROLS, ORIGIN, PLATE_SIZE, count_lines, is_line,
};
use crate::pages::Plate;
use crate::sections::{put_head, put_key, put_picture, put_title};
use crate::writing::Pen;

#[tactic(auto, unfolding(crate::specs::Pictures::accepted))]
fn put_accepted(pen: &mut Pen, plate: &Plate, metric: bool)
    ensures { Writes (accepted metric plate.now.page plate.now.list.now) pen.old pen.new }
{
    put_head(pen, plate.list, plate.page_width(), plate.page_height());
    put_title(pen, plate, metric);
    put_picture(pen, plate);
    put_key(pen, plate);
}

// What a refusal's number means. The number is read from the list, and `reason` of RULES 7.10 is over every one, 0 for none among them: an
// enum would only name the arms twice.
#[tactic(auto, unfolding(crate::specs::Pictures::reason))]
fn reason(n: usize) -> &'static [u8]
    ensures { result.now ≡ reason_of n }
{
    match n {
        1 => b"A record is malformed, out of its place, or has a field out of its range.",
        2 => b"The sheet goes on after its 512th record.",
        3 => b"There is too little room for the rectangles: each control takes eight places.",
        4 => b"A value is not a number, or is infinite where it may not be.",
        5 => b"A length is beyond 65,536 points.",
        6 => b"A size or a remembered length is negative, or a rectangle is inside out.",
        7 => b"A gap (S) stands in a grid, or a grid runs from right to left or upward.",
        8 => b"The grid is full: it has at most 32 columns and 128 rows.",
        9 => b"The result would lie outside the domain: beyond 65,536 points, or without end.",
        _ => b"This is no printed list of a sheet.",
    }
}

// The number of the X line that begins there, 0 where there is none.
#[tactic(auto, unfolding(crate::specs::Pictures::refusal_number))]
fn refusal_number(line: Line) -> usize
    ensures { result ≡ refusal_number line.entry.list.now line.entry.at }
{
    if is_line(line.list, line.at, b'X', CELL_SIZE) {
        return line.place(0).saturating_sub(ORIGIN);
    }
    0
}

#[tactic(auto, unfolding(crate::specs::Pictures::refusal))]
fn put_refusal(pen: &mut Pen, line: Line)
    ensures { Writes (refusal line.entry.list.now line.entry.at) pen.old pen.new }
{
    put_head(pen, line.list, 720, 110);
    pen.put_filled(
        b"<text class=\"title\" x=\"40\" y=\"44\">Refused: number $0, at record $1</text>\n<text x=\"40\" y=\"76\">",
        line,
        &[],
    );
    pen.put_words(reason(refusal_number(line)), line.list);
    pen.put_words(b"</text>\n</svg>\n", line.list);
}

#[tactic(auto, unfolding(crate::specs::Pictures::drawn_from))]
fn put_drawn(pen: &mut Pen, metric: bool, list: &[u8], widgets: usize)
    requires { widgets ≤ 512 }
    ensures { Writes (drawn_from metric list.now widgets) pen.old pen.new }
{
    let line = Line {
        list,
        at: CONTROL_SIZE * widgets,
    };
    if is_line(list, line.at, b'P', PLATE_SIZE) {
        put_accepted(pen, &Plate::new(list, widgets), metric);
    } else {
        put_refusal(pen, line);
    }
}

// Writes the drawing of a list from the slice's start, and answers its length. The rest of the slice stays as it was. The plate of a metric
// sheet is given in millimetres too: its list does not say so.
pub fn draw(metric: bool, list: &[u8], out: &mut [u8; MAX_DRAWING]) -> usize
    ensures { ((result, out.new) ≡ drawn_in metric out.old list.now) × (result ≤ 300000) }
{
    let mut pen = Pen { out, at: 0 };
    put_drawn(
        &mut pen,
        metric,
        list,
        count_lines(list, 0, b'W', CONTROL_SIZE, MAX_CONTROLS),
    );
    pen.at
}
