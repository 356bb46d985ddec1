// What is drawn for each line of the list, and for each band.
ghost use Rattle.std.specs.Prelude.{[], cond, ◌*◌, ◌≤◌};
ghost use Rattle.drawing.specs.Implementation.Pens.{Writes};
ghost use Rattle.drawing.specs.Pieces.{filled};
ghost use Rattle.drawing.specs.Drawings.{seen, column_lines, row_lines, control, outlines, window, windows, captions, label, labels};

use crate::Shared;
use crate::pages::{LEFT, Plate, TOP, size_of};
use crate::writing::Pen;

// The template with the fields of control k, unless an earlier control shares with it what is drawn.
#[tactic(auto, unfolding(crate::specs::Pieces::emits))]
fn put_unless_seen(pen: &mut Pen, plate: &Plate, k: usize, what: Shared, template: &[u8])
    requires { k ≤ 512 }
    ensures { Writes (cond (seen what plate.now.page plate.now.list.now k k) [] (filled template.now plate.now.list.now (74 * k) [])) pen.old pen.new }
{
    if !plate.seen(what, k) {
        pen.put_filled(template, plate.line(k), &[]);
    }
}

// A column's edges.
#[tactic(auto, unfolding(crate::specs::Drawings::column_lines))]
pub fn put_column_lines(pen: &mut Pen, plate: &Plate, k: usize)
    requires { k ≤ 512 }
    ensures { Writes (column_lines plate.now.page plate.now.list.now k) pen.old pen.new }
{
    put_unless_seen(
        pen,
        plate,
        k,
        Shared::Column,
        b"<use href=\"#down\" x=\"$1\"/><use href=\"#down\" x=\"$3\"/>\n",
    );
}

#[tactic(auto, unfolding(crate::specs::Drawings::row_lines))]
pub fn put_row_lines(pen: &mut Pen, plate: &Plate, k: usize)
    requires { k ≤ 512 }
    ensures { Writes (row_lines plate.now.page plate.now.list.now k) pen.old pen.new }
{
    put_unless_seen(
        pen,
        plate,
        k,
        Shared::Row,
        b"<use href=\"#across\" y=\"$2\"/><use href=\"#across\" y=\"$4\"/>\n",
    );
}

#[tactic(auto, unfolding(crate::specs::Drawings::control))]
fn put_control(pen: &mut Pen, plate: &Plate, k: usize)
    requires { k ≤ 512 }
    ensures { Writes (control plate.now.page plate.now.list.now k) pen.old pen.new }
{
    if plate.flat(k) {
        pen.put_filled(
            b"<path class=\"flat\" stroke-width=\"~0e-3\" d=\"M$5 $6H$7V$8H$5Z\"/>\n",
            plate.line(k),
            &[4 * plate.thickness()],
        );
    } else {
        pen.put_filled(
            b"<path class=\"control\" d=\"M$5 $6H$7V$8H$5Z\"/>\n",
            plate.line(k),
            &[],
        );
    }
}

#[tactic(auto, unfolding(crate::specs::Drawings::outlines))]
pub fn put_outlines(pen: &mut Pen, plate: &Plate, k: usize)
    requires { k ≤ 512 }
    ensures { Writes (outlines plate.now.page plate.now.list.now k) pen.old pen.new }
{
    pen.put_filled(
        b"<path class=\"frame\" d=\"M$1 $2H$3V$4H$1Z\"/>\n",
        plate.line(k),
        &[],
    );
    put_control(pen, plate, k);
}

// Band i of the plate.
#[tactic(auto, unfolding(crate::specs::Drawings::window))]
fn put_window(pen: &mut Pen, plate: &Plate, i: usize)
    requires { i ≤ 512 }
    ensures { Writes (window plate.now.page plate.now.list.now i) pen.old pen.new }
{
    let place = i * plate.page.pitch;
    let start = i * plate.page.step;
    let size = size_of(plate.page.large);
    let line = plate.own_line();
    if plate.page.wide {
        pen.put_filled(
            b"<svg x=\"60\" y=\"~0\" width=\"~1\" height=\"~1\" viewBox=\"$0 $1 ~2 ~2\"><use href=\"#plate\" x=\"-~3\"/></svg>\n",
            line,
            &[TOP + place, size, plate.page.unit, start],
        );
    } else {
        pen.put_filled(
            b"<svg x=\"~0\" y=\"108\" width=\"~1\" height=\"~1\" viewBox=\"$0 $1 ~2 ~2\"><use href=\"#plate\" y=\"-~3\"/></svg>\n",
            line,
            &[LEFT + place, size, plate.page.unit, start],
        );
    }
}

#[tactic(auto, unfolding(crate::specs::Drawings::windows, crate::specs::Drawings::whole_window))]
pub fn put_windows(pen: &mut Pen, plate: &Plate, i: usize)
    requires { i ≤ 512 }
    ensures { Writes (windows plate.now.page plate.now.list.now i) pen.old pen.new }
{
    if plate.page.bands == 1 {
        pen.put_filled(
            b"<svg x=\"60\" y=\"108\" width=\"~0\" height=\"~0\" viewBox=\"$0 $1 ~1 ~1\" overflow=\"visible\"><use href=\"#plate\"/></svg>\n",
            plate.own_line(),
            &[size_of(plate.page.large), plate.page.unit],
        );
    } else {
        put_window(pen, plate, i);
    }
}

#[tactic(auto, unfolding(crate::specs::Drawings::captions))]
pub fn put_caption(pen: &mut Pen, plate: &Plate, i: usize)
    requires { i ≤ 512 }
    ensures { Writes (captions plate.now.page plate.now.list.now i) pen.old pen.new }
{
    let place = i * plate.page.pitch;
    let start = i * plate.page.step;
    if plate.page.wide {
        pen.put_numbers(
            b"<text class=\"row\" x=\"60\" y=\"~0\">from ~1 ticks on</text>\n",
            plate.list,
            &[102 + place, start],
        );
    } else {
        pen.put_numbers(
            b"<text class=\"row\" x=\"~0\" y=\"102\">from ~1 ticks on</text>\n",
            plate.list,
            &[LEFT + place, start],
        );
    }
}

// The number of a control's record, as large as the control allows.
#[tactic(auto, unfolding(crate::specs::Drawings::label))]
fn put_label(pen: &mut Pen, plate: &Plate, k: usize)
    requires { k ≤ 512 }
    ensures { Writes (label plate.now.page plate.now.list.now k) pen.old pen.new }
{
    let x = plate.label_across(k);
    let y = plate.label_down(k);
    if plate.covers(k, 34, 18) {
        pen.put_filled(
            b"<text class=\"large\" x=\"~0\" y=\"~1\">$0</text>\n",
            plate.line(k),
            &[x, y + 5],
        );
    } else if plate.covers(k, 22, 11) {
        pen.put_filled(
            b"<text class=\"small\" x=\"~0\" y=\"~1\">$0</text>\n",
            plate.line(k),
            &[x, y + 4],
        );
    } else {
        pen.put_filled(
            b"<text class=\"tiny\" x=\"~0\" y=\"~1\">$0</text>\n",
            plate.line(k),
            &[x, y + 3],
        );
    }
}

#[tactic(auto, unfolding(crate::specs::Drawings::labels, crate::specs::Pieces::emits))]
pub fn put_labels(pen: &mut Pen, plate: &Plate, k: usize)
    requires { k ≤ 512 }
    ensures { Writes (labels plate.now.page plate.now.list.now k) pen.old pen.new }
{
    if !plate.seen(Shared::Place, k) {
        put_label(pen, plate, k);
    }
}
