// The list's rows below the picture, and the layers one after the other.
ghost use Rattle.std.specs.Prelude.{◌≡◌, ◌+◌, ◌*◌, ◌≤◌};
ghost use Rattle.drawing.specs.Implementation.Pens.{Writes};
ghost use Rattle.drawing.specs.Drawings.{widget_row, plate_row, column_row, row_row, one, each};

use crate::Layer;
use crate::elements::{
    put_caption, put_column_lines, put_labels, put_outlines, put_row_lines, put_windows,
};
use crate::pages::Plate;
use crate::writing::Pen;

#[tactic(auto, unfolding(crate::specs::Drawings::widget_row))]
fn put_widget_row(pen: &mut Pen, plate: &Plate, k: usize)
    requires { k ≤ 512 }
    ensures { Writes (widget_row plate.now.page plate.now.list.now k) pen.old pen.new }
{
    pen.put_filled(
        b"<text class=\"row\" xml:space=\"preserve\" x=\"~0\" y=\"~1\">W @0 @1 @2 @3 @4 @5 @6 @7 @8</text>\n",
        plate.line(k),
        &[plate.row_across(k), plate.row_down(k)],
    );
}

#[tactic(auto, unfolding(crate::specs::Drawings::plate_row))]
pub fn put_plate_row(pen: &mut Pen, plate: &Plate)
    ensures { Writes (plate_row plate.now.page plate.now.list.now) pen.old pen.new }
{
    let i = plate.page.widgets;
    pen.put_filled(
        b"<text class=\"row\" xml:space=\"preserve\" x=\"~0\" y=\"~1\">P @0 @1 @2 @3</text>\n",
        plate.own_line(),
        &[plate.row_across(i), plate.row_down(i)],
    );
}

#[tactic(auto, unfolding(crate::specs::Drawings::column_row))]
fn put_column_row(pen: &mut Pen, plate: &Plate, k: usize)
    requires { k ≤ 512 }
    ensures { Writes (column_row plate.now.page plate.now.list.now k) pen.old pen.new }
{
    let i = plate.page.widgets + 1 + k;
    pen.put_filled(
        b"<text class=\"row\" xml:space=\"preserve\" x=\"~0\" y=\"~1\">C @0 @1</text>\n",
        plate.cell_line(k),
        &[plate.row_across(i), plate.row_down(i)],
    );
}

#[tactic(auto, unfolding(crate::specs::Drawings::row_row))]
fn put_row_row(pen: &mut Pen, plate: &Plate, k: usize)
    requires { k ≤ 512 }
    ensures { Writes (row_row plate.now.page plate.now.list.now k) pen.old pen.new }
{
    let i = plate.page.widgets + 1 + plate.page.columns + k;
    pen.put_filled(
        b"<text class=\"row\" xml:space=\"preserve\" x=\"~0\" y=\"~1\">D @0 @1</text>\n",
        plate.cell_line(plate.page.columns + k),
        &[plate.row_across(i), plate.row_down(i)],
    );
}

// `one` and `each` of RULES 7.10 are over this enum, so no closure stands in its place. By the layer, i counts bands, controls, columns or
// rows: the bound on it is no fact of one of these.
#[tactic(auto, unfolding(crate::specs::Drawings::one))]
fn put_one(pen: &mut Pen, plate: &Plate, layer: Layer, i: usize)
    requires { i ≤ 512 }
    ensures { Writes (one layer plate.now.page plate.now.list.now i) pen.old pen.new }
{
    match layer {
        Layer::ColumnLines => put_column_lines(pen, plate, i),
        Layer::RowLines => put_row_lines(pen, plate, i),
        Layer::Outlines => put_outlines(pen, plate, i),
        Layer::Windows => put_windows(pen, plate, i),
        Layer::Captions => put_caption(pen, plate, i),
        Layer::Labels => put_labels(pen, plate, i),
        Layer::WidgetRows => put_widget_row(pen, plate, i),
        Layer::ColumnRows => put_column_row(pen, plate, i),
        Layer::RowRows => put_row_row(pen, plate, i),
    }
}

// A layer, for so many lines or bands.
pub fn put_each(pen: &mut Pen, plate: &Plate, layer: Layer, count: usize)
    requires { count ≤ 512 }
    ensures { Writes (each layer plate.now.page plate.now.list.now count 0) pen.old pen.new }
{
    for i in 0..count {
        put_one(pen, plate, layer, i);
    }
}
