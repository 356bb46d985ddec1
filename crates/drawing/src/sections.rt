// The parts of a page: its head, the plate's sizes, the scale, the list's rows.
ghost use Rattle.std.specs.Prelude.{◌≡◌, ◌+◌, ◌*◌, ◌≤◌};
ghost use Rattle.drawing.specs.Implementation.Pens.{Writes};
ghost use Rattle.drawing.specs.Pictures.{style, head, points, title, grid_widgets as grid_widgets_in, shapes, width_line, height_line, dimensions, scale_line, scale, picture, key};

use crate::Layer;
use crate::millimetres::put_in_millimetres;
use crate::pages::{Plate, bar_of};
use crate::rows::{put_each, put_plate_row};
use crate::writing::Pen;

#[tactic(auto, unfolding(crate::specs::Pictures::style))]
fn put_style(pen: &mut Pen, list: &[u8])
    ensures { Writes (style list.now) pen.old pen.new }
{
    pen.put_words(
        b"<style>\n.plate{fill:#f3e2b3;stroke:#6b4f10}\n.cells{stroke:#5b9bd5}\n.frame{fill:none;stroke:#a0522d}\n.control{fill:#fffdf5;fill-opacity:.55;stroke:#333}\n.flat{fill:none;stroke:#333}\n.plate,.cells,.frame,.control,.flat{stroke-linecap:square}\n.line{fill:none;stroke:#333}\ntext{fill:#111;font-size:13px}\n.title{font-size:18px;font-weight:bold}\n.large,.small,.tiny,.middle{text-anchor:middle}\n.large{font-size:14px;font-weight:bold}\n.small{font-size:10px;font-weight:bold}\n.tiny{font-size:8px;paint-order:stroke;stroke:#fff;stroke-width:2px}\n.row{font-family:monospace;font-size:9.5px}\n</style>\n<rect width=\"100%\" height=\"100%\" fill=\"#fff\"/>\n",
        list,
    );
}

// A page of this width and height.
#[tactic(auto, unfolding(crate::specs::Pictures::head))]
pub fn put_head(pen: &mut Pen, list: &[u8], width: usize, height: usize)
    ensures { Writes (head list.now width height) pen.old pen.new }
{
    pen.put_numbers(
        b"<svg xmlns=\"http://www.w3.org/2000/svg\" width=\"~0\" height=\"~1\" viewBox=\"0 0 ~0 ~1\" font-family=\"sans-serif\">\n",
        list,
        &[width, height],
    );
    put_style(pen, list);
}

// A length in points: whole ones, and what is left in 32nds.
#[tactic(auto, unfolding(crate::specs::Pictures::points))]
fn put_points(pen: &mut Pen, list: &[u8], n: usize)
    ensures { Writes (points list.now n) pen.old pen.new }
{
    if n % 32 == 0 {
        pen.put_numbers(b"~0 pt", list, &[n / 32]);
    } else {
        pen.put_numbers(b"~0 ~1/32 pt", list, &[n / 32, n % 32]);
    }
}

// The plate's width and height, in points and in ticks, and of a metric sheet in millimetres.
#[tactic(auto, unfolding(crate::specs::Pictures::title))]
pub fn put_title(pen: &mut Pen, plate: &Plate, metric: bool)
    ensures { Writes (title metric plate.now.page plate.now.list.now) pen.old pen.new }
{
    pen.put_words(
        b"<text class=\"title\" x=\"60\" y=\"34\">Plate ",
        plate.list,
    );
    put_points(pen, plate.list, plate.page.width);
    pen.put_words(b" &#215; ", plate.list);
    put_points(pen, plate.list, plate.page.height);
    put_in_millimetres(pen, plate, metric);
    pen.put_filled(
        b"</text>\n<text x=\"60\" y=\"56\">~0 &#215; ~1 ticks; left $0, top $1, right $2, bottom $3; controls: ~2; a tick is 1/32 pt</text>\n",
        plate.own_line(),
        &[plate.page.width, plate.page.height, plate.page.widgets],
    );
}

// Only a grid has lines of columns and rows.
fn grid_widgets(plate: &Plate) -> usize
    ensures { (result ≡ grid_widgets_in plate.now.page) × (result ≤ 512) }
{
    if plate.page.columns == 0 {
        return 0;
    }
    plate.page.widgets
}

// The plate, its grid, and every frame and control.
#[tactic(auto, unfolding(crate::specs::Pictures::shapes))]
fn put_shapes(pen: &mut Pen, plate: &Plate)
    ensures { Writes (shapes plate.now.page plate.now.list.now) pen.old pen.new }
{
    let count = grid_widgets(plate);
    pen.put_filled(
        b"<defs>\n<path id=\"down\" class=\"cells\" d=\"M0 $1V$3\"/>\n<path id=\"across\" class=\"cells\" d=\"M$0 0H$2\"/>\n<g id=\"plate\" stroke-width=\"~0e-3\">\n<path class=\"plate\" d=\"M$0 $1H$2V$3H$0Z\"/>\n",
        plate.own_line(),
        &[plate.thickness()],
    );
    put_each(pen, plate, Layer::ColumnLines, count);
    put_each(pen, plate, Layer::RowLines, count);
    put_each(pen, plate, Layer::Outlines, plate.page.widgets);
    pen.put_words(b"</g>\n</defs>\n", plate.list);
}

// The width's line and the height's differ in every number and template: one function for both would have an argument for each.
#[tactic(auto, unfolding(crate::specs::Pictures::width_line))]
fn put_width_line(pen: &mut Pen, plate: &Plate)
    ensures { Writes (width_line plate.now.page plate.now.list.now) pen.old pen.new }
{
    let w = plate.px(plate.page.width);
    pen.put_numbers(
        b"<path class=\"line\" d=\"M60 88v12M60 94h~0m0 -6v12\"/>\n<text class=\"middle\" x=\"~1\" y=\"80\">",
        plate.list,
        &[w, 60 + w / 2],
    );
    put_points(pen, plate.list, plate.page.width);
    pen.put_numbers(b" (~0 ticks)</text>\n", plate.list, &[plate.page.width]);
}

#[tactic(auto, unfolding(crate::specs::Pictures::height_line))]
fn put_height_line(pen: &mut Pen, plate: &Plate)
    ensures { Writes (height_line plate.now.page plate.now.list.now) pen.old pen.new }
{
    let w = plate.px(plate.page.width);
    let h = plate.px(plate.page.height);
    pen.put_numbers(
        b"<path class=\"line\" d=\"M~0 108h12m-6 0v~1m-6 0h12\"/>\n<text x=\"~2\" y=\"~3\">",
        plate.list,
        &[70 + w, h, 90 + w, 105 + h / 2],
    );
    put_points(pen, plate.list, plate.page.height);
    pen.put_numbers(
        b"</text>\n<text x=\"~0\" y=\"~1\">(~2 ticks)</text>\n",
        plate.list,
        &[90 + w, 121 + h / 2, plate.page.height],
    );
}

// A plate in one piece has its sizes beside it, bands say where they begin.
#[tactic(auto, unfolding(crate::specs::Pictures::dimensions))]
fn put_dimensions(pen: &mut Pen, plate: &Plate)
    ensures { Writes (dimensions plate.now.page plate.now.list.now) pen.old pen.new }
{
    if plate.page.bands == 1 {
        put_width_line(pen, plate);
        put_height_line(pen, plate);
    } else {
        put_each(pen, plate, Layer::Captions, plate.page.bands);
    }
}

#[tactic(auto, unfolding(crate::specs::Pictures::scale_line))]
fn put_scale_line(pen: &mut Pen, plate: &Plate, bar: usize)
    requires { bar ≤ 2097152 }
    ensures { Writes (scale_line plate.now.page plate.now.list.now bar) pen.old pen.new }
{
    let end = plate.bottom();
    let b = plate.px(bar);
    pen.put_numbers(
        b"<path class=\"line\" d=\"M60 ~0v12m0 -6h~1m0 -6v12\"/>\n<text x=\"~2\" y=\"~3\">scale: ",
        plate.list,
        &[end - 6, b, 72 + b, end + 4],
    );
    put_points(pen, plate.list, bar);
    pen.put_numbers(b" (~0 ticks)</text>\n", plate.list, &[bar]);
}

#[tactic(auto, unfolding(crate::specs::Pictures::scale))]
fn put_scale(pen: &mut Pen, plate: &Plate)
    ensures { Writes (scale plate.now.page plate.now.list.now) pen.old pen.new }
{
    put_scale_line(pen, plate, bar_of(plate.page.unit));
}

#[tactic(auto, unfolding(crate::specs::Pictures::picture))]
pub fn put_picture(pen: &mut Pen, plate: &Plate)
    ensures { Writes (picture plate.now.page plate.now.list.now) pen.old pen.new }
{
    put_shapes(pen, plate);
    put_each(pen, plate, Layer::Windows, plate.page.bands);
    put_dimensions(pen, plate);
    put_each(pen, plate, Layer::Labels, plate.page.widgets);
    put_scale(pen, plate);
}

// The list, below the picture.
#[tactic(auto, unfolding(crate::specs::Pictures::key))]
pub fn put_key(pen: &mut Pen, plate: &Plate)
    ensures { Writes (key plate.now.page plate.now.list.now) pen.old pen.new }
{
    pen.put_numbers(
        b"<text class=\"row\" x=\"40\" y=\"~0\">W record; frame left, top, right, bottom; control left, top, right, bottom. P plate left, top, right, bottom. C column, width. D row, height. In ticks.</text>\n",
        plate.list,
        &[plate.bottom() + 50],
    );
    put_each(pen, plate, Layer::WidgetRows, plate.page.widgets);
    put_plate_row(pen, plate);
    put_each(pen, plate, Layer::ColumnRows, plate.page.columns);
    put_each(pen, plate, Layer::RowRows, plate.page.rows);
    pen.put_words(b"</svg>\n", plate.list);
}
