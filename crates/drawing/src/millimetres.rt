// The plate's size in millimetres, for a sheet whose controls are in hundredths of one (RULES 7.12).
ghost use Rattle.std.specs.Prelude.{◌≡◌, ◌≤◌};
ghost use Rattle.drawing.specs.Implementation.Pens.{Writes};
ghost use Rattle.drawing.specs.Pictures.{hundredths as hundredths_in, millimetres, size_in_millimetres, in_millimetres};

use crate::pages::Plate;
use crate::writing::Pen;

// The nearest to n ticks, a half upward.
#[tactic(auto, unfolding(crate::specs::Pictures::hundredths))]
fn hundredths(n: usize) -> usize
    requires { n ≤ 20000000 }
    ensures { result ≡ hundredths_in 32 n }
{
    (635 * n + 288) / 576
}

// With two decimals.
#[tactic(auto, unfolding(crate::specs::Pictures::millimetres))]
fn put_millimetres(pen: &mut Pen, list: &[u8], n: usize)
    requires { n ≤ 20000000 }
    ensures { Writes (millimetres list.now n) pen.old pen.new }
{
    let h = hundredths(n);
    pen.put_numbers(b"~0.~1~2 mm", list, &[h / 100, h / 10 % 10, h % 10]);
}

#[tactic(auto, unfolding(crate::specs::Pictures::size_in_millimetres))]
fn put_size(pen: &mut Pen, plate: &Plate)
    ensures { Writes (size_in_millimetres plate.now.page plate.now.list.now) pen.old pen.new }
{
    pen.put_words(b" (", plate.list);
    put_millimetres(pen, plate.list, plate.page.width);
    pen.put_words(b" &#215; ", plate.list);
    put_millimetres(pen, plate.list, plate.page.height);
    pen.put_words(b", rounded)", plate.list);
}

#[tactic(auto, unfolding(crate::specs::Pictures::in_millimetres, crate::specs::Pieces::emits))]
pub fn put_in_millimetres(pen: &mut Pen, plate: &Plate, metric: bool)
    ensures { Writes (in_millimetres metric plate.now.page plate.now.list.now) pen.old pen.new }
{
    if metric {
        put_size(pen, plate);
    }
}
