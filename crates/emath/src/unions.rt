// A core for passes: union where the first rectangle has no NaN, with one comparison for each edge.
ghost use Rattle.std.specs.Prelude.{◌≡◌};
ghost use Rattle.emath.specs.Implementation.NoNaN.{IsNumber, Numbers};
ghost use Rattle.emath.specs.Rectangles.{min_f, max_f, union};

use crate::Rect;

fn lesser(a: f32, b: f32) -> f32
    requires { IsNumber a }
    ensures { result ≡ min_f a b }
{
    if b < a { b } else { a }
}

fn greater(a: f32, b: f32) -> f32
    requires { IsNumber a }
    ensures { result ≡ max_f a b }
{
    if a < b { b } else { a }
}

pub fn union_with(rect: Rect, other: Rect) -> Rect
    requires { Numbers rect }
    ensures { result ≡ union rect other }
{
    Rect {
        left: lesser(rect.left, other.left),
        top: lesser(rect.top, other.top),
        right: greater(rect.right, other.right),
        bottom: greater(rect.bottom, other.bottom),
    }
}
