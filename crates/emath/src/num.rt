// Two numbers: min, max, at_least, at_most and fast_midpoint (RULES 1.3, 1.6). Not std's min and max,
// which promise neither which of two equal numbers they answer nor a zero's sign.
ghost use Rattle.std.specs.Prelude.{◌≡◌};
ghost use Rattle.emath.specs.Rectangles.{min_f, max_f, at_least, at_most, midpoint, is_infinite};

// Of two equal numbers the first; a NaN gives way to the other.
pub fn min(a: f32, b: f32) -> f32
    ensures { result ≡ min_f a b }
{
    if b < a || a != a { b } else { a }
}

// Of two equal numbers the first; a NaN gives way to the other.
pub fn max(a: f32, b: f32) -> f32
    ensures { result ≡ max_f a b }
{
    if a < b || a != a { b } else { a }
}

pub fn at_least(x: f32, lower: f32) -> f32
    ensures { result ≡ at_least x lower }
{
    max(x, lower)
}

pub fn at_most(x: f32, upper: f32) -> f32
    ensures { result ≡ at_most x upper }
{
    min(x, upper)
}

pub fn fast_midpoint(a: f32, b: f32) -> f32
    ensures { result ≡ midpoint a b }
{
    0.5 * (a + b)
}

// +infinity alone.
pub fn is_infinite(x: f32) -> bool
    ensures { result ≡ is_infinite x }
{
    x == f32::INFINITY
}
