// The parts of a record at the front of a text: bytes, lengths and counts, its end (RULES 6.5 to 6.7, 6.9, 6.24).
ghost use Rattle.std.specs.Prelude.{◌≡◌, ◌≤◌, ◌<◌, nat_abs, get_or};
ghost use Rattle.records.specs.Parts.{points as points_of, length_in, size_in, count_in, is_length, is_maximum, length_value, maximum_value, is_count, natural as natural_of, count_value, ends as ends_with};

use crate::units::in_steps;
use crate::{LIMIT, Length, SizeUnit};
use emath::TICKS_PER_POINT;
use text::Field;
use text::fields::read_field;

// 0 beyond the text's end.
pub fn byte(text: &[u8], at: usize) -> u8
    ensures { result ≡ get_or text.now at 0 }
{
    text.get(at).copied().unwrap_or(0)
}

// From ticks.
fn points(z: i32) -> f32
    requires { nat_abs z ≤ 2097152 }
    ensures { result ≡ points_of z }
{
    z as f32 / TICKS_PER_POINT
}

// Field i of the record, from 0, in this unit.
pub fn size(text: &[u8], unit: SizeUnit, i: usize) -> Length
    requires { i < 12 }
    ensures { result ≡ size_in unit text.now i }
{
    match read_field(text, 1 + 8 * i, LIMIT) {
        Field::Blank => Length::Blank,
        Field::Number(z) => Length::Points(points(in_steps(unit, z))),
        Field::Wrong => Length::Wrong,
    }
}

// Field i of any record but a W: in steps, whatever the sheet's unit.
#[tactic(auto, unfolding(crate::specs::Parts::length_in))]
pub fn length(text: &[u8], i: usize) -> Length
    requires { i < 12 }
    ensures { result ≡ length_in text.now i }
{
    size(text, SizeUnit::Steps, i)
}

// Field i of the record, whose number is at most `most`.
#[tactic(auto, unfolding(crate::specs::Parts::count_in))]
pub fn count(text: &[u8], i: usize, most: u32) -> Field
    requires { i < 12 }
    ensures { result ≡ count_in text.now i most }
{
    read_field(text, 1 + 8 * i, most)
}

#[tactic(auto, unfolding(crate::specs::Parts::is_length))]
pub fn is_length(l: Length) -> bool
    ensures { result ≡ is_length l }
{
    matches!(l, Length::Points(_))
}

// A maximum may be blank; it is then +infinity.
#[tactic(auto, unfolding(crate::specs::Parts::is_maximum))]
pub fn is_maximum(l: Length) -> bool
    ensures { result ≡ is_maximum l }
{
    !matches!(l, Length::Wrong)
}

#[tactic(auto, unfolding(crate::specs::Parts::length_value))]
pub fn length_value(l: Length) -> f32
    ensures { result ≡ length_value l }
{
    match l {
        Length::Points(x) => x,
        _ => 0.0,
    }
}

#[tactic(auto, unfolding(crate::specs::Parts::maximum_value))]
pub fn maximum_value(l: Length) -> f32
    ensures { result ≡ maximum_value l }
{
    match l {
        Length::Points(x) => x,
        Length::Blank => f32::INFINITY,
        Length::Wrong => 0.0,
    }
}

#[tactic(auto, unfolding(crate::specs::Parts::is_count))]
pub fn is_count(f: Field, least: i32) -> bool
    ensures { result ≡ is_count f least }
{
    match f {
        Field::Number(z) => least <= z,
        _ => false,
    }
}

#[tactic(auto, unfolding(crate::specs::Parts::natural))]
fn natural(z: i32) -> usize
    ensures { result ≡ natural_of z }
{
    usize::try_from(z).unwrap_or(0)
}

// 0 for a blank.
#[tactic(auto, unfolding(crate::specs::Parts::count_value))]
pub fn count_value(f: Field) -> usize
    ensures { result ≡ count_value f }
{
    match f {
        Field::Number(z) => natural(z),
        _ => 0,
    }
}

// One LF after n fields.
#[tactic(auto, unfolding(crate::specs::Parts::ends))]
pub fn ends(text: &[u8], n: usize) -> bool
    requires { n ≤ 12 }
    ensures { result ≡ ends_with text.now n }
{
    byte(text, 1 + 8 * n) == b'\n'
}
