// The numbers and lines of a printed list.
ghost use Rattle.std.specs.Prelude.{◌≡◌, true, ◌+◌, ◌-◌, ◌*◌, ◌≤◌, ◌<◌, nat_abs};
ghost use Rattle.text.specs.Fields.{has_text};
ghost use Rattle.drawing.specs.Pieces.{value_of, field_of};
ghost use Rattle.drawing.specs.Pages.{biased as biased_by, place_of, span as span_of, is_line, lines_from};

use text::Field;
use text::fields::read_field;

const MAX_NUMBER: u32 = 9999999;

pub const MAX_CONTROLS: usize = 512;

// The place that stands for 0.
pub const ORIGIN: usize = 10000000;

// How long a W, a P and a C or D line are.
pub const CONTROL_SIZE: usize = 74;

pub const PLATE_SIZE: usize = 34;

pub const CELL_SIZE: usize = 18;

// A line of a list, by where it begins.
#[derive(Clone, Copy)]
pub struct Line<'a> {
    pub list: &'a [u8],
    pub at: usize,
    ghost near: { at ≤ 1000000 },
}

// 0 where there is no number, as `value_of` of RULES 7.10 has it.
#[tactic(auto, unfolding(crate::specs::Pieces::value_of))]
fn value_of(f: Field) -> i32
    ensures { result ≡ value_of f }
{
    if let Field::Number(z) = f { z } else { 0 }
}

// Counted from ten million before zero.
#[tactic(auto, unfolding(crate::specs::Pages::biased))]
fn biased(z: i32) -> usize
    requires { nat_abs z ≤ 9999999 }
    ensures { (result ≡ biased_by z) × (result < 20000000) }
{
    let n = z.unsigned_abs() as usize;
    if z < 0 { ORIGIN - n } else { ORIGIN + n }
}

impl Line<'_> {
    // Field i, from 0.
    pub fn field(self, i: usize) -> i32
        requires { i ≤ 16 }
        ensures { (result ≡ field_of self.entry.list.now self.entry.at i) × (has_text result ≡ true) × (nat_abs result ≤ 9999999) }
    {
        value_of(read_field(self.list, self.at + (1 + 8 * i), MAX_NUMBER))
    }

    #[tactic(auto, unfolding(crate::specs::Pages::place_of))]
    pub fn place(self, i: usize) -> usize
        requires { i ≤ 16 }
        ensures { (result ≡ place_of self.entry.list.now self.entry.at i) × (result < 20000000) }
    {
        biased(self.field(i))
    }

    // From field i to field j, 0 where that is backward.
    #[tactic(auto, unfolding(crate::specs::Pages::span))]
    pub fn span(self, i: usize, j: usize) -> usize
        requires { (i ≤ 16) × (j ≤ 16) }
        ensures { (result ≡ span_of self.entry.list.now self.entry.at i j) × (result ≤ 20000000) }
    {
        self.place(j).saturating_sub(self.place(i))
    }
}

// Whether a line of this letter and length begins there.
#[tactic(auto, unfolding(crate::specs::Pages::is_line))]
pub fn is_line(list: &[u8], at: usize, letter: u8, size: usize) -> bool
    requires { 0 < size }
    ensures { result ≡ is_line letter size list.now at }
{
    list.get(at..)
        .is_some_and(|line| size <= line.len() && line[0] == letter)
}

// How many such lines stand there one after the other, so many at the most.
pub fn count_lines(list: &[u8], from: usize, letter: u8, size: usize, most: usize) -> usize
    requires { 0 < size }
    ensures { (result ≡ lines_from most letter size list.now from) × (result ≤ most) }
{
    for n in 0..most {
        if !is_line(list, from + size * n, letter, size) {
            return n;
        }
    }
    most
}
