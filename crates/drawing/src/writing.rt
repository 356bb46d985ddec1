// Pieces of text one after the other.
ghost use Rattle.std.specs.Prelude.{◌≡◌, true, ◌∷◌, [], ◌+◌, ◌≤◌, ◌<◌, ◌%◌, get_or};
ghost use Rattle.text.specs.Fields.{text as text_of, has_text};
ghost use Rattle.drawing.specs.Pieces.{ink, inked, marked as marked_as, unmarked, part, next as next_of, filled, numeral as numeral_of};
ghost use Rattle.drawing.specs.Implementation.Pens.{Writes};

use crate::lists::Line;
use text::fields::write_field;

// No larger number is shown.
const MAX_SHOWN: usize = 99999999;

// What is written, and where the next piece begins.
#[derive(Drop)]
pub struct Pen<'a> {
    pub out: &'a mut [u8],
    pub at: usize,
}

// A number that is too large for the columns is shown as the largest; none is.
fn numeral(n: usize) -> i32
    ensures { (result ≡ numeral_of n) × (has_text (numeral_of n) ≡ true) }
{
    n.min(MAX_SHOWN) as i32
}

// 0 beyond the last.
fn number(numbers: &[usize], i: usize) -> usize
    ensures { result ≡ get_or numbers.now i 0 }
{
    numbers.get(i).copied().unwrap_or(0)
}

// A mark is one of these bytes, and 0 is none: `marked` and `part` of RULES 7.10 are over the bytes, so no enum stands in their place.
#[tactic(auto, unfolding(crate::specs::Pieces::marked))]
fn marked(b: u8) -> u8
    ensures { result ≡ marked_as b }
{
    match b {
        b'$' | b'@' | b'~' => b,
        _ => 0,
    }
}

#[tactic(auto, unfolding(crate::specs::Pieces::next))]
fn next(mark: u8, b: u8) -> u8
    ensures { result ≡ next_of mark b }
{
    if mark == 0 {
        return marked(b);
    }
    0
}

impl Pen<'_> {
    fn put_byte(&mut self, b: u8)
        ensures { Writes ((b ∷ []) ∷ []) self.old self.new }
    {
        if self.at < self.out.len() {
            self.out[self.at] = b;
            self.at += 1;
        }
    }

    // The number in its eight columns.
    fn put_number(&mut self, z: i32)
        requires { has_text z ≡ true }
        ensures { Writes (text_of z ∷ []) self.old self.new }
    {
        if write_field(self.out, self.at, z) {
            self.at += 8;
        }
    }

    #[tactic(auto, unfolding(crate::specs::Pieces::ink, crate::specs::Pieces::emits))]
    fn put_ink(&mut self, b: u8)
        ensures { Writes (ink b) self.old self.new }
    {
        if b != b' ' {
            self.put_byte(b);
        }
    }

    // The bytes that are no spaces.
    fn put_inked(&mut self, bytes: &[u8])
        ensures { Writes (inked bytes.now) self.old self.new }
    {
        for b in bytes {
            self.put_ink(*b);
        }
    }

    // The number without the spaces before it.
    fn put_plain(&mut self, z: i32)
        requires { has_text z ≡ true }
        ensures { Writes (inked (text_of z)) self.old self.new }
    {
        let mut columns = [b' '; 8];
        write_field(&mut columns, 0, z);
        self.put_inked(&columns);
    }

    #[tactic(auto, unfolding(crate::specs::Pieces::unmarked, crate::specs::Pieces::emits))]
    fn put_unmarked(&mut self, b: u8)
        ensures { Writes (unmarked b) self.old self.new }
    {
        if marked(b) == 0 {
            self.put_byte(b);
        }
    }

    // A byte of a template after a mark, or after none.
    #[tactic(auto, unfolding(crate::specs::Pieces::part))]
    fn put_part(&mut self, mark: u8, b: u8, line: Line, numbers: &[usize])
        ensures { Writes (part mark b line.entry.list.now line.entry.at numbers.now) self.old self.new }
    {
        let i = (b % 16) as usize;
        match mark {
            b'$' => self.put_plain(line.field(i)),
            b'@' => self.put_number(line.field(i)),
            b'~' => self.put_plain(numeral(number(numbers, i))),
            _ => self.put_unmarked(b),
        }
    }

    // A template, with the fields of a line of the list and other numbers in it.
    pub fn put_filled(&mut self, template: &[u8], line: Line, numbers: &[usize])
        ensures { Writes (filled template.now line.entry.list.now line.entry.at numbers.now) self.old self.new }
    {
        let mut mark: u8 = 0;
        for b in template {
            self.put_part(mark, *b, line, numbers);
            mark = next(mark, *b);
        }
    }

    // A template in which no field stands but those of the list's first line.
    pub fn put_numbers(&mut self, template: &[u8], list: &[u8], numbers: &[usize])
        ensures { Writes (filled template.now list.now 0 numbers.now) self.old self.new }
    {
        self.put_filled(template, Line { list, at: 0 }, numbers);
    }

    // Nor any number.
    pub fn put_words(&mut self, words: &[u8], list: &[u8])
        ensures { Writes (filled words.now list.now 0 []) self.old self.new }
    {
        self.put_numbers(words, list, &[]);
    }
}
