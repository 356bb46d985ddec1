// One record, by its letter (RULES 6.10, 6.24), and where the next one begins (RULES 6.5).
ghost use Rattle.std.specs.Prelude.{◌≡◌, ◌≤◌};
ghost use Rattle.records.specs.Records.{step_record, widget_record, single_record, record_of, record_at, field_count, next_at};

use crate::parts::{byte, ends, is_length, length, length_value, size};
use crate::{SizeUnit, Step};

// A record of n fields, which fit or don't: this step where they do and an LF stands after them, and else none.
#[tactic(auto, unfolding(crate::specs::Records::step_record))]
fn step_record(text: &[u8], n: usize, fits: bool, step: Step) -> Option<Step>
    requires { n ≤ 12 }
    ensures { result ≡ step_record text.now n fits step }
{
    (fits & ends(text, n)).then_some(step)
}

// Its size is in the sheet's unit.
#[tactic(auto, unfolding(crate::specs::Records::widget_record))]
fn widget(text: &[u8], unit: SizeUnit) -> Option<Step>
    ensures { result ≡ widget_record unit text.now }
{
    let width = size(text, unit, 0);
    let height = size(text, unit, 1);
    let fits = is_length(width) & is_length(height);
    step_record(
        text,
        2,
        fits,
        Step::Widget(length_value(width), length_value(height)),
    )
}

// A letter with one length.
#[tactic(auto, unfolding(crate::specs::Records::single_record))]
fn single(text: &[u8], letter: u8) -> Option<Step>
    ensures { result ≡ single_record text.now letter }
{
    let amount = length(text, 0);
    let fits = is_length(amount);
    let x = length_value(amount);
    match letter {
        b'S' => step_record(text, 1, fits, Step::Space(x)),
        b'R' => step_record(text, 1, fits, Step::RowHeight(x)),
        b'L' => step_record(text, 1, fits, Step::MaxWidth(x)),
        b'K' => step_record(text, 1, fits, Step::MaxHeight(x)),
        b'N' => step_record(text, 1, fits, Step::MinWidth(x)),
        b'T' => step_record(text, 1, fits, Step::MinHeight(x)),
        _ => None,
    }
}

// The step at the front of the text; none where the record is malformed.
#[tactic(auto, unfolding(crate::specs::Records::record_of))]
pub fn first_record(text: &[u8], unit: SizeUnit) -> Option<Step>
    ensures { result ≡ record_of unit text.now }
{
    let letter = byte(text, 0);
    match letter {
        b'W' => widget(text, unit),
        b'E' => step_record(text, 0, true, Step::RowEnd),
        _ => single(text, letter),
    }
}

// The step at a place; none beyond the text's end.
pub fn read_record(text: &[u8], unit: SizeUnit, at: usize) -> Option<Step>
    ensures { result ≡ record_at unit text.now at }
{
    if text.len() < at {
        return None;
    }
    first_record(&text[at..], unit)
}

// An arm for each letter, W early: joined, they would be a jump through a table, at each record.
#[tactic(auto, unfolding(crate::specs::Records::field_count))]
fn field_count(letter: u8) -> usize
    ensures { (result ≡ field_count letter) × (result ≤ 12) }
{
    match letter {
        b'H' => 12,
        b'G' => 6,
        b'W' => 2,
        b'S' => 1,
        b'R' => 1,
        b'L' => 1,
        b'K' => 1,
        b'N' => 1,
        b'T' => 1,
        _ => 0,
    }
}

// Where the record after the one at `at` begins, or the text's end.
pub fn next_record(text: &[u8], at: usize) -> usize
    ensures { result ≡ next_at text.now at }
{
    let n = text.len();
    if n < at {
        return n;
    }
    let size = 2 + 8 * field_count(byte(text, at));
    if n - at < size {
        return n;
    }
    at + size
}
