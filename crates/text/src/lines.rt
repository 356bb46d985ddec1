// A line of the printed list: a letter, its numbers in the sheet's columns, one LF.
ghost use Rattle.std.specs.Prelude.{◌≡◌, true, ◌+◌, ◌*◌, ◌≤◌, length};
ghost use Rattle.std.proofs.lemmas.List.Edits.{sets};
ghost use Rattle.std.specs.List.{list_all};
ghost use Rattle.text.specs.Fields.{has_text};
ghost use Rattle.text.specs.Lines.{texts, have_texts, line, line_at};

use crate::fields::{has_text, put_signed};

fn have_texts(numbers: &[i32]) -> bool
    ensures { result ≡ list_all has_text numbers.now }
{
    numbers.iter().all(|&z| has_text(z))
}

// Writes the numbers' texts from `at`.
fn put_texts(out: &mut [u8], at: usize, numbers: &[i32])
    requires numbers_in_bounds { at + 8 * length numbers.now ≤ length out.old }
    requires numbers_value { have_texts numbers.now ≡ true }
    ensures { out.new ≡ sets out.old at (texts numbers.now) }
{
    for (i, &z) in numbers.iter().enumerate() {
        put_signed(out, at + 8 * i, z);
    }
}

fn put_line(out: &mut [u8], at: usize, letter: u8, numbers: &[i32])
    requires numbers_in_bounds { at + (2 + 8 * length numbers.now) ≤ length out.old }
    requires numbers_value { have_texts numbers.now ≡ true }
    ensures { out.new ≡ sets out.old at (line letter numbers.now) }
{
    let n = numbers.len();
    out[at] = letter;
    put_texts(out, at + 1, numbers);
    out[at + 1 + 8 * n] = b'\n';
}

// Writes a line from `at`, where it has room and each number a text; else nothing is written, and the answer is false: why
// makes no difference to a caller.
pub fn write_line(out: &mut [u8], at: usize, letter: u8, numbers: &[i32]) -> bool
    ensures { (result, out.new) ≡ line_at out.old at letter numbers.now }
{
    let m = out.len();
    if m < 2 || m - 2 < at || (m - 2 - at) / 8 < numbers.len() || !have_texts(numbers) {
        return false;
    }
    put_line(out, at, letter, numbers);
    true
}
