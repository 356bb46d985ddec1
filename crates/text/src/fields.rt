// RULES 6.2 to 6.4: a whole number in eight columns, read and written.
ghost use Rattle.std.specs.Prelude.{◌≡◌, ◌==◌, not, ◌+◌, ◌≤◌, ◌<◌, length, nat_abs, position, IfSome};
ghost use Rattle.std.proofs.lemmas.List.Edits.{sets};
ghost use Rattle.text.specs.Letters.{SPACE};
ghost use Rattle.text.specs.Fields.{field, field_at, has_text, text, written_at};
ghost use Rattle.text.specs.Implementation.Scanning.{value_from, unsigned as unsigned_of, plus as plus_of, minus as minus_of, signed as signed_of};

use crate::Field;
use crate::digits::put;
use crate::short::short_number;

// The number that the columns make, all of them digits. They are at most eight, here and in the two that read what is left of a field: a type for that
// would be made at each call and taken apart in the next.
fn value(digits: &[u8]) -> Option<u32>
    requires { length digits.now ≤ 8 }
    ensures value { result ≡ value_from 0 digits.now }
    ensures bound { IfSome result (λ n. n < 100000000) }
{
    let mut n: u32 = 0;
    for &b in digits {
        if !b.is_ascii_digit() {
            return None;
        }
        n = n * 10 + (b - b'0') as u32;
    }
    Some(n)
}

// A zero stands alone: no digit comes after it.
fn unsigned(digits: &[u8]) -> Option<u32>
    requires { length digits.now ≤ 8 }
    ensures value { result ≡ unsigned_of digits.now }
    ensures bound { IfSome result (λ n. n < 100000000) }
{
    match digits {
        [] => None,
        [b'0', more @ ..] => { if more.is_empty() { Some(0) } else { None } }
        _ => value(digits),
    }
}

#[tactic(auto, using(crate::proofs::ScanTurns::sign_turns))]
fn plus(n: Option<u32>, limit: u32) -> Field
    requires { IfSome n (λ n. n < 100000000) }
    ensures { result ≡ plus_of limit n }
{
    match n {
        Some(n) if n <= limit => Field::Number(n as i32),
        _ => Field::Wrong,
    }
}

#[tactic(auto, using(crate::proofs::ScanTurns::sign_turns))]
fn minus(n: Option<u32>, limit: u32) -> Field
    requires { IfSome n (λ n. n < 100000000) }
    ensures { result ≡ minus_of limit n }
{
    match n {
        Some(0) => Field::Wrong,
        Some(n) if n <= limit => Field::Number(-(n as i32)),
        _ => Field::Wrong,
    }
}

// From the first column that is no space.
fn signed(f: &[u8], limit: u32) -> Field
    requires { length f.now ≤ 8 }
    ensures { result ≡ signed_of limit f.now }
{
    match f {
        [] => Field::Wrong,
        [b'-', digits @ ..] => minus(unsigned(digits), limit),
        _ => plus(unsigned(f), limit),
    }
}

// The first column that is no space.
fn begin(f: &[u8]) -> Option<usize>
    ensures { result ≡ position (λ b. not (b == SPACE)) f.now }
{
    f.iter().position(|&b| b != b' ')
}

// Any field, column by column.
fn read_long(f: &[u8; 8], limit: u32) -> Field
    ensures { result ≡ field limit f.now }
{
    match begin(f) {
        Some(i) => signed(&f[i..], limit),
        None => Field::Blank,
    }
}

fn read_columns(f: &[u8; 8], limit: u32) -> Field
    ensures { result ≡ field limit f.now }
{
    match short_number(f) {
        None => read_long(f, limit),
        n => plus(n, limit),
    }
}

// What the eight columns from `at` hold; wrong where there are fewer.
pub fn read_field(text: &[u8], at: usize, limit: u32) -> Field
    ensures { result ≡ field_at limit text.now at }
{
    let Some(rest) = text.get(at..) else {
        return Field::Wrong;
    };
    match rest.first_chunk::<8>() {
        Some(f) => read_columns(f, limit),
        None => Field::Wrong,
    }
}

// Whether z has a text of eight columns.
pub fn has_text(z: i32) -> bool
    ensures { result ≡ has_text z }
{
    (-9_999_999..=99_999_999).contains(&z)
}

pub fn magnitude(z: i32) -> u32
    ensures { result ≡ nat_abs z }
{
    z.unsigned_abs()
}

// Writes the text of a number that has one over all of the slice.
fn put_text(columns: &mut [u8], z: i32)
    requires { (8 ≡ length columns.old) × (nat_abs z < 100000000) }
    ensures { columns.new ≡ text z }
{
    let Some(columns) = columns.as_mut_array() else {
        unreachable!()
    };
    put(columns, z < 0, magnitude(z));
}

// Writes a number that has a text in the eight columns from `at`.
pub(crate) fn put_signed(out: &mut [u8], at: usize, z: i32)
    requires { (at + 8 ≤ length out.old) × (nat_abs z < 100000000) }
    ensures { out.new ≡ sets out.old at (text z) }
{
    put_text(&mut out[at..at + 8], z);
}

// Writes z in the eight columns from `at`, where it has a text and they are there; else nothing is written, and the answer is false: why makes
// no difference to a caller.
pub fn write_field(out: &mut [u8], at: usize, z: i32) -> bool
    ensures { (result, out.new) ≡ written_at out.old at z }
{
    if out.len() < 8 || out.len() - 8 < at || !has_text(z) {
        return false;
    }
    put_signed(out, at, z);
    true
}
