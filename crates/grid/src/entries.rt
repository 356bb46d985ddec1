// Lists of lengths: the first `n` entries of an array of either length, as the Rust's Vec holds them.
ghost use Rattle.std.specs.Prelude.{◌≡◌, ◌+◌, ◌-◌, ◌<◌, ◌≤◌, eqb, length, take};
ghost use Rattle.std.specs.List.{list_all};
ghost use Rattle.emath.specs.Refusals.{extent_fault, fault_number};
ghost use Rattle.grid.specs.Entries.{entry, cleared, raised, total, same_entries, entries_fault};
ghost use Rattle.grid.specs.Memories.{raised_count};

use crate::memories::{capped_count, raised_count};
use emath::Refusal;
use emath::faults::{extent_fault, first_of};
use emath::num::max;

// The first `n`, or all where there are fewer.
pub fn counted(xs: &[f32], n: usize) -> &[f32]
    ensures { result.now ≡ take n xs.now }
{
    &xs[..capped_count(n, xs.len())]
}

// The entry at `i`, or `other` where there is none.
pub fn entry(entries: &[f32], i: usize, other: f32) -> f32
    ensures { result ≡ entry entries.now i other }
{
    match entries.get(i) {
        Some(entry) => *entry,
        None => other,
    }
}

// 0 at each place from `from` to `to`, mostly none: a fill of none is a call.
fn clear(xs: &mut [f32], from: usize, to: usize)
    requires { to ≤ length xs.old }
    ensures { xs.new ≡ cleared xs.old from (to - from) }
{
    if from < to {
        xs[from..to].fill(0.0);
    }
}

// The entry at `i` made at least `w`; entries that are new before it are 0. How many are counted then. It writes beyond
// the first `n`, so it takes the array.
pub fn raise(xs: &mut [f32], n: usize, i: usize, w: f32) -> usize
    requires { i < length xs.old }
    ensures array { xs.new ≡ raised xs.old n i w }
    ensures count { result ≡ raised_count n (i + 1) }
{
    let raised = max(entry(counted(&*xs, n), i, 0.0), w);
    clear(xs, n, i);
    xs[i] = raised;
    raised_count(n, i + 1)
}

// The sum, from the first on.
pub fn total_of(entries: &[f32]) -> f32
    ensures { result ≡ total entries.now }
{
    let mut sum = 0.0;
    for x in entries {
        sum += *x;
    }
    sum
}

// Whether both have as many, each equal to its counterpart, a zero's sign aside. `==` of the slices takes four times as long.
pub fn same_entries(xs: &[f32], ys: &[f32]) -> bool
    ensures { result ≡ same_entries xs.now ys.now }
{
    if xs.len() != ys.len() {
        return false;
    }
    let mut same = true;
    for (x, y) in xs.iter().zip(ys) {
        same &= x == y;
    }
    same
}

fn is_sound(x: f32) -> bool
    ensures { result ≡ eqb (extent_fault x) 0 }
{
    extent_fault(x).is_none()
}

fn are_sound(entries: &[f32]) -> bool
    ensures { result ≡ list_all (λ x. eqb (extent_fault x) 0) entries.now }
{
    entries.iter().all(|&x| is_sound(x))
}

// The first fault of an entry: not finite, too far or negative. Mostly there is none, and then none is worked out.
pub fn entries_fault(entries: &[f32]) -> Option<Refusal>
    ensures { fault_number result ≡ entries_fault entries.now }
{
    if are_sound(entries) {
        return None;
    }
    let mut fault = None;
    for x in entries {
        fault = first_of(fault, extent_fault(*x));
    }
    fault
}
