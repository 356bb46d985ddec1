// RULES 8.5: why values of this crate's types are refused of their own; RULES 8.2, 8.4, 8.13: which of several reasons is the call's, and
// what the call answers: by a refusal, and by its number too, which may be any byte, 0 for none.
ghost use Rattle.std.specs.Prelude.{◌≡◌, not};
ghost use Rattle.emath.specs.Numbers as number;
ghost use Rattle.emath.specs.Refusals.{when, lesser, or_else, length_fault, extent_fault, pair_fault, size_fault, edges_fault, rect_fault, outside, number_of, fault_number, answered, answer};

use crate::domain::{both_finite, both_within, is_finite, is_within};
use crate::{Rect, Refusal, Vec2};

impl Refusal {
    pub fn number(self) -> u8
        ensures { result ≡ number_of self }
    {
        self as u8
    }
}

// 0 for none.
pub fn fault_number(fault: Option<Refusal>) -> u8
    ensures { result ≡ fault_number fault }
{
    match fault {
        None => 0,
        Some(refusal) => refusal.number(),
    }
}

pub fn number_when(b: bool, n: u8) -> u8
    ensures { result ≡ when b n }
{
    if b { n } else { 0 }
}

pub fn lesser_number(a: u8, b: u8) -> u8
    ensures { result ≡ lesser a b }
{
    if a == 0 {
        return b;
    }
    if b == 0 {
        return a;
    }
    if a < b { a } else { b }
}

// The one with the lesser number.
pub fn first_of(a: Option<Refusal>, b: Option<Refusal>) -> Option<Refusal>
    ensures { fault_number result ≡ lesser (fault_number a) (fault_number b) }
{
    let Some(x) = a else {
        return b;
    };
    let Some(y) = b else {
        return a;
    };
    Some(x.min(y))
}

pub fn or_else(n: u8, m: u8) -> u8
    ensures { result ≡ or_else n m }
{
    if n == 0 { m } else { n }
}

// Of numbers that are not all within the limit.
fn beyond(are_finite: bool) -> Refusal
    ensures { number_of result ≡ lesser (when (not are_finite) number.not_finite) number.too_far }
{
    if are_finite {
        Refusal::TooFar
    } else {
        Refusal::NotFinite
    }
}

// What is within the limit is finite: here and below most calls end at the first test, so the second is not worked out before it. A closure
// for it would be no shorter.
pub fn length_fault(x: f32) -> Option<Refusal>
    ensures { fault_number result ≡ length_fault x }
{
    if is_within(x) {
        return None;
    }
    Some(beyond(is_finite(x)))
}

// Of a maximum width or height, say, which is not negative. What is beyond the limit is refused for that, as the number is less: so here and
// below the first test decides which of the two faults there may be.
pub fn extent_fault(x: f32) -> Option<Refusal>
    ensures { fault_number result ≡ extent_fault x }
{
    if is_within(x) {
        return (x < 0.0).then_some(Refusal::Negative);
    }
    length_fault(x)
}

pub fn pair_fault(x: f32, y: f32) -> Option<Refusal>
    ensures { fault_number result ≡ pair_fault x y }
{
    if both_within(x, y) {
        return None;
    }
    Some(beyond(both_finite(x, y)))
}

pub fn size_fault(v: Vec2) -> Option<Refusal>
    ensures { fault_number result ≡ size_fault v }
{
    if both_within(v.x, v.y) {
        return v.is_negative().then_some(Refusal::Negative);
    }
    pair_fault(v.x, v.y)
}

pub fn edges_fault(r: Rect) -> Option<Refusal>
    ensures { fault_number result ≡ edges_fault r }
{
    if r.is_within() {
        return None;
    }
    Some(beyond(r.is_finite()))
}

pub fn rect_fault(r: Rect) -> Option<Refusal>
    ensures { fault_number result ≡ rect_fault r }
{
    if r.is_within() {
        return r.is_inside_out().then_some(Refusal::Negative);
    }
    edges_fault(r)
}

// The number of an answer or a new state that has the fault n.
pub fn outside_domain(n: u8) -> u8
    ensures { result ≡ outside n }
{
    if n == 0 { 0 } else { Refusal::Outside.number() }
}

// The same by the fault.
pub fn outside(fault: Option<Refusal>) -> Option<Refusal>
    ensures { fault_number result ≡ outside (fault_number fault) }
{
    fault.and(Some(Refusal::Outside))
}

// What a call answers that has this fault, or none.
pub fn answer<T>(fault: Option<Refusal>, value: T) -> Result<T, Refusal>
where
    T: Drop,
    ensures { result ≡ answered fault value }
{
    match fault {
        None => Ok(value),
        Some(refusal) => Err(refusal),
    }
}

// The same by the number.
pub fn answer_by_number<T>(n: u8, value: T) -> Result<T, u8>
where
    T: Drop,
    ensures { result ≡ answer n value }
{
    if n == 0 { Ok(value) } else { Err(n) }
}
