// Crate emath's numbers, rounding, domain and numbers of refusal.
ghost use Rattle.std.specs.Prelude.{◌≡◌, false};
ghost use Rattle.std.specs.Float.{inf, nan};
ghost use Rattle.emath.specs.Refusals.{when, lesser, or_else, outside};

use emath::Vec2;
use emath::faults::{
    edges_fault, extent_fault, fault_number, length_fault, lesser_number, number_when, or_else,
    outside_domain, pair_fault, rect_fault, size_fault,
};
use probe_values::rects::rect_of;

#[unsafe(no_mangle)]
pub extern "C" fn emath_num_min(a: f32, b: f32) -> f32 {
    emath::num::min(a, b)
}

#[unsafe(no_mangle)]
pub extern "C" fn emath_num_max(a: f32, b: f32) -> f32 {
    emath::num::max(a, b)
}

#[unsafe(no_mangle)]
pub extern "C" fn emath_num_at_least(x: f32, lower: f32) -> f32 {
    emath::num::at_least(x, lower)
}

#[unsafe(no_mangle)]
pub extern "C" fn emath_num_at_most(x: f32, upper: f32) -> f32 {
    emath::num::at_most(x, upper)
}

#[unsafe(no_mangle)]
pub extern "C" fn emath_num_fast_midpoint(a: f32, b: f32) -> f32 {
    emath::num::fast_midpoint(a, b)
}

#[unsafe(no_mangle)]
pub extern "C" fn emath_num_infinity() -> f32
    ensures { result ≡ inf false }
{
    f32::INFINITY
}

#[unsafe(no_mangle)]
pub extern "C" fn emath_num_nan() -> f32
    ensures { result ≡ nan }
{
    f32::NAN
}

#[unsafe(no_mangle)]
pub extern "C" fn emath_num_is_infinite(x: f32) -> bool {
    emath::num::is_infinite(x)
}

#[unsafe(no_mangle)]
pub extern "C" fn emath_gui_round(x: f32) -> f32 {
    emath::gui_rounding::round(x)
}

#[unsafe(no_mangle)]
pub extern "C" fn emath_gui_round_by(per: f32, x: f32) -> f32 {
    emath::gui_rounding::round_by(per, x)
}

#[unsafe(no_mangle)]
pub extern "C" fn emath_gui_round_ui(x: f32) -> f32 {
    emath::gui_rounding::round_ui(x)
}

#[unsafe(no_mangle)]
pub extern "C" fn emath_domain_is_finite(x: f32) -> bool {
    emath::domain::is_finite(x)
}

#[unsafe(no_mangle)]
pub extern "C" fn emath_domain_is_within(x: f32) -> bool {
    emath::domain::is_within(x)
}

#[unsafe(no_mangle)]
pub extern "C" fn emath_domain_both_finite(x: f32, y: f32) -> bool {
    emath::domain::both_finite(x, y)
}

#[unsafe(no_mangle)]
pub extern "C" fn emath_domain_both_within(x: f32, y: f32) -> bool {
    emath::domain::both_within(x, y)
}

#[unsafe(no_mangle)]
pub extern "C" fn emath_vec2_is_negative(x: f32, y: f32) -> bool {
    let v = Vec2 { x, y };
    v.is_negative()
}

#[unsafe(no_mangle)]
pub extern "C" fn emath_faults_number_when(b: bool, n: u8) -> u8
    ensures { result ≡ when b n }
{
    number_when(b, n)
}

#[unsafe(no_mangle)]
pub extern "C" fn emath_faults_or_else(n: u8, m: u8) -> u8
    ensures { result ≡ or_else n m }
{
    or_else(n, m)
}

#[unsafe(no_mangle)]
pub extern "C" fn emath_faults_lesser_number(a: u8, b: u8) -> u8
    ensures { result ≡ lesser a b }
{
    lesser_number(a, b)
}

#[unsafe(no_mangle)]
pub extern "C" fn emath_faults_length_fault(x: f32) -> u8 {
    fault_number(length_fault(x))
}

#[unsafe(no_mangle)]
pub extern "C" fn emath_faults_extent_fault(x: f32) -> u8 {
    fault_number(extent_fault(x))
}

#[unsafe(no_mangle)]
pub extern "C" fn emath_faults_pair_fault(x: f32, y: f32) -> u8 {
    fault_number(pair_fault(x, y))
}

#[unsafe(no_mangle)]
pub extern "C" fn emath_faults_size_fault(x: f32, y: f32) -> u8 {
    fault_number(size_fault(Vec2 { x, y }))
}

#[unsafe(no_mangle)]
pub extern "C" fn emath_faults_edges_fault(r: &[f32; 4]) -> u8 {
    fault_number(edges_fault(rect_of(r)))
}

#[unsafe(no_mangle)]
pub extern "C" fn emath_faults_rect_fault(r: &[f32; 4]) -> u8 {
    fault_number(rect_fault(rect_of(r)))
}

#[unsafe(no_mangle)]
pub extern "C" fn emath_faults_outside_domain(n: u8) -> u8
    ensures { result ≡ outside n }
{
    outside_domain(n)
}
