// Crate emath's rectangles and aligns.
use emath::{Align, Align2, Pos2, Rangef, Rect, Vec2};
use probe_values::rects::{Numbers, align_of, align2_of, code_of, rect_of};

#[unsafe(no_mangle)]
pub extern "C" fn emath_rect_width(r: &[f32; 4]) -> f32 {
    rect_of(r).width()
}

#[unsafe(no_mangle)]
pub extern "C" fn emath_rect_height(r: &[f32; 4]) -> f32 {
    rect_of(r).height()
}

#[unsafe(no_mangle)]
pub extern "C" fn emath_rect_size(r: &[f32; 4], out: &mut [f32; 2]) {
    *out = rect_of(r).size().numbers();
}

#[unsafe(no_mangle)]
pub extern "C" fn emath_rect_center(r: &[f32; 4], out: &mut [f32; 2]) {
    *out = rect_of(r).center().numbers();
}

#[unsafe(no_mangle)]
pub extern "C" fn emath_rect_from_min_size(px: f32, py: f32, sx: f32, sy: f32, out: &mut [f32; 4]) {
    *out = Rect::from_min_size(Pos2 { x: px, y: py }, Vec2 { x: sx, y: sy }).numbers();
}

#[unsafe(no_mangle)]
pub extern "C" fn emath_rect_from_center_size(
    px: f32,
    py: f32,
    sx: f32,
    sy: f32,
    out: &mut [f32; 4],
) {
    *out = Rect::from_center_size(Pos2 { x: px, y: py }, Vec2 { x: sx, y: sy }).numbers();
}

#[unsafe(no_mangle)]
pub extern "C" fn emath_rect_translate(r: &[f32; 4], x: f32, y: f32, out: &mut [f32; 4]) {
    *out = rect_of(r).translate(Vec2 { x, y }).numbers();
}

#[unsafe(no_mangle)]
pub extern "C" fn emath_rect_intersect(r: &[f32; 4], other: &[f32; 4], out: &mut [f32; 4]) {
    *out = rect_of(r).intersect(rect_of(other)).numbers();
}

#[unsafe(no_mangle)]
pub extern "C" fn emath_rect_union(r: &[f32; 4], other: &[f32; 4], out: &mut [f32; 4]) {
    *out = rect_of(r).union(rect_of(other)).numbers();
}

#[unsafe(no_mangle)]
pub extern "C" fn emath_rect_extend_with_x(r: &[f32; 4], x: f32, out: &mut [f32; 4]) {
    *out = rect_of(r).extend_with_x(x).numbers();
}

#[unsafe(no_mangle)]
pub extern "C" fn emath_rect_extend_with_y(r: &[f32; 4], y: f32, out: &mut [f32; 4]) {
    *out = rect_of(r).extend_with_y(y).numbers();
}

#[unsafe(no_mangle)]
pub extern "C" fn emath_rect_shrink(r: &[f32; 4], amount: f32, out: &mut [f32; 4]) {
    *out = rect_of(r).shrink(amount).numbers();
}

#[unsafe(no_mangle)]
pub extern "C" fn emath_rect_intersects(r: &[f32; 4], other: &[f32; 4]) -> bool {
    rect_of(r).intersects(rect_of(other))
}

#[unsafe(no_mangle)]
pub extern "C" fn emath_rect_round_ui(r: &[f32; 4], out: &mut [f32; 4]) {
    *out = rect_of(r).round_ui().numbers();
}

#[unsafe(no_mangle)]
pub extern "C" fn emath_rect_is_finite(r: &[f32; 4]) -> bool {
    rect_of(r).is_finite()
}

#[unsafe(no_mangle)]
pub extern "C" fn emath_rect_is_within(r: &[f32; 4]) -> bool {
    rect_of(r).is_within()
}

#[unsafe(no_mangle)]
pub extern "C" fn emath_rect_is_inside_out(r: &[f32; 4]) -> bool {
    rect_of(r).is_inside_out()
}

#[unsafe(no_mangle)]
pub extern "C" fn emath_align_size_within_range(
    align: u8,
    size: f32,
    min: f32,
    max: f32,
    out: &mut [f32; 2],
) {
    let a = align_of(align as usize);
    *out = a
        .align_size_within_range(size, Rangef { min, max })
        .numbers();
}

#[unsafe(no_mangle)]
pub extern "C" fn emath_align2_size_within_rect(
    across: u8,
    down: u8,
    x: f32,
    y: f32,
    frame: &[f32; 4],
    out: &mut [f32; 4],
) {
    let a = align2_of(across as usize, down as usize);
    *out = a
        .align_size_within_rect(Vec2 { x, y }, rect_of(frame))
        .numbers();
}

#[unsafe(no_mangle)]
pub extern "C" fn emath_left_center_size_within_rect(
    x: f32,
    y: f32,
    frame: &[f32; 4],
    out: &mut [f32; 4],
) {
    let a = Align2::LEFT_CENTER;
    *out = a
        .align_size_within_rect(Vec2 { x, y }, rect_of(frame))
        .numbers();
}

#[unsafe(no_mangle)]
pub extern "C" fn emath_align2_with_x(across: u8, down: u8, x: u8) -> u8 {
    let a = align2_of(across as usize, down as usize);
    code_of(a.with_x(align_of(x as usize)))
}

#[unsafe(no_mangle)]
pub extern "C" fn emath_align2_with_y(across: u8, down: u8, y: u8) -> u8 {
    let a = align2_of(across as usize, down as usize);
    code_of(a.with_y(align_of(y as usize)))
}

// LEFT, TOP, RIGHT and BOTTOM, by a number since C gives it, as the sizes they align.
#[unsafe(no_mangle)]
pub extern "C" fn emath_side_size_within_range(
    side: u8,
    size: f32,
    min: f32,
    max: f32,
    out: &mut [f32; 2],
) {
    let a = match side {
        0 => Align::LEFT,
        1 => Align::TOP,
        2 => Align::RIGHT,
        _ => Align::BOTTOM,
    };
    *out = a
        .align_size_within_range(size, Rangef { min, max })
        .numbers();
}
