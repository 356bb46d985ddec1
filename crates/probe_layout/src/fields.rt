// Crate layout's constructors, builders and inspectors.
use layout::Layout;
use probe_values::layouts::{direction_of, layout_of, put_layout};
use probe_values::packing::Counts;
use probe_values::rects::{align_of, code_of};

#[unsafe(no_mangle)]
pub extern "C" fn layout_default(out: &mut Counts) {
    put_layout(out, Layout::default());
}

#[unsafe(no_mangle)]
pub extern "C" fn layout_left_to_right(valign: u8, out: &mut Counts) {
    put_layout(out, Layout::left_to_right(align_of(valign as usize)));
}

#[unsafe(no_mangle)]
pub extern "C" fn layout_right_to_left(valign: u8, out: &mut Counts) {
    put_layout(out, Layout::right_to_left(align_of(valign as usize)));
}

#[unsafe(no_mangle)]
pub extern "C" fn layout_top_down(halign: u8, out: &mut Counts) {
    put_layout(out, Layout::top_down(align_of(halign as usize)));
}

#[unsafe(no_mangle)]
pub extern "C" fn layout_top_down_justified(halign: u8, out: &mut Counts) {
    put_layout(out, Layout::top_down_justified(align_of(halign as usize)));
}

#[unsafe(no_mangle)]
pub extern "C" fn layout_bottom_up(halign: u8, out: &mut Counts) {
    put_layout(out, Layout::bottom_up(align_of(halign as usize)));
}

#[unsafe(no_mangle)]
pub extern "C" fn layout_from_main_dir_and_cross_align(
    main_dir: u8,
    cross_align: u8,
    out: &mut Counts,
) {
    let d = direction_of(main_dir as usize);
    put_layout(
        out,
        Layout::from_main_dir_and_cross_align(d, align_of(cross_align as usize)),
    );
}

#[unsafe(no_mangle)]
pub extern "C" fn layout_centered_and_justified(main_dir: u8, out: &mut Counts) {
    put_layout(
        out,
        Layout::centered_and_justified(direction_of(main_dir as usize)),
    );
}

#[unsafe(no_mangle)]
pub extern "C" fn layout_with_main_wrap(counts: &Counts, main_wrap: u8, out: &mut Counts) {
    put_layout(out, layout_of(counts).with_main_wrap(main_wrap != 0));
}

#[unsafe(no_mangle)]
pub extern "C" fn layout_with_main_align(counts: &Counts, main_align: u8, out: &mut Counts) {
    put_layout(
        out,
        layout_of(counts).with_main_align(align_of(main_align as usize)),
    );
}

#[unsafe(no_mangle)]
pub extern "C" fn layout_with_cross_align(counts: &Counts, cross_align: u8, out: &mut Counts) {
    put_layout(
        out,
        layout_of(counts).with_cross_align(align_of(cross_align as usize)),
    );
}

#[unsafe(no_mangle)]
pub extern "C" fn layout_with_main_justify(counts: &Counts, main_justify: u8, out: &mut Counts) {
    put_layout(out, layout_of(counts).with_main_justify(main_justify != 0));
}

#[unsafe(no_mangle)]
pub extern "C" fn layout_with_cross_justify(counts: &Counts, cross_justify: u8, out: &mut Counts) {
    put_layout(
        out,
        layout_of(counts).with_cross_justify(cross_justify != 0),
    );
}

#[unsafe(no_mangle)]
pub extern "C" fn layout_main_dir(counts: &Counts) -> u8 {
    layout_of(counts).main_dir() as u8
}

#[unsafe(no_mangle)]
pub extern "C" fn layout_main_wrap(counts: &Counts) -> bool {
    layout_of(counts).main_wrap()
}

#[unsafe(no_mangle)]
pub extern "C" fn layout_cross_justify(counts: &Counts) -> bool {
    layout_of(counts).cross_justify()
}

#[unsafe(no_mangle)]
pub extern "C" fn layout_is_horizontal(counts: &Counts) -> bool {
    layout_of(counts).is_horizontal()
}

#[unsafe(no_mangle)]
pub extern "C" fn layout_is_vertical(counts: &Counts) -> bool {
    layout_of(counts).is_vertical()
}

#[unsafe(no_mangle)]
pub extern "C" fn layout_prefer_right_to_left(counts: &Counts) -> bool {
    layout_of(counts).prefer_right_to_left()
}

#[unsafe(no_mangle)]
pub extern "C" fn layout_horizontal_justify(counts: &Counts) -> bool {
    layout_of(counts).horizontal_justify()
}

#[unsafe(no_mangle)]
pub extern "C" fn layout_vertical_justify(counts: &Counts) -> bool {
    layout_of(counts).vertical_justify()
}

#[unsafe(no_mangle)]
pub extern "C" fn layout_cross_align(counts: &Counts) -> u8 {
    layout_of(counts).cross_align() as u8
}

#[unsafe(no_mangle)]
pub extern "C" fn layout_horizontal_placement(counts: &Counts) -> u8 {
    layout_of(counts).horizontal_placement() as u8
}

#[unsafe(no_mangle)]
pub extern "C" fn layout_horizontal_align(counts: &Counts) -> u8 {
    layout_of(counts).horizontal_align() as u8
}

#[unsafe(no_mangle)]
pub extern "C" fn layout_vertical_align(counts: &Counts) -> u8 {
    layout_of(counts).vertical_align() as u8
}

#[unsafe(no_mangle)]
pub extern "C" fn layout_align2(counts: &Counts) -> u8 {
    code_of(layout_of(counts).align2())
}

#[unsafe(no_mangle)]
pub extern "C" fn layout_direction_is_horizontal(main_dir: u8) -> bool {
    let d = direction_of(main_dir as usize);
    d.is_horizontal()
}

#[unsafe(no_mangle)]
pub extern "C" fn layout_direction_is_vertical(main_dir: u8) -> bool {
    let d = direction_of(main_dir as usize);
    d.is_vertical()
}
