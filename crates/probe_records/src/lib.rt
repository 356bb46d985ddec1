// The entry points of crates text and records: tests only.
#![tactic(auto)]

use probe_values::layouts::put_layout;
use probe_values::packing::put_at;
use probe_values::rects::Numbers;
use records::headings::{heading_fault, read_heading};
use records::records::read_record;
use records::sheets::check;
use records::{Heading, SizeUnit, Step};
use text::Field;
use text::fields::{read_field, write_field};
use text::lines::write_line;

// 0 wrong, 1 blank, 2 a number.
#[unsafe(no_mangle)]
pub extern "C" fn field_read(text: &[u8], at: usize, limit: u32, value: &mut [i32; 1]) -> u8 {
    match read_field(text, at, limit) {
        Field::Wrong => 0,
        Field::Blank => 1,
        Field::Number(z) => {
            value[0] = z;
            2
        }
    }
}

#[unsafe(no_mangle)]
pub extern "C" fn field_write(out: &mut [u8], at: usize, z: i32) -> bool {
    write_field(out, at, z)
}

#[unsafe(no_mangle)]
pub extern "C" fn line_write(out: &mut [u8], at: usize, letter: u8, numbers: &[i32]) -> bool {
    write_line(out, at, letter, numbers)
}

// Its layout's six fields, then max_rect's edges and the spacings.
fn put_heading(lengths: &mut [f32; 10], counts: &mut [usize; 12], h: Heading) {
    put_layout(counts, h.layout);
    put_at(lengths, 0, &h.max_rect.numbers());
    put_at(lengths, 4, &h.spacing.numbers());
}

// Whether there is a grid, the minimum and the maximum cell, the columns, 0 for not named, and the start row; then how many records the heading
// is, and where the next one begins.
fn put_rest(lengths: &mut [f32; 10], counts: &mut [usize; 12], h: Heading) {
    put_at(lengths, 6, &h.options.min_cell_size.numbers());
    put_at(lengths, 8, &h.options.max_cell_size.numbers());
    counts[6] = h.has_grid as usize;
    counts[7] = h.options.num_columns;
    counts[8] = h.options.start_row;
    counts[9] = h.records;
    counts[10] = h.next;
}

// From the flag that C gives.
fn unit_of(hundredths: bool) -> SizeUnit {
    if hundredths {
        SizeUnit::Hundredths
    } else {
        SizeUnit::Steps
    }
}

// The first record of the heading that is not as it should be; where there is none, 0, and what the heading says.
#[unsafe(no_mangle)]
pub extern "C" fn heading_read(
    text: &[u8],
    lengths: &mut [f32; 10],
    counts: &mut [usize; 12],
) -> usize {
    if let Some(fault) = heading_fault(text) {
        return fault;
    }
    let h = read_heading(text);
    put_heading(lengths, counts, h);
    put_rest(lengths, counts, h);
    counts[11] = h.unit as usize;
    0
}

fn put_length(lengths: &mut [f32; 2], kind: u8, x: f32) -> u8 {
    lengths[0] = x;
    kind
}

fn put_step(lengths: &mut [f32; 2], st: Step) -> u8 {
    match st {
        Step::Widget(width, height) => {
            lengths[0] = width;
            lengths[1] = height;
            1
        }
        Step::Space(x) => put_length(lengths, 2, x),
        Step::RowHeight(x) => put_length(lengths, 3, x),
        Step::MaxWidth(x) => put_length(lengths, 4, x),
        Step::MaxHeight(x) => put_length(lengths, 5, x),
        Step::MinWidth(x) => put_length(lengths, 6, x),
        Step::MinHeight(x) => put_length(lengths, 7, x),
        Step::RowEnd => 8,
    }
}

// Under a heading with M or without: 0 no step, 1 to 8 the steps; places that it does not name keep what they hold.
#[unsafe(no_mangle)]
pub extern "C" fn record_read(
    text: &[u8],
    hundredths: bool,
    at: usize,
    lengths: &mut [f32; 2],
) -> u8 {
    match read_record(text, unit_of(hundredths), at) {
        Some(st) => put_step(lengths, st),
        None => 0,
    }
}

// The number, 0 for none; then the records and the W, or the record at fault.
#[unsafe(no_mangle)]
pub extern "C" fn sheet_check(text: &[u8], room: usize, counts: &mut [usize; 2]) -> u8 {
    match check(text, room) {
        Ok(c) => {
            counts[0] = c.records;
            counts[1] = c.widgets;
            0
        }
        Err(e) => {
            counts[0] = e.record;
            e.refusal.number()
        }
    }
}
