// What comes before the first step: H, and M and G where their letters stand after it (RULES 6.11, 6.24).
ghost use Rattle.std.specs.Prelude.{◌≡◌, true, cond, ◌+◌, ◌<◌, ◌≤◌, length, drop, MatchOption};
ghost use Rattle.text.specs.Letters as letters;
ghost use Rattle.records.specs.Records.{options_in};
ghost use Rattle.records.specs.Headings.{stands as stands_at, past as past_at, unit_at, grid_at, steps_at, has_unit, has_grid_lem, no_options, heading_in, unit_fits, options_fit, heading_fault};

use crate::grids::{grid_fits, options_in};
use crate::layouts::{heading_fits, layout_in, pair_in, rect_in};
use crate::parts::{byte, ends};
use crate::records::next_record;
use crate::{GridOptions, Heading, SizeUnit};
use emath::Vec2;

#[tactic(auto, unfolding(crate::specs::Headings::stands))]
fn stands(text: &[u8], letter: u8, at: usize) -> bool
    ensures { result ≡ stands_at letter text.now at }
{
    byte(text, at) == letter
}

// Where the next record begins: after one of this letter at `at`, or there.
fn past(text: &[u8], letter: u8, at: usize) -> usize
    requires { at ≤ length text.now }
    ensures { (result ≡ past_at letter text.now at) × (result ≤ length text.now) }
{
    if stands(text, letter, at) {
        return next_record(text, at);
    }
    at
}

fn unit_at(text: &[u8]) -> usize
    ensures { (result ≡ unit_at text.now) × (result ≤ length text.now) }
{
    next_record(text, 0)
}

fn grid_at(text: &[u8]) -> usize
    ensures { (result ≡ grid_at text.now) × (result ≤ length text.now) }
{
    past(text, b'M', unit_at(text))
}

fn steps_at(text: &[u8]) -> usize
    ensures { result ≡ steps_at text.now }
{
    past(text, b'G', grid_at(text))
}

#[tactic(auto, unfolding(crate::specs::Headings::has_unit))]
pub fn has_unit(text: &[u8]) -> bool
    ensures { result ≡ has_unit text.now }
{
    stands(text, b'M', unit_at(text))
}

#[tactic(auto, unfolding(crate::specs::Headings::has_grid_lem))]
pub fn has_grid(text: &[u8]) -> bool
    ensures { result ≡ has_grid_lem text.now }
{
    stands(text, b'G', grid_at(text))
}

// Without a G.
fn no_options() -> GridOptions
    ensures { result ≡ no_options }
{
    let none = Vec2::ZERO;
    GridOptions {
        min_cell_size: none,
        max_cell_size: none,
        num_columns: 0,
        start_row: 0,
    }
}

fn options(text: &[u8], grid: bool) -> GridOptions
    ensures { result ≡ cond grid (options_in (drop (grid_at text.now) text.now)) no_options }
{
    if grid {
        return options_in(&text[grid_at(text)..]);
    }
    no_options()
}

#[tactic(auto, unfolding(crate::specs::Headings::heading_in, crate::specs::Headings::unit_in))]
pub fn read_heading(text: &[u8]) -> Heading
    ensures { (result ≡ heading_in text.now) × (result.records ≤ 3) }
{
    let metric = has_unit(text);
    let grid = has_grid(text);
    Heading {
        layout: layout_in(text),
        max_rect: rect_in(text),
        spacing: pair_in(text, 10),
        unit: if metric {
            SizeUnit::Hundredths
        } else {
            SizeUnit::Steps
        },
        has_grid: grid,
        options: options(text, grid),
        records: 1 + usize::from(metric) + usize::from(grid),
        next: steps_at(text),
    }
}

// Whether M, if there is one, is its letter alone.
#[tactic(auto, unfolding(crate::specs::Headings::unit_fits))]
fn unit_fits(text: &[u8]) -> bool
    ensures { result ≡ unit_fits text.now }
{
    if has_unit(text) {
        return ends(&text[unit_at(text)..], 0);
    }
    true
}

// Whether G, if there is one, is as it should be.
#[tactic(auto, unfolding(crate::specs::Headings::options_fit))]
fn options_fit(text: &[u8]) -> bool
    ensures { result ≡ options_fit text.now }
{
    if has_grid(text) {
        return grid_fits(&text[grid_at(text)..]);
    }
    true
}

// The first malformed record of the heading (RULES 8.6).
#[tactic(auto, unfolding(crate::specs::Headings::heading_fault, crate::specs::Headings::heading_in))]
pub fn heading_fault(text: &[u8]) -> Option<usize>
    ensures { MatchOption result (heading_fault text.now ≡ 0) (λ fault. (fault ≡ heading_fault text.now) × (0 < fault)) }
{
    if !heading_fits(text) {
        return Some(1);
    }
    if !unit_fits(text) {
        return Some(2);
    }
    if !options_fit(text) {
        return Some(read_heading(text).records);
    }
    None
}
