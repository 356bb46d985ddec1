// G (RULES 6.9). Fields count from 0 here.
ghost use Rattle.std.specs.Prelude.{◌≡◌};
ghost use Rattle.records.specs.Records.{is_columns, maxima_fit, maxima_in, options_in, grid_fits};

use crate::GridOptions;
use crate::layouts::{pair_fits, pair_in};
use crate::parts::{count, count_value, ends, is_count, is_maximum, length, maximum_value};
use emath::Vec2;
use text::Field;

// Field 4: 1 to 32, or blank.
#[tactic(auto, unfolding(crate::specs::Records::is_columns))]
fn is_columns(f: Field) -> bool
    ensures { result ≡ is_columns f }
{
    match f {
        Field::Blank => true,
        Field::Number(z) => 1 <= z,
        Field::Wrong => false,
    }
}

// Fields 2 and 3.
#[tactic(auto, unfolding(crate::specs::Records::maxima_fit))]
fn maxima_fit(text: &[u8]) -> bool
    ensures { result ≡ maxima_fit text.now }
{
    is_maximum(length(text, 2)) & is_maximum(length(text, 3))
}

#[tactic(auto, unfolding(crate::specs::Records::maxima_in))]
fn maxima_in(text: &[u8]) -> Vec2
    ensures { result ≡ maxima_in text.now }
{
    Vec2 {
        x: maximum_value(length(text, 2)),
        y: maximum_value(length(text, 3)),
    }
}

#[tactic(auto, unfolding(crate::specs::Records::options_in))]
pub fn options_in(text: &[u8]) -> GridOptions
    ensures { result ≡ options_in text.now }
{
    GridOptions {
        min_cell_size: pair_in(text, 0),
        max_cell_size: maxima_in(text),
        num_columns: count_value(count(text, 4, 32)),
        start_row: count_value(count(text, 5, 127)),
    }
}

#[tactic(auto, unfolding(crate::specs::Records::grid_fits))]
pub fn grid_fits(text: &[u8]) -> bool
    ensures { result ≡ grid_fits text.now }
{
    let columns = is_columns(count(text, 4, 32));
    let start_row = is_count(count(text, 5, 127), 0);
    pair_fits(text, 0) & maxima_fit(text) & columns & start_row & ends(text, 6)
}
