// layout.rs's two calls on a lent Region, thinly, over the calls by value.
#![tactic(auto)]

ghost use Rattle.std.specs.Prelude.{◌≡◌};
ghost use Rattle.emath.specs.Refusals.{numbered, answer_number};
ghost use Rattle.layout.specs.Operations.{checked_advance_cursor, checked_end_row};
ghost use Rattle.lent_region.specs.Edits.{edited, edited_outcome};

use emath::{Refusal, Vec2};
use layout::Layout;
use region::Region;

// A refused region is as it was.
pub fn advance_cursor(layout: Layout, region: &mut Region, amount: f32) -> Result<(), Refusal>
    ensures { record { number = answer_number (numbered result); region = region.new } ≡ checked_advance_cursor layout region.old amount }
{
    *region = layout.advance_cursor(*region, amount)?;
    Ok(())
}

// The same of the end of a row.
pub fn end_row(layout: Layout, region: &mut Region, spacing: Vec2) -> Result<(), Refusal>
    ensures { record { number = answer_number (numbered result); region = region.new } ≡ checked_end_row layout region.old spacing }
{
    *region = layout.end_row(*region, spacing)?;
    Ok(())
}

// What a call answered, and the region as it left it.
#[derive(Clone, Copy)]
pub struct Outcome {
    pub answer: Result<(), Refusal>,
    pub region: Region,
}

// Each of the two.
#[derive(Clone, Copy)]
pub struct Edited {
    pub advanced: Outcome,
    pub ended: Outcome,
}

// The two on one region, lent to the one and then to the other.
#[tactic(auto, unfolding(crate::specs::Edits::edited))]
pub fn edit(layout: Layout, region: Region, amount: f32, spacing: Vec2) -> Edited
    ensures { edited_outcome result ≡ edited layout region amount spacing }
{
    let mut lent = region;
    let answer = advance_cursor(layout, &mut lent, amount);
    let advanced = Outcome {
        answer,
        region: lent,
    };
    let answer = end_row(layout, &mut lent, spacing);
    let ended = Outcome {
        answer,
        region: lent,
    };
    Edited { advanced, ended }
}
