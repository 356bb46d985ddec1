// The check of a whole sheet: refusals 1 to 3 (RULES 8.6 to 8.8).
ghost use Rattle.std.specs.Prelude.{◌≡◌, cond, ◌*◌, ◌≤◌, ltb};
ghost use Rattle.emath.specs.Numbers as number;
ghost use Rattle.emath.specs.Refusals.{number_of};
ghost use Rattle.records.specs.Sheets.{widget_step, sheet_fault, checked, checked_number, checked_record, checked_outcome, Accepted, Refused};
ghost use Rattle.records.specs.Implementation.SizeCache.{cached_by};

use crate::headings::{heading_fault, read_heading};
use crate::records::{next_record, read_record};
use crate::size_cache::store;
use crate::{CACHE_LEN, Counts, MAX_RECORDS, SheetRefusal, SizeCache, Step};
use emath::Refusal;

// 1 for a W: a match, since only a W counts.
#[tactic(auto, unfolding(crate::specs::Sheets::widget_step))]
fn widget_step(st: Step) -> usize
    ensures { (result ≡ widget_step st) × (result ≤ 1) }
{
    match st {
        Step::Widget(_, _) => 1,
        _ => 0,
    }
}

fn refused(refusal: Refusal, at: usize) -> Result<Counts, SheetRefusal>
    ensures { checked_outcome result ≡ Refused (number_of refusal) at }
{
    Err(SheetRefusal {
        refusal,
        record: at,
    })
}

// The text has ended after k records, w of them W.
fn ended(k: usize, w: usize, room: usize) -> Result<Counts, SheetRefusal>
    requires { w ≤ 512 }
    ensures { checked_outcome result ≡ cond (ltb room (8 * w)) (Refused number.no_room 1) (Accepted k w) }
{
    if room < 8 * w {
        return refused(Refusal::NoRoom, 1);
    }
    Ok(Counts {
        records: k,
        widgets: w,
    })
}

// Which of 1 to 3 applies, with a slice of `room` places; or how many records and W there are. The size of each W read goes to the cache.
pub fn check_caching(
    text: &[u8],
    room: usize,
    sizes: &mut SizeCache,
) -> Result<Counts, SheetRefusal>
    ensures { (checked_outcome result ≡ checked text.now room) × (sizes.new ≡ cached_by text.now sizes.old) }
{
    if let Some(fault) = heading_fault(text) {
        return refused(Refusal::Malformed, fault);
    }
    let h = read_heading(text);
    let mut at = h.next;
    let mut w: usize = 0;
    for k in h.records..MAX_RECORDS {
        if text.len() <= at {
            return ended(k, w, room);
        }
        let Some(st) = read_record(text, h.unit, at) else {
            return refused(Refusal::Malformed, k + 1);
        };
        store(sizes, k + 1, Some(st));
        w += widget_step(st);
        at = next_record(text, at);
    }
    if at < text.len() {
        return refused(Refusal::TooLong, MAX_RECORDS + 1);
    }
    ended(MAX_RECORDS, w, room)
}

pub fn check(text: &[u8], room: usize) -> Result<Counts, SheetRefusal>
    ensures { (checked_outcome result ≡ checked text.now room) × (checked_number (checked_outcome result) ≡ (sheet_fault text.now room).number) × (checked_record (checked_outcome result) ≡ (sheet_fault text.now room).at) }
{
    let mut sizes: [f32; CACHE_LEN] = [0.0; CACHE_LEN];
    check_caching(text, room, &mut sizes)
}
