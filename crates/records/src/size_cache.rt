// A cache of W sizes by the record's number: filled when a sheet is checked, so that the fields of a W are read once.
ghost use Rattle.std.specs.Prelude.{◌≡◌, ◌≤◌, drop};
ghost use Rattle.records.specs.Records.{record_at};
ghost use Rattle.records.specs.Implementation.SizeCache.{stored, IsCached};

use crate::parts::byte;
use crate::records::read_record;
use crate::{SizeCache, SizeUnit, Step};

// Heights stand after all widths: side by side, one load would read both and wait, since store forwarding does not join two stores.
const HEIGHTS: usize = 513;

// Stores the size of record n, where it is a W.
#[tactic(auto, unfolding(crate::specs::Implementation::SizeCache::stored, crate::specs::Implementation::SizeCache::stored_step))]
pub fn store(sizes: &mut SizeCache, n: usize, r: Option<Step>)
    requires { n ≤ 512 }
    ensures { sizes.new ≡ stored sizes.old n r }
{
    if let Some(Step::Widget(x, y)) = r {
        sizes[n] = x;
        sizes[HEIGHTS + n] = y;
    }
}

// The record at `at`, which is record n: a W from the cache, any other read from the text.
pub fn cached_record(
    text: &[u8],
    unit: SizeUnit,
    at: usize,
    sizes: &SizeCache,
    n: usize,
) -> Option<Step>
    requires n_bound { n ≤ 512 }
    requires cached { IsCached unit (drop at text.now) sizes.now n }
    ensures { result ≡ record_at unit text.now at }
{
    if byte(text, at) == b'W' {
        let width = sizes[n];
        let height = sizes[HEIGHTS + n];
        return Some(Step::Widget(width, height));
    }
    read_record(text, unit, at)
}
