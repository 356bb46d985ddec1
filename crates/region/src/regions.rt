// Region's own: a cursor set, and what it expands to include.
ghost use Rattle.std.specs.Prelude.{◌≡◌};
ghost use Rattle.emath.specs.Implementation.NoNaN.{Numbers};
ghost use Rattle.region.specs.Regions.{with_cursor, expand_to_include_rect, expand_to_include_x, expand_to_include_y};

use crate::Region;
use emath::Rect;
use emath::unions::union_with;

pub fn with_cursor(region: Region, cursor: Rect) -> Region
    ensures { result ≡ with_cursor region cursor }
{
    Region { cursor, ..region }
}

pub fn expand_to_include_rect(region: Region, rect: Rect) -> Region
    ensures { result ≡ expand_to_include_rect region rect }
{
    Region {
        min_rect: region.min_rect.union(rect),
        max_rect: region.max_rect.union(rect),
        ..region
    }
}

// The same, where neither rectangle has a NaN.
pub fn expand_with_rect(region: Region, rect: Rect) -> Region
    requires { Numbers region.min_rect × Numbers region.max_rect }
    ensures { result ≡ expand_to_include_rect region rect }
{
    Region {
        min_rect: union_with(region.min_rect, rect),
        max_rect: union_with(region.max_rect, rect),
        ..region
    }
}

pub fn expand_to_include_x(region: Region, x: f32) -> Region
    ensures { result ≡ expand_to_include_x region x }
{
    Region {
        min_rect: region.min_rect.extend_with_x(x),
        max_rect: region.max_rect.extend_with_x(x),
        cursor: region.cursor.extend_with_x(x),
    }
}

pub fn expand_to_include_y(region: Region, y: f32) -> Region
    ensures { result ≡ expand_to_include_y region y }
{
    Region {
        min_rect: region.min_rect.extend_with_y(y),
        max_rect: region.max_rect.extend_with_y(y),
        cursor: region.cursor.extend_with_y(y),
    }
}
