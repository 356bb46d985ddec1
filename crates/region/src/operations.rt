// Region's public calls: the rule worked out, then the faults, then the answer.
ghost use Rattle.std.specs.Prelude.{◌≡◌};
ghost use Rattle.region.specs.Refusals.{region_outcome};
ghost use Rattle.region.specs.Operations.{checked_expand_to_include_rect, checked_expand_to_include_x, checked_expand_to_include_y};

use crate::faults::{changed, region_fault};
use crate::{Direction, Region, regions};
use emath::faults::{first_of, length_fault, rect_fault};
use emath::{Rect, Refusal};

impl Region {
    pub fn expand_to_include_rect(self, main_dir: Direction, rect: Rect) -> Result<Region, Refusal>
        ensures { region_outcome self result ≡ checked_expand_to_include_rect main_dir self rect }
    {
        let new = regions::expand_to_include_rect(self, rect);
        let before = first_of(region_fault(main_dir, self), rect_fault(rect));
        changed(main_dir, before, new)
    }

    pub fn expand_to_include_x(self, main_dir: Direction, x: f32) -> Result<Region, Refusal>
        ensures { region_outcome self result ≡ checked_expand_to_include_x main_dir self x }
    {
        let new = regions::expand_to_include_x(self, x);
        let before = first_of(region_fault(main_dir, self), length_fault(x));
        changed(main_dir, before, new)
    }

    pub fn expand_to_include_y(self, main_dir: Direction, y: f32) -> Result<Region, Refusal>
        ensures { region_outcome self result ≡ checked_expand_to_include_y main_dir self y }
    {
        let new = regions::expand_to_include_y(self, y);
        let before = first_of(region_fault(main_dir, self), length_fault(y));
        changed(main_dir, before, new)
    }
}
