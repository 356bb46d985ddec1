// The controls of a list, on the page: which two share an edge or a place, and where a label stands.
ghost use Rattle.std.specs.Prelude.{◌≡◌, ◌+◌, ◌*◌, ◌≤◌, ◌<◌};
ghost use Rattle.drawing.specs.Drawings.{middle as middle_of, across as across_of, down as down_of, covers as covers_by, near as near_by, touching as touching_at, same_fields, shares as shares_it, seen as seen_by, flat as flat_at, label_across, label_down};

use crate::Shared;
use crate::lists::Line;
use crate::pages::{LEFT, Plate, TOP};

#[tactic(auto, unfolding(crate::specs::Drawings::middle))]
fn middle(line: Line, i: usize, j: usize, from: usize) -> usize
    requires { (i ≤ 16) × (j ≤ 16) }
    ensures { (result ≡ middle_of line.entry.list.now line.entry.at i j from) × (result ≤ 20000000) }
{
    let low = line.place(i).saturating_sub(from);
    let high = line.place(j).saturating_sub(from);
    (low + high) / 2
}

impl Plate<'_> {
    // A control's middle, from the plate's left edge.
    #[tactic(auto, unfolding(crate::specs::Drawings::across))]
    fn across(&self, k: usize) -> usize
        requires { k ≤ 512 }
        ensures { (result ≡ across_of self.now.page self.now.list.now k) × (result ≤ 20000000) }
    {
        let left = self.own_line().place(0);
        middle(self.line(k), 5, 7, left)
    }

    // From its top. Each has its own definition (`across`, `down` of RULES 7.10), and what they share is `middle`.
    #[tactic(auto, unfolding(crate::specs::Drawings::down))]
    fn down(&self, k: usize) -> usize
        requires { k ≤ 512 }
        ensures { (result ≡ down_of self.now.page self.now.list.now k) × (result ≤ 20000000) }
    {
        let top = self.own_line().place(1);
        middle(self.line(k), 6, 8, top)
    }

    // Whether a control is at least so wide and tall on the page.
    #[tactic(auto, unfolding(crate::specs::Drawings::covers))]
    pub fn covers(&self, k: usize, width: usize, height: usize) -> bool
        requires { k ≤ 512 }
        ensures { result ≡ covers_by self.now.page self.now.list.now k width height }
    {
        let line = self.line(k);
        width <= self.px(line.span(5, 7)) && height <= self.px(line.span(6, 8))
    }

    #[tactic(auto, unfolding(crate::specs::Drawings::near))]
    fn near(&self, j: usize, k: usize, width: usize, height: usize) -> bool
        requires { (j ≤ 512) × (k ≤ 512) }
        ensures { result ≡ near_by self.now.page self.now.list.now j k width height }
    {
        self.px(self.across(j)).abs_diff(self.px(self.across(k))) < width
            && self.px(self.down(j)).abs_diff(self.px(self.down(k))) < height
    }

    // Whether the labels of two controls would touch; those of two small ones are small.
    #[tactic(auto, unfolding(crate::specs::Drawings::touching))]
    fn touching(&self, j: usize, k: usize) -> bool
        requires { (j ≤ 512) × (k ≤ 512) }
        ensures { result ≡ touching_at self.now.page self.now.list.now j k }
    {
        if self.covers(j, 22, 11) || self.covers(k, 22, 11) {
            return self.near(j, k, 20, 10);
        }
        self.near(j, k, 16, 8)
    }

    #[tactic(auto, unfolding(crate::specs::Drawings::same_fields))]
    fn same_fields(&self, j: usize, k: usize, i: usize) -> bool
        requires { (j ≤ 512) × (k ≤ 512) × (i ≤ 8) }
        ensures { result ≡ same_fields self.now.list.now j k i }
    {
        let (one, other) = (self.line(j), self.line(k));
        one.place(i) == other.place(i) && one.place(i + 2) == other.place(i + 2)
    }

    // `shares` of RULES 7.10 is over this enum, so no closure stands in its place.
    #[tactic(auto, unfolding(crate::specs::Drawings::shares))]
    fn shares(&self, what: Shared, j: usize, k: usize) -> bool
        requires { (j ≤ 512) × (k ≤ 512) }
        ensures { result ≡ shares_it what self.now.page self.now.list.now j k }
    {
        match what {
            Shared::Column => self.same_fields(j, k, 1),
            Shared::Row => self.same_fields(j, k, 2),
            Shared::Place => self.touching(j, k),
        }
    }

    // Whether an earlier control shares it with control k. The nearest is mostly the one.
    pub fn seen(&self, what: Shared, k: usize) -> bool
        requires { k ≤ 512 }
        ensures { result ≡ seen_by what self.now.page self.now.list.now k k }
    {
        for j in (0..k).rev() {
            if self.shares(what, j, k) {
                return true;
            }
        }
        false
    }

    // Whether a control has no width or no height.
    #[tactic(auto, unfolding(crate::specs::Drawings::flat))]
    pub fn flat(&self, k: usize) -> bool
        requires { k ≤ 512 }
        ensures { result ≡ flat_at self.now.list.now k }
    {
        let line = self.line(k);
        line.span(5, 7) == 0 || line.span(6, 8) == 0
    }

    // Each way has its own definition, as the bands lie across or down.
    #[tactic(auto, unfolding(crate::specs::Drawings::label_across))]
    pub fn label_across(&self, k: usize) -> usize
        requires { k ≤ 512 }
        ensures { result ≡ label_across self.now.page self.now.list.now k }
    {
        let x = self.across(k);
        if self.page.wide {
            return LEFT + self.px(x % self.page.step);
        }
        let band = self.down(k) / self.page.step;
        LEFT + self.px(x) + band * self.page.pitch
    }

    #[tactic(auto, unfolding(crate::specs::Drawings::label_down))]
    pub fn label_down(&self, k: usize) -> usize
        requires { k ≤ 512 }
        ensures { (result ≡ label_down self.now.page self.now.list.now k) × (result ≤ 700000000000000000) }
    {
        let y = self.down(k);
        if self.page.wide {
            let band = self.across(k) / self.page.step;
            return TOP + self.px(y) + band * self.page.pitch;
        }
        TOP + self.px(y % self.page.step)
    }
}
