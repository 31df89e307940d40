// One rectangle, by value: its cells and area, and the rectangles that the rules make of it.
ghost use Rattle.std.specs.Prelude.{◌≡◌, ◌≤◌, not};
ghost use Rattle.geometry.specs.Cells.{on_grid, has_cell, non_empty, valid, area};
ghost use Rattle.geometry.specs.Common.{overlap, common_part, shares_with};
ghost use Rattle.geometry.specs.Grow.{grown};
ghost use Rattle.geometry.specs.Refine.{within, strictly_within, stacked, abreast, joinable, union};
ghost use Rattle.geometry.specs.Clip.{side_part};

#[derive(Clone, Copy, Debug, PartialEq, Eq, PartialOrd, Ord)]
pub struct Cell {
    pub x: u32,
    pub y: u32,
}

// The cells from the corner ll up to the corner ur, which is excluded.
#[derive(Clone, Copy, Debug, PartialEq, Eq)]
pub struct Rect {
    pub llx: u32,
    pub lly: u32,
    pub urx: u32,
    pub ury: u32,
}

// A line at a coordinate of one dimension.
#[derive(Clone, Copy, Debug, PartialEq, Eq)]
pub enum Line {
    AtX(u32),
    AtY(u32),
}

// A side of a line: left are the cells with a coordinate below it, right the others.
#[derive(Clone, Copy, Debug, PartialEq, Eq)]
pub enum Side {
    Left(Line),
    Right(Line),
}

impl Cell {
    #[tactic(auto, unfolding(crate::specs::Cells::on_grid))]
    pub fn on_grid(self) -> bool
        ensures { result ≡ on_grid self }
    {
        self.x <= 65535 && self.y <= 65535
    }
}

impl Rect {
    #[tactic(auto, unfolding(crate::specs::Cells::has_cell))]
    pub fn has_cell(self, c: Cell) -> bool
        ensures { result ≡ has_cell self c }
    {
        self.llx <= c.x && c.x < self.urx && self.lly <= c.y && c.y < self.ury
    }

    #[tactic(auto, unfolding(crate::specs::Cells::valid))]
    pub fn is_valid(self) -> bool
        ensures { result ≡ valid self }
    {
        self.llx < self.urx && self.lly < self.ury && self.urx <= 65536 && self.ury <= 65536
    }

    // Whether it has no cell.
    #[tactic(auto, unfolding(crate::specs::Cells::non_empty))]
    pub fn is_empty(self) -> bool
        ensures { result ≡ not (non_empty self) }
    {
        self.urx <= self.llx || self.ury <= self.lly
    }

    // The number of its cells.
    #[tactic(auto, using(crate::proofs::AreaFits::product_fits), unfolding(crate::specs::Cells::area))]
    pub fn area(self) -> u64
        requires llx_le_urx { self.llx ≤ self.urx }
        requires lly_le_ury { self.lly ≤ self.ury }
        ensures { result ≡ area self }
    {
        ((self.urx - self.llx) as u64) * ((self.ury - self.lly) as u64)
    }

    // The smallest rectangle with this one's cells and the cell.
    #[tactic(auto, unfolding(crate::specs::Grow::grown))]
    pub fn grow(self, c: Cell) -> Rect
        requires x_bound { c.x ≤ 65535 }
        requires y_bound { c.y ≤ 65535 }
        ensures { result ≡ grown self c }
    {
        Rect {
            llx: self.llx.min(c.x),
            lly: self.lly.min(c.y),
            urx: self.urx.max(c.x + 1),
            ury: self.ury.max(c.y + 1),
        }
    }

    // The larger ll and the smaller ur in each dimension: empty where the two share no cell.
    #[tactic(auto, unfolding(crate::specs::Common::overlap))]
    pub fn overlap(self, other: Rect) -> Rect
        ensures { result ≡ overlap self other }
    {
        Rect {
            llx: self.llx.max(other.llx),
            lly: self.lly.max(other.lly),
            urx: self.urx.min(other.urx),
            ury: self.ury.min(other.ury),
        }
    }

    // The cells that both have. The y range is made only where the x ranges overlap, which they seldom do in a list.
    #[tactic(auto, unfolding(crate::specs::Common::common_part, crate::specs::Common::overlap, crate::specs::Cells::non_empty))]
    pub fn common(self, other: Rect) -> Option<Rect>
        ensures { result ≡ common_part self other }
    {
        let llx = self.llx.max(other.llx);
        let urx = self.urx.min(other.urx);
        if urx <= llx {
            return None;
        }
        let lly = self.lly.max(other.lly);
        let ury = self.ury.min(other.ury);
        if ury <= lly {
            None
        } else {
            Some(Rect { llx, lly, urx, ury })
        }
    }

    // Whether the two share a cell. All four sides are read before the first test, so that no jump depends on them.
    #[tactic(auto, unfolding(crate::specs::Common::shares_with))]
    pub fn shares(self, other: Rect) -> bool
        ensures { result ≡ shares_with other self }
    {
        !self.overlap(other).is_empty()
    }

    // Whether this one is contained in the other.
    #[tactic(auto, unfolding(crate::specs::Refine::within))]
    pub fn is_within(self, other: Rect) -> bool
        ensures { result ≡ within self other }
    {
        if self.llx < other.llx {
            return false;
        }
        self.urx <= other.urx && other.lly <= self.lly && self.ury <= other.ury
    }

    // Whether this one is contained in the other and is not equal to it.
    #[tactic(auto, unfolding(crate::specs::Refine::strictly_within))]
    pub fn is_strictly_within(self, other: Rect) -> bool
        ensures { result ≡ strictly_within self other }
    {
        self.is_within(other) && !other.is_within(self)
    }

    // Equal ranges in x, touching or overlapping ones in y.
    #[tactic(auto, unfolding(crate::specs::Refine::stacked))]
    fn is_stacked(self, other: Rect) -> bool
        ensures { result ≡ stacked self other }
    {
        if self.llx != other.llx {
            return false;
        }
        self.urx == other.urx && self.lly <= other.ury && other.lly <= self.ury
    }

    // Equal ranges in y, touching or overlapping ones in x.
    #[tactic(auto, unfolding(crate::specs::Refine::abreast))]
    fn is_abreast(self, other: Rect) -> bool
        ensures { result ≡ abreast self other }
    {
        if self.lly != other.lly {
            return false;
        }
        self.ury == other.ury && self.llx <= other.urx && other.llx <= self.urx
    }

    // Whether the union of the two is a rectangle by refine's rule.
    #[tactic(auto, unfolding(crate::specs::Refine::joinable))]
    pub fn is_joinable(self, other: Rect) -> bool
        ensures { result ≡ joinable self other }
    {
        self.is_stacked(other) || self.is_abreast(other)
    }

    // The smallest rectangle with the cells of both.
    #[tactic(auto, unfolding(crate::specs::Refine::union))]
    pub fn union(self, other: Rect) -> Rect
        ensures { result ≡ union self other }
    {
        Rect {
            llx: self.llx.min(other.llx),
            lly: self.lly.min(other.lly),
            urx: self.urx.max(other.urx),
            ury: self.ury.max(other.ury),
        }
    }

    // The part on a side of a line; it may be empty.
    #[tactic(auto, unfolding(crate::specs::Clip::side_part))]
    pub fn side_part(self, side: Side) -> Rect
        ensures { result ≡ side_part side self }
    {
        match side {
            Side::Left(Line::AtX(at)) => Rect {
                urx: self.urx.min(at),
                ..self
            },
            Side::Left(Line::AtY(at)) => Rect {
                ury: self.ury.min(at),
                ..self
            },
            Side::Right(Line::AtX(at)) => Rect {
                llx: self.llx.max(at),
                ..self
            },
            Side::Right(Line::AtY(at)) => Rect {
                lly: self.lly.max(at),
                ..self
            },
        }
    }
}
