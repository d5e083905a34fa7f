//! An edit of the register, of the areas or of the book.

ghost use Rattle.std.specs.Prelude.{◌≡◌, ◌↔◌, true, IsTrue, IsOk, IfOk};
ghost use Rattle.coverage_plan.specs.Checks.{is_plain_edit};

use areas::Selector;
use cell_register::BscId;
use common::{Cell, Name, Names};
use std::alloc::{AllocError, Global};
use warning_book::{Content, Notice, WarningId};

/// An edit of the register, of the areas or of the book of warnings.
pub enum Edit {
    /// Registers a BSC.
    AddBsc(BscId),
    /// Takes a BSC out that has no cells.
    RemoveBsc(BscId),
    /// Registers a cell at a BSC.
    AddCell(Cell, BscId),
    /// Registers a cell at another BSC.
    MoveCell(Cell, BscId),
    /// Takes a cell out.
    RemoveCell(Cell),
    /// Makes an area without selectors.
    AddArea(Name),
    /// Drops an area, with its selectors.
    DropArea(Name),
    /// Puts a selector into an area.
    Put(Name, Selector),
    /// Cuts a selector out of an area.
    Cut(Name, Selector),
    /// Issues a warning in these areas.
    Issue(Notice, Names),
    /// Gives a warning a new version, with this content.
    Update(WarningId, Content),
    /// Puts an area last among those of a warning.
    Widen(WarningId, Name),
    /// Takes an area out of those of a warning.
    Narrow(WarningId, Name),
    /// Stops a warning, which stays in the book.
    Stop(WarningId),
    /// Takes a stopped warning out of the book.
    Forget(WarningId),
}

/// Written out, so that no crate above proves anew how its parts are dropped.
impl Drop for Edit {
    fn drop(self) {
        match self {
            Edit::AddBsc(_part) => {}
            Edit::RemoveBsc(_part) => {}
            Edit::AddCell(_part0, _part1) => {}
            Edit::MoveCell(_part0, _part1) => {}
            Edit::RemoveCell(_part) => {}
            Edit::AddArea(_part) => {}
            Edit::DropArea(_part) => {}
            Edit::Put(_part0, _part1) => {}
            Edit::Cut(_part0, _part1) => {}
            Edit::Issue(_part0, _part1) => {}
            Edit::Update(_part0, _part1) => {}
            Edit::Widen(_part0, _part1) => {}
            Edit::Narrow(_part0, _part1) => {}
            Edit::Stop(_part) => {}
            Edit::Forget(_part) => {}
        }
    }
}

impl Edit {
    /// The same edit in memory of its own. It takes none where the edit has no name, list or content.
    pub fn copied(&self, alloc: Global) -> Result<Edit, AllocError>
        ensures copy { IfOk result (λ copy. copy ≡ self.now) }
        ensures plain { is_plain_edit self.now ≡ true → IsOk result }
    {
        match self {
            Edit::AddBsc(bsc) => Ok(Edit::AddBsc(*bsc)),
            Edit::RemoveBsc(bsc) => Ok(Edit::RemoveBsc(*bsc)),
            Edit::AddCell(cell, bsc) => Ok(Edit::AddCell(*cell, *bsc)),
            Edit::MoveCell(cell, bsc) => Ok(Edit::MoveCell(*cell, *bsc)),
            Edit::RemoveCell(cell) => Ok(Edit::RemoveCell(*cell)),
            Edit::AddArea(area) => Ok(Edit::AddArea(area.copied(alloc)?)),
            Edit::DropArea(area) => Ok(Edit::DropArea(area.copied(alloc)?)),
            Edit::Put(area, selector) => Ok(Edit::Put(area.copied(alloc)?, *selector)),
            Edit::Cut(area, selector) => Ok(Edit::Cut(area.copied(alloc)?, *selector)),
            Edit::Issue(notice, areas) => Ok(Edit::Issue(
                notice.copied(alloc)?,
                areas.copied(alloc)?,
            )),
            Edit::Update(warning, content) => Ok(Edit::Update(*warning, content.copied(alloc)?)),
            Edit::Widen(warning, area) => Ok(Edit::Widen(*warning, area.copied(alloc)?)),
            Edit::Narrow(warning, area) => Ok(Edit::Narrow(*warning, area.copied(alloc)?)),
            Edit::Stop(warning) => Ok(Edit::Stop(*warning)),
            Edit::Forget(warning) => Ok(Edit::Forget(*warning)),
        }
    }

    pub fn same(&self, other: &Edit) -> bool
        ensures { IsTrue result ↔ (self.now ≡ other.now) }
    {
        match (self, other) {
            (Edit::AddBsc(b), Edit::AddBsc(d)) => b == d,
            (Edit::RemoveBsc(b), Edit::RemoveBsc(d)) => b == d,
            (Edit::AddCell(c, b), Edit::AddCell(e, d)) => c == e && b == d,
            (Edit::MoveCell(c, b), Edit::MoveCell(e, d)) => c == e && b == d,
            (Edit::RemoveCell(c), Edit::RemoveCell(e)) => c == e,
            (Edit::AddArea(a), Edit::AddArea(b)) => a.same(b),
            (Edit::DropArea(a), Edit::DropArea(b)) => a.same(b),
            (Edit::Put(a, s), Edit::Put(b, t)) => a.same(b) && s == t,
            (Edit::Cut(a, s), Edit::Cut(b, t)) => a.same(b) && s == t,
            (Edit::Issue(n, a), Edit::Issue(o, b)) => n.same(o) && a.same(b),
            (Edit::Update(w, c), Edit::Update(x, d)) => w == x && c.same(d),
            (Edit::Widen(w, a), Edit::Widen(x, b)) => w == x && a.same(b),
            (Edit::Narrow(w, a), Edit::Narrow(x, b)) => w == x && a.same(b),
            (Edit::Stop(w), Edit::Stop(x)) => w == x,
            (Edit::Forget(w), Edit::Forget(x)) => w == x,
            _ => false,
        }
    }
}
