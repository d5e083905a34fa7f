//! The lines of all BSCs, cells and warnings, and which cells are down.

ghost use Rattle.std.specs.Prelude.{◌≡◌, ◌≤◌, ◌<◌, ◌+◌, ◌&&◌, ◌||◌, ℕ, true, false, not, filter, if◌then◌else◌, nat_eq, ltb, List, length, take, OnOk, OnErr, IfOk};
ghost use Rattle.std.specs.List.{list_any};
ghost use Rattle.common.specs.Cell.{cell_eq, cell_lt};
ghost use Rattle.common.specs.Order.{is_ascending};
ghost use Rattle.common.specs.declared.cell.Cell.{Cell};
ghost use Rattle.mirror.specs.Blank.{is_blank};
ghost use Rattle.mirror.specs.Held.{is_held_line};
ghost use Rattle.mirror.specs.Index.{key_before};
ghost use Rattle.mirror.specs.Line.{blank_line};
ghost use Rattle.mirror.specs.Table.{line_at, has_line, down_at, counted, counted_all, is_key};
ghost use Rattle.mirror.specs.Known.{are_of_cells, is_known, is_named, warnings_at};
ghost use Rattle.mirror.specs.OnAir.{AreOnAir, line_count, read_count};
ghost use Rattle.mirror.specs.Present.{is_present_at, lines_of};
ghost use Rattle.mirror.specs.declared.line_key.LineKey.{LineKey};
ghost use Rattle.warning_book.specs.Content.{is_same_kind};
ghost use Rattle.warning_book.specs.declared.kind.Kind.{Kind};

use crate::cell_index::CellIndex;
use crate::cells_down::CellsDown;
use crate::gathering::{add_cells_down, add_line_cells, cells_in_order};
use crate::known::{add_warnings, has_line, is_registered};
use crate::line::Line;
use crate::line_key::LineKey;
use crate::lines::Lines;
use crate::naming::{are_of_cells, named, own_cell};
use crate::on_air::first_on_air;
use crate::presences::is_present_among;
use crate::reading::line_of;
use crate::version_at::VersionAt;
use crate::warning_lines::{keys_of, later, slots_of};
use cbsp_ie::CellId;
use cell_register::{BscId, Register};
use common::{Cell, Cells};
use serials::Serial;
use std::alloc::{AllocError, Global};
use std::collections::BTreeSet;
use std::marker::Model;
use warning_book::{Kind, WarningId};

/// Room for as many warnings as most cells have.
const FEW: usize = 16;

/// A line for each BSC, cell and warning, and whether each cell is down at each BSC for warnings of each kind. Each line
/// that is read, set or copied is counted; to be told that something is kept of a line is to read it. So the calls that do
/// this take `&mut self`. No other call tells anything of one line: `known_cells` and `cells_named` tell of a cell whether
/// it is known, by its registration, by a report or by its lines.
pub struct LineTable {
    alloc: Global,
    /// The lines that aren't blank, by warning.
    lines: Lines,
    /// The same lines, by BSC and cell, and whether each is held.
    index: CellIndex,
    downs: CellsDown,
    meter: u64,
}

/// Written out, so that no crate above proves anew how its parts are dropped.
impl Drop for LineTable {
    fn drop(self) {
        let LineTable {
            alloc: _alloc,
            lines: _lines,
            index: _index,
            downs: _downs,
            meter: _meter,
        } = self;
    }
}

impl Model for LineTable {
    ghost use Rattle.mirror.specs.Index.{IsTable};
    ghost use Rattle.mirror.specs.Table.{Table};

    ghost Value = { Table };

    ghost view = { λ t. record { lines = t.lines; downs = t.downs; meter = t.meter } };

    ghost invariant = { λ t. IsTable (record { lines = t.lines; downs = t.downs; meter = t.meter }) t.index };
}

impl LineTable {
    /// Blank lines, no cell that is down, and no access counted.
    pub fn new(alloc: Global) -> LineTable
        ensures lines { (b : ℕ) (c : Cell) (w : ℕ) → line_at result b c w ≡ blank_line }
        ensures downs { (k : Kind) (b : ℕ) (c : Cell) → down_at result k b c ≡ false }
        ensures meter { result.meter ≡ 0 }
    {
        LineTable {
            alloc,
            lines: Lines::new(alloc),
            index: CellIndex::new(alloc),
            downs: CellsDown::new(alloc),
            meter: 0,
        }
    }

    /// The same table, its meter too, in memory of its own. Each line is counted first; none where memory runs out.
    pub fn copied(&mut self) -> Result<LineTable, AllocError>
        ensures copy { IfOk result (λ copy. copy ≡ self.new) }
        ensures counted { OnOk result (self.new ≡ record self.old { meter = counted_all (length self.old.lines) self.old.meter }) }
        ensures unchanged { OnErr result (self.new ≡ self.old) }
        ensures least { self.old.meter ≤ self.new.meter }
    {
        let copy = LineTable {
            alloc: self.alloc,
            lines: self.lines.copied()?,
            index: self.index.copied()?,
            downs: self.downs.copied()?,
            meter: self.meter.saturating_add(self.lines.count() as u64),
        };
        self.meter = copy.meter;
        Ok(copy)
    }

    /// A lemma, not a test, which returns nothing: a BSC has a line of a cell exactly where one of them isn't blank.
    pub fn tell_soundness(&self)
        ensures none { (b : ℕ) (c : Cell) → has_line self.now b c ≡ false → (w : ℕ) → line_at self.now b c w ≡ blank_line }
        ensures some { (b : ℕ) (c : Cell) (w : ℕ) → is_blank (line_at self.now b c w) ≡ false → has_line self.now b c ≡ true }
        ensures which { (b : ℕ) (c : Cell) → has_line self.now b c ≡ true → (w : ℕ) × (is_blank (line_at self.now b c w) ≡ false) }
    {
        let _ = &self.lines;
    }

    /// A lemma, not a test, which returns nothing: a BSC keeps no more lines of a warning than cells where it isn't blank.
    pub fn tell_line_count(&self)
        ensures { (b w : ℕ) (cells : List Cell) → ((c : Cell) → is_blank (line_at self.now b c w) ≡ false → list_any (cell_eq c) cells ≡ true) → line_count self.now b w ≤ length cells }
    {
        self.lines.tell_order();
    }

    /// How often lines were read, set or copied, up to the greatest value, which stays.
    pub fn meter(&self) -> u64
        ensures { result ≡ self.now.meter }
    {
        self.meter
    }

    fn count(&mut self)
        ensures { self.new ≡ record self.old { meter = counted self.old.meter } }
    {
        self.meter = self.meter.saturating_add(1);
    }

    /// Counts the lines of which something is told.
    fn count_all(&mut self, told: usize)
        ensures { self.new ≡ record self.old { meter = counted_all told self.old.meter } }
    {
        self.meter = self.meter.saturating_add(told as u64);
    }

    /// The line of that BSC, cell and warning. It takes no memory, and is counted.
    pub fn read_line(&mut self, key: LineKey) -> Line
        ensures line { result ≡ line_at self.old key.bsc key.cell key.warning }
        ensures lines { self.new.lines ≡ self.old.lines }
        ensures downs { self.new.downs ≡ self.old.downs }
        ensures meter { self.new.meter ≡ counted self.old.meter }
        ensures most { self.new.meter ≤ self.old.meter + 1 }
        ensures least { self.old.meter ≤ self.new.meter }
    {
        self.count();
        line_of(&self.lines, key)
    }

    /// Keeps the line for that BSC, cell and warning. It is counted, also where memory runs out; then each line stays
    /// as it was. Memory is taken only for a line that isn't blank, in place of one that was.
    pub fn set_line(&mut self, key: LineKey, line: Line) -> Result<(), AllocError>
        ensures set { OnOk result ((b : ℕ) (c : Cell) (w : ℕ) → line_at self.new b c w ≡ (if is_key key b c w then line else line_at self.old b c w)) }
        ensures unchanged { OnErr result (self.new.lines ≡ self.old.lines) }
        ensures grows { OnErr result ((is_blank line ≡ false) × (line_at self.old key.bsc key.cell key.warning ≡ blank_line)) }
        ensures downs { self.new.downs ≡ self.old.downs }
        ensures meter { self.new.meter ≡ counted self.old.meter }
        ensures most { self.new.meter ≤ self.old.meter + 1 }
        ensures least { self.old.meter ≤ self.new.meter }
    {
        self.count();
        self.change(key, &line)
    }

    /// Keeps the line, or makes it blank; at an `Err` no line changes. Not inlined: the line is copied where it stands.
    #[inline(never)]
    fn change(&mut self, key: LineKey, line: &Line) -> Result<(), AllocError>
        ensures set { OnOk result ((b : ℕ) (c : Cell) (w : ℕ) → line_at self.new b c w ≡ (if is_key key b c w then line.now else line_at self.old b c w)) }
        ensures unchanged { OnErr result (self.new.lines ≡ self.old.lines) }
        ensures grows { OnErr result ((is_blank line.now ≡ false) × (line_at self.old key.bsc key.cell key.warning ≡ blank_line)) }
        ensures downs { self.new.downs ≡ self.old.downs }
        ensures meter { self.new.meter ≡ self.old.meter }
    {
        if line.is_blank() {
            self.clear(key);
            return Ok(());
        }
        self.keep(key, line)
    }

    /// Makes the line blank.
    fn clear(&mut self, key: LineKey)
        ensures set { (b : ℕ) (c : Cell) (w : ℕ) → line_at self.new b c w ≡ (if is_key key b c w then blank_line else line_at self.old b c w) }
        ensures downs { self.new.downs ≡ self.old.downs }
        ensures meter { self.new.meter ≡ self.old.meter }
    {
        let LineKey { bsc, cell, warning } = key;
        if self.lines.remove(key) {
            self.index.remove(LineKey { bsc, cell, warning });
        }
    }

    /// Keeps the line, which isn't blank. Where memory runs out each line stays as it was.
    fn keep(&mut self, key: LineKey, line: &Line) -> Result<(), AllocError>
        requires { is_blank line.now ≡ false }
        ensures set { OnOk result ((b : ℕ) (c : Cell) (w : ℕ) → line_at self.new b c w ≡ (if is_key key b c w then line.now else line_at self.old b c w)) }
        ensures unchanged { OnErr result (self.new.lines ≡ self.old.lines) }
        ensures grows { OnErr result (line_at self.old key.bsc key.cell key.warning ≡ blank_line) }
        ensures downs { self.new.downs ≡ self.old.downs }
        ensures meter { self.new.meter ≡ self.old.meter }
    {
        let is_held = line.is_held();
        if self.lines.insert(key, line)? == Some(is_held) {
            return Ok(());
        }
        match self.index.insert(key, is_held) {
            Ok(()) => Ok(()),
            Err(e) => {
                // Memory runs out only for a line that the index didn't have, so none was kept before.
                let _ = self.lines.remove(key);
                Err(e)
            }
        }
    }

    /// The lines of the warning that aren't blank, by BSC and cell, in ascending order. Each is counted; none where memory
    /// runs out.
    pub fn places_of(&mut self, w: WarningId) -> Result<Vec<LineKey>, AllocError>
        ensures which { IfOk result (λ keys. (b : ℕ) (c : Cell) (v : ℕ) → list_any (λ k. is_key k b c v) keys.items ≡ (nat_eq w v && not (is_blank (line_at self.old b c v)))) }
        ensures order { IfOk result (λ keys. is_ascending key_before keys.items ≡ true) }
        ensures few { IfOk result (λ keys. (ks : List LineKey) → ((b : ℕ) (c : Cell) → is_blank (line_at self.old b c w) ≡ false → list_any (λ k. is_key k b c w) ks ≡ true) → length keys.items ≤ length ks) }
        ensures lines { self.new.lines ≡ self.old.lines }
        ensures downs { self.new.downs ≡ self.old.downs }
        ensures meter { IfOk result (λ keys. self.new.meter ≡ counted_all (length keys.items) self.old.meter) }
        ensures untold { OnErr result (self.new.meter ≡ self.old.meter) }
        ensures most { IfOk result (λ keys. self.new.meter ≤ self.old.meter + length keys.items) }
        ensures least { self.old.meter ≤ self.new.meter }
    {
        let keys = keys_of(self.alloc, &self.lines, w)?;
        self.count_all(keys.len());
        Ok(keys)
    }

    /// The first `most` cells at the BSC, in ascending order and after the given one, in which the version of that serial
    /// number of the warning is on air. Each line of the warning at the BSC that is read is counted: those of all cells after
    /// the given one, or up to the last of `most` cells. Memory is taken only for a cell that is found.
    pub fn cells_on_air(
        &mut self,
        b: BscId,
        w: WarningId,
        serial: Serial,
        after: Option<Cell>,
        most: usize,
    ) -> Result<Cells, AllocError>
        ensures first { (xs : List Cell) → AreOnAir self.old b w serial after xs → IfOk result (λ cells. cells ≡ take most xs) }
        ensures some { (xs : List Cell) → AreOnAir self.old b w serial after xs → OnErr result (1 ≤ length (take most xs)) }
        ensures lines { self.new.lines ≡ self.old.lines }
        ensures downs { self.new.downs ≡ self.old.downs }
        ensures meter { self.new.meter ≤ self.old.meter + line_count self.old b w }
        ensures least { self.old.meter ≤ self.new.meter }
        ensures counted { IfOk result (λ cells. self.new.meter ≡ counted_all (read_count self.old b w after most cells) self.old.meter) }
    {
        let slots = later(&self.lines, b, w, after);
        let version = VersionAt {
            bsc: b,
            warning: w,
            serial,
        };
        let cells = first_on_air(
            self.alloc,
            slots,
            &self.lines,
            &version,
            most,
            &mut self.meter,
        )?;
        Ok(cells)
    }

    /// Whether the version of that serial number of the warning is on air in some cell at some BSC, or may be. Each line of
    /// the warning that is read is counted: all of them, or, where the version is found, those up to the one that says so.
    /// It takes no memory.
    pub fn is_present_anywhere(&mut self, w: WarningId, serial: Serial) -> bool
        ensures some { result ≡ true → (b : ℕ) × ((c : Cell) × (is_present_at self.old b c w serial ≡ true)) }
        ensures none { result ≡ false → (b : ℕ) (c : Cell) → is_present_at self.old b c w serial ≡ false }
        ensures lines { self.new.lines ≡ self.old.lines }
        ensures downs { self.new.downs ≡ self.old.downs }
        ensures most { (ks : List LineKey) → ((b : ℕ) (c : Cell) → is_blank (line_at self.old b c w) ≡ false → list_any (λ k. is_key k b c w) ks ≡ true) → self.new.meter ≤ self.old.meter + length ks }
        ensures least { self.old.meter ≤ self.new.meter }
        ensures all { result ≡ false → self.new.meter ≡ counted_all (length (lines_of w self.old)) self.old.meter }
        ensures first { result ≡ true → counted self.old.meter ≤ self.new.meter }
    {
        let slots = slots_of(&self.lines, w);
        is_present_among(slots, &self.lines, serial, &mut self.meter)
    }

    /// Whether the cell is down at the BSC for warnings of the kind: the BSC's last indication of their type that named it
    /// was a FAILURE (TS 48.049, 8.1.3). It takes no memory.
    #[inline(always)]
    pub fn is_down(&self, kind: Kind, b: BscId, c: Cell) -> bool
        ensures { result ≡ down_at self.now kind b c }
    {
        self.downs.is_down(kind, b, c)
    }

    /// The numbers of the warnings whose line in the cell at the BSC isn't blank, in ascending order. Each of these lines is
    /// counted; none where memory runs out.
    pub fn warnings_at(&mut self, b: BscId, c: Cell) -> Result<Vec<WarningId>, AllocError>
        ensures warnings { IfOk result (λ ws. ws.items ≡ warnings_at self.old b c) }
        ensures order { IfOk result (λ ws. is_ascending ltb ws.items ≡ true) }
        ensures which { IfOk result (λ ws. (w : ℕ) → list_any (nat_eq w) ws.items ≡ not (is_blank (line_at self.old b c w))) }
        ensures few { IfOk result (λ ws. (ns : List ℕ) → ((w : ℕ) → is_blank (line_at self.old b c w) ≡ false → list_any (nat_eq w) ns ≡ true) → length ws.items ≤ length ns) }
        ensures lines { self.new.lines ≡ self.old.lines }
        ensures downs { self.new.downs ≡ self.old.downs }
        ensures meter { IfOk result (λ ws. self.new.meter ≡ counted_all (length ws.items) self.old.meter) }
        ensures untold { OnErr result (self.new.meter ≡ self.old.meter) }
        ensures most { (ns : List ℕ) → ((w : ℕ) → is_blank (line_at self.old b c w) ≡ false → list_any (nat_eq w) ns ≡ true) → self.new.meter ≤ self.old.meter + length ns }
        ensures least { self.old.meter ≤ self.new.meter }
    {
        self.lines.tell_order();
        let mut warnings = Vec::with_capacity(self.alloc, FEW)?;
        add_warnings(self.index.slots(), b, c, false, &mut warnings)?;
        self.count_all(warnings.len());
        Ok(warnings)
    }

    /// The numbers of the warnings whose line in the cell at the BSC is held, in ascending order: a version of it has a hold.
    /// Each of these lines is counted; none where memory runs out.
    pub fn held_at(&mut self, b: BscId, c: Cell) -> Result<Vec<WarningId>, AllocError>
        ensures held { IfOk result (λ ws. ws.items ≡ filter (λ w. is_held_line (line_at self.old b c w)) (warnings_at self.old b c)) }
        ensures order { IfOk result (λ ws. is_ascending ltb ws.items ≡ true) }
        ensures which { IfOk result (λ ws. (w : ℕ) → list_any (nat_eq w) ws.items ≡ is_held_line (line_at self.old b c w)) }
        ensures few { IfOk result (λ ws. (ns : List ℕ) → ((w : ℕ) → is_blank (line_at self.old b c w) ≡ false → list_any (nat_eq w) ns ≡ true) → length ws.items ≤ length ns) }
        ensures lines { self.new.lines ≡ self.old.lines }
        ensures downs { self.new.downs ≡ self.old.downs }
        ensures meter { IfOk result (λ ws. self.new.meter ≡ counted_all (length ws.items) self.old.meter) }
        ensures untold { OnErr result (self.new.meter ≡ self.old.meter) }
        ensures most { (ns : List ℕ) → ((w : ℕ) → is_blank (line_at self.old b c w) ≡ false → list_any (nat_eq w) ns ≡ true) → self.new.meter ≤ self.old.meter + length ns }
        ensures least { self.old.meter ≤ self.new.meter }
    {
        self.lines.tell_order();
        let mut held = Vec::new(self.alloc);
        add_warnings(self.index.slots(), b, c, true, &mut held)?;
        self.count_all(held.len());
        Ok(held)
    }

    /// Sets whether the cell is down at the BSC for warnings of the kind. Where memory runs out nothing changes. Memory is
    /// taken only for a cell that is down and wasn't.
    pub fn set_down(&mut self, kind: Kind, b: BscId, c: Cell, down: bool) -> Result<(), AllocError>
        ensures set { OnOk result ((k : Kind) (d : ℕ) (e : Cell) → down_at self.new k d e ≡ (if is_same_kind kind k && (nat_eq b d && cell_eq c e) then down else down_at self.old k d e)) }
        ensures unchanged { OnErr result (self.new.downs ≡ self.old.downs) }
        ensures grows { OnErr result ((down ≡ true) × (down_at self.old kind b c ≡ false)) }
        ensures lines { self.new.lines ≡ self.old.lines }
        ensures meter { self.new.meter ≡ self.old.meter }
    {
        if !down {
            self.downs.remove(kind, b, c);
            return Ok(());
        }
        self.downs.insert(kind, b, c)
    }

    /// The cells that are known at the BSC, in ascending order: those registered there, those that are down there for
    /// warnings of some kind, and those of which a line isn't blank.
    pub fn known_cells(&self, register: &Register, b: BscId) -> Result<Cells, AllocError>
        ensures order { IfOk result (λ cells. is_ascending cell_lt cells ≡ true) }
        ensures known { IfOk result (λ cells. (c : Cell) → list_any (cell_eq c) cells ≡ is_known self.now register.now b c) }
    {
        let mut gathered = register.cells_of(b)?.into_vec();
        add_cells_down(b, &self.downs, &mut gathered)?;
        add_line_cells(b, self.index.slots(), &mut gathered)?;
        register.tell_soundness();
        let cells = Cells::in_order(gathered)?;
        Ok(cells)
    }

    /// Those cells known at the BSC that one of the identifications names, in ascending order (TS 48.049, 8.2.6). The
    /// network is that of the centre, as its three octets are sent.
    pub fn cells_named(
        &self,
        register: &Register,
        network: [u8; 3],
        b: BscId,
        ids: &[CellId],
    ) -> Result<Cells, AllocError>
        ensures order { IfOk result (λ cells. is_ascending cell_lt cells ≡ true) }
        ensures named { IfOk result (λ cells. (c : Cell) → list_any (cell_eq c) cells ≡ (is_known self.now register.now b c && is_named network ids.now c)) }
    {
        let cells = match are_of_cells(ids) {
            true => self.own_cells_named(register, network, b, ids),
            false => self.known_cells_named(register, network, b, ids),
        }?;
        Ok(cells)
    }

    /// Those known cells that the identifications name, found among all known cells of the BSC.
    fn known_cells_named(
        &self,
        register: &Register,
        network: [u8; 3],
        b: BscId,
        ids: &[CellId],
    ) -> Result<Cells, AllocError>
        ensures order { IfOk result (λ cells. is_ascending cell_lt cells ≡ true) }
        ensures named { IfOk result (λ cells. (c : Cell) → list_any (cell_eq c) cells ≡ (is_known self.now register.now b c && is_named network ids.now c)) }
    {
        let known = self.known_cells(register, b)?;
        let cells = named(self.alloc, network, ids, known.as_slice())?;
        Ok(cells)
    }

    /// The same, where each identification can name one cell alone: no other cell is looked at.
    fn own_cells_named(
        &self,
        register: &Register,
        network: [u8; 3],
        b: BscId,
        ids: &[CellId],
    ) -> Result<Cells, AllocError>
        requires { are_of_cells ids.now ≡ true }
        ensures order { IfOk result (λ cells. is_ascending cell_lt cells ≡ true) }
        ensures named { IfOk result (λ cells. (c : Cell) → list_any (cell_eq c) cells ≡ (is_known self.now register.now b c && is_named network ids.now c)) }
    {
        let mut gathered = BTreeSet::new(self.alloc);
        self.add_own_cells(register, network, b, ids, &mut gathered)?;
        let cells = cells_in_order(self.alloc, &gathered)?;
        Ok(cells)
    }

    /// Whether the cell is known at the BSC.
    fn is_known(&self, register: &Register, b: BscId, c: Cell) -> bool
        ensures { result ≡ is_known self.now register.now b c }
    {
        is_registered(register, b, c)
            || self.downs.is_down_for_some(b, c)
            || has_line(self.index.slots(), b, c)
    }

    /// Puts those known cells that the identifications name among those gathered.
    fn add_own_cells(
        &self,
        register: &Register,
        network: [u8; 3],
        b: BscId,
        ids: &[CellId],
        gathered: &mut BTreeSet<Cell>,
    ) -> Result<(), AllocError>
        requires { are_of_cells ids.now ≡ true }
        ensures { OnOk result ((c : Cell) → list_any (cell_eq c) gathered.new.keys ≡ ((is_known self.now register.now b c && is_named network ids.now c) || list_any (cell_eq c) gathered.old.keys)) }
    {
        for id in ids {
            let Some(c) = own_cell(id) else {
                continue;
            };
            if id.names(network, c) && self.is_known(register, b, c) {
                gathered.insert(c)?;
            }
        }
        Ok(())
    }
}
