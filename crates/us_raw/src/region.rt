//! Lists of cells in one allocation.
ghost use Rattle.std.specs.Prelude.{◌≡◌, ◌+◌, ◌*◌, ◌<◌, ◌≤◌, ◌^◌, pos, [], length, get_or, slice_set, replicate, IfOk};
ghost use Rattle.us_raw.specs.Plan.{IsPlan, IsTable, size_of_plan, put, entered, zero_lists, widths_of};
ghost use Rattle.us_raw.specs.Widths.{size_of};

use super::block::Block;
use super::cells::{load, read, write};
use super::width::Width;
use super::window::{Parts, Rest, Window};
use std::alloc::{AllocError, Global};
use std::marker::Model;

/// A list to be made: how many cells it has, and how wide they are.
#[derive(Clone, Copy, Debug, PartialEq, Eq)]
pub struct Segment {
    /// The number of cells.
    pub len: u64,
    pub width: Width,
}

impl Segment {
    ghost use Rattle.us_raw.specs.Plan.{cells_size};

    /// The bytes of its cells.
    fn size(self) -> u64
        requires { self.len ≤ 67108865 }
        ensures { (result ≡ cells_size self) × (result ≤ 536870920) }
    {
        self.len * self.width.bytes()
    }
}

/// Where the cells of a list stand.
#[derive(Clone, Copy)]
pub(crate) struct Entry {
    start: u64,
    len: u64,
    pub(crate) width: Width,
}

impl Entry {
    ghost use Rattle.us_raw.specs.Region.{start_at, length_at, width_at};
    /// The entry of the segment, in the table at the head of the bytes.
    pub(crate) fn of(bytes: &[u8], seg: usize) -> Entry
        requires { seg * 24 + 24 ≤ length bytes.now }
        ensures { (result.start ≡ start_at bytes.now seg) × (result.len ≡ length_at bytes.now seg) × (result.width ≡ width_at bytes.now seg) }
    {
        let at = seg * 24;
        Entry {
            start: load(bytes, at),
            len: load(bytes, at + 8),
            width: Width::of_bytes(load(bytes, at + 16)),
        }
    }

    /// The place of a cell.
    pub(crate) fn place(self, x: u64) -> usize
        requires { self.start + x * size_of self.width < 2 ^ 64 }
        ensures { result ≡ self.start + x * size_of self.width }
    {
        (self.start + x * self.width.bytes()) as usize
    }

    /// The bytes of the cells.
    fn size(self) -> usize
        requires { self.len * size_of self.width < 2 ^ 64 }
        ensures { result ≡ self.len * size_of self.width }
    {
        (self.len * self.width.bytes()) as usize
    }
}

/// The bytes of the table and of all cells.
fn total(plan: &[Segment]) -> usize
    requires { IsPlan plan.now }
    ensures { (result ≡ size_of_plan plan.now) × (result < 2 ^ 63) }
{
    let mut total = plan.len() as u64 * 24;
    for index in 0..plan.len() {
        total += plan[index].size();
    }
    total as usize
}

/// Writes one word.
fn store(block: &mut Block, at: usize, word: u64)
    requires { at + 8 ≤ length block.old }
    ensures { block.new ≡ put block.old at word }
{
    let (_, place, _) = block.cut(at, 8);
    place.copy_from_slice(&word.to_le_bytes());
}

/// Writes the entry of the segment.
fn enter(block: &mut Block, seg: usize, entry: Entry)
    requires { (seg * 24 + 24 ≤ length block.old) × (seg < 131072) }
    ensures { block.new ≡ entered block.old seg entry.start entry.len (size_of entry.width) }
{
    let at = seg * 24;
    store(block, at, entry.start);
    store(block, at + 8, entry.len);
    store(block, at + 16, entry.width.bytes());
}

/// Writes the table of the plan into a block of zeros.
fn lay(block: &mut Block, plan: &[Segment])
    requires { IsPlan plan.now × (block.old ≡ replicate (size_of_plan plan.now) 0) }
    ensures { IsTable plan.now block.new (length plan.now) }
{
    let mut start = plan.len() as u64 * 24;
    for index in 0..plan.len() {
        let Segment { len, width } = plan[index];
        enter(block, index, Entry { start, len, width });
        start += plan[index].size();
    }
}

/// Lists of cells in one allocation, seen as the lists and the widths of their
/// cells.
#[derive(Drop)]
pub struct Region {
    block: Block,
    count: usize,
}

impl Model for Region {
    ghost use Rattle.us_raw.specs.Region.{Lists, lists_code, region_of, IsLaid};

    ghost Value = { Lists };

    ghost coded = { lists_code };

    ghost view = { λ r. region_of r.block r.count };

    ghost invariant = { λ r. IsLaid r.block r.count };
}

impl Region {
    ghost use Rattle.us_raw.specs.Widths.{Holds};
    ghost use Rattle.us_raw.specs.declared.width.Width.TheVariants.{W8};
    ghost use Rattle.std.specs.Borrow.{sem};
    ghost use Rattle.us_raw.specs.Window.{cells_of, lends_list};

    /// The lists of the plan, all cells 0: at most 131072 lists of at most
    /// 67108865 cells each. An `Err` is want of memory.
    pub fn new(alloc: Global, plan: &[Segment]) -> Result<Region, AllocError>
        requires { IsPlan plan.now }
        ensures { IfOk result (λ r. (r.lists ≡ zero_lists plan.now) × (r.widths ≡ widths_of plan.now)) }
    {
        let mut block = Block::zeroed(alloc, total(plan))?;
        lay(&mut block, plan);
        Ok(Region {
            block,
            count: plan.len(),
        })
    }

    /// The cell `x` of the list `seg`.
    pub fn get(&self, seg: usize, x: u64) -> i64
        requires { (seg < length self.now.lists) × (x < length (get_or self.now.lists seg [])) }
        ensures { result ≡ get_or (get_or self.now.lists seg []) x (pos 0) }
    {
        let bytes = self.block.bytes();
        let entry = Entry::of(bytes, seg);
        read(bytes, entry.place(x), entry.width)
    }

    /// Sets the cell `x` of the list `seg` to the value, which its width holds.
    pub fn set(&mut self, seg: usize, x: u64, v: i64)
        requires { (seg < length self.old.lists) × (x < length (get_or self.old.lists seg [])) × Holds (get_or self.old.widths seg W8) v }
        ensures lists { self.new.lists ≡ slice_set self.old.lists seg (slice_set (get_or self.old.lists seg []) x v) }
        ensures widths { self.new.widths ≡ self.old.widths }
    {
        let entry = Entry::of(self.block.bytes(), seg);
        let (_, cell, _) = self.block.cut(entry.place(x), entry.width.bytes() as usize);
        write(cell, entry.width, v);
    }

    /// The list `seg` to be written, and the others. When it ends, the region
    /// has what was written.
    pub fn window(&mut self, seg: usize) -> Parts<'_>
        requires { seg < length self.old.lists }
        ensures* writes_back { sem 𝓛 (lends_list self.entry seg result.cells.bytes) }
        ensures cells { cells_of result.cells.bytes.now result.cells.width ≡ get_or self.old.lists seg [] }
        ensures width { result.cells.width ≡ get_or self.old.widths seg W8 }
        ensures others { result.others ≡ slice_set self.old.lists seg [] }
    {
        let entry = Entry::of(self.block.bytes(), seg);
        let from = entry.start as usize;
        let count = self.count;
        let size = entry.size();
        let width = entry.width;
        let (before, bytes, after) = self.block.cut(from, size);
        Parts {
            cells: Window { bytes, width },
            others: Rest {
                before,
                after,
                skipped: size,
                count,
                lent: seg,
            },
        }
    }
}
