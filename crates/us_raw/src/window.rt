//! One list of a region to be written, beside the others to be read.
ghost use Rattle.std.specs.Prelude.{◌≡◌, ◌<◌, ℤ, pos, List, [], length, get_or, slice_set};
ghost use Rattle.us_raw.specs.Widths.{Holds};

use super::cells::{read, write};
use super::region::Entry;
use super::width::Width;
use std::marker::Model;

/// One list of a region, to be written.
#[derive(Drop)]
pub struct Window<'a> {
    /// The bytes of its cells.
    pub bytes: &'a mut [u8],
    pub width: Width,
}

impl<'a> Window<'a> {
    ghost use Rattle.us_raw.specs.Window.{cells_of};

    /// The cell `x`.
    pub fn get(&self, x: u64) -> i64
        requires { x < length (cells_of self.now.bytes.now self.now.width) }
        ensures { result ≡ get_or (cells_of self.now.bytes.now self.now.width) x (pos 0) }
    {
        read(self.bytes, (x * self.width.bytes()) as usize, self.width)
    }

    /// Sets the cell `x` to the value, which the width holds.
    pub fn set(&mut self, x: u64, v: i64)
        requires { (x < length (cells_of self.old.bytes.now self.old.width)) × Holds self.old.width v }
        ensures same_reference { self.new.bytes.ghost_name ≡ self.old.bytes.ghost_name }
        ensures cells { cells_of self.new.bytes.now self.new.width ≡ slice_set (cells_of self.old.bytes.now self.old.width) x v }
        ensures width { (self.new.width ≡ self.old.width) × (length self.new.bytes.now ≡ length self.old.bytes.now) }
    {
        let size = self.width.bytes() as usize;
        let at = x as usize * size;
        write(&mut self.bytes[at..at + size], self.width, v);
    }
}

/// The lists of a region but for one that is lent, seen as the lists under
/// their own numbers, the lent one empty.
#[derive(Drop)]
pub struct Rest<'a> {
    pub(crate) before: &'a [u8],
    pub(crate) after: &'a [u8],
    pub(crate) skipped: usize,
    pub(crate) count: usize,
    pub(crate) lent: usize,
}

impl<'a> Model for Rest<'a> {
    ghost use Rattle.std.specs.Prelude.{ℤ, List};
    ghost use Rattle.us_raw.specs.Rest.{others_of, IsAround};

    ghost Value = { List (List ℤ) };

    ghost view = { λ r. others_of r.before.now r.skipped r.after.now r.count r.lent };

    ghost invariant = { λ r. IsAround r.before.now r.skipped r.after.now r.count r.lent };
}

impl<'a> Rest<'a> {
    /// The cell `x` of the list `seg`, which is not the lent one.
    pub fn get(&self, seg: usize, x: u64) -> i64
        requires { (seg < length self.now) × (x < length (get_or self.now seg [])) }
        ensures { result ≡ get_or (get_or self.now seg []) x (pos 0) }
    {
        let entry = Entry::of(self.before, seg);
        let place = entry.place(x);
        if place < self.before.len() {
            read(self.before, place, entry.width)
        } else {
            read(
                self.after,
                place - self.before.len() - self.skipped,
                entry.width,
            )
        }
    }
}

/// One list to be written, and the others to be read.
#[derive(Drop)]
pub struct Parts<'a> {
    pub cells: Window<'a>,
    pub others: Rest<'a>,
}
