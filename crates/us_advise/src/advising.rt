//! The sizes of a matrix in some formats, and the smallest format.
ghost use Rattle.std.specs.Prelude.{◌≡◌, map, IfOk, MatchOption};
ghost use Rattle.us_advise.specs.Blocks.{all_blocks};
ghost use Rattle.us_advise.specs.Least.{AreAbove, IsLeastAt, least, size_in, told};

use crate::blocking::all_blocks;
use crate::choosing::least_of;
use sqlite_items::Items;
use std::alloc::{AllocError, Global};
use us_judge::Format;
use us_levels::size_of;
use us_matrix::Matrix;

/// Sizes in the order of their formats, each 67108865 where it is above the limit of 67108864.
pub type SizeList = Items<u64>;

/// The sizes of a matrix in some formats, and which is the smallest.
#[derive(Debug, Drop)]
pub struct Advice {
    pub sizes: SizeList,
    /// The place of the smallest format, the first of those that are equally small. There is none exactly where every
    /// size is above the limit.
    pub best: Option<usize>,
}

/// The size of a matrix in each of these formats.
fn sizes_of(alloc: Global, formats: &[Format], matrix: &Matrix) -> Result<SizeList, AllocError>
    ensures { IfOk result (λ sizes. sizes ≡ map (λ d. told (size_in matrix.now d)) formats.now) }
{
    let mut sizes = SizeList::new(alloc);
    for format in formats {
        sizes.push(size_of(alloc, format, matrix)?)?;
    }
    Ok(sizes)
}

/// The size of a matrix in each of these formats, and the place of the first of the smallest of them. Only memory can
/// be wanting.
pub fn advise(alloc: Global, formats: &[Format], matrix: &Matrix) -> Result<Advice, AllocError>
    ensures sizes { IfOk result (λ a. a.sizes ≡ map (λ d. told (size_in matrix.now d)) formats.now) }
    ensures best { IfOk result (λ a. a.best ≡ least (map (size_in matrix.now) formats.now)) }
    ensures smallest { let sizes = map (size_in matrix.now) formats.now in
        IfOk result (λ a. MatchOption a.best (AreAbove sizes) (IsLeastAt sizes)) }
{
    let sizes = sizes_of(alloc, formats, matrix)?;
    let best = least_of(sizes.as_slice());
    Ok(Advice { sizes, best })
}

/// The size of a matrix in the blocks of 1 to 8 rows and 1 to 8 columns, by their rows and then by their columns, and
/// the place of the first of the smallest of them. Only memory can be wanting.
pub fn blocks(alloc: Global, matrix: &Matrix) -> Result<Advice, AllocError>
    ensures sizes { IfOk result (λ a. a.sizes ≡ map (λ d. told (size_in matrix.now d)) all_blocks) }
    ensures best { IfOk result (λ a. a.best ≡ least (map (size_in matrix.now) all_blocks)) }
    ensures smallest { let sizes = map (size_in matrix.now) all_blocks in
        IfOk result (λ a. MatchOption a.best (AreAbove sizes) (IsLeastAt sizes)) }
{
    let formats = all_blocks(alloc)?;
    advise(alloc, formats.as_slice(), matrix)
}
