//! The phase that adds products.

ghost use Rattle.std.specs.Prelude.{◌≡◌, ◌+◌, ◌*◌, ◌<◌, ◌≤◌, ◌^◌, length, IfOk};
ghost use Rattle.us_code.specs.Plain.{term_tree, tree_of, phase_tree};
ghost use Rattle.us_gen_product.specs.Product as products;

use sqlite_items::Items;
use std::alloc::{AllocError, Global};
use us_code::{Block, Buf, CellKind, Dim, Make, Phase, Term, add, for_below, load, mul, set, when};
use us_gen_unpack::PartWalk;
use us_gen_walk::{end_of_walk, inside, walk};

/// Where the operand and the result of a product are, and their sizes.
#[derive(Clone, Copy, Debug, PartialEq, Eq)]
pub struct Product {
    /// The source of the operand, column after column.
    pub operand: u32,
    /// The new buffer of the result, column after column.
    pub result: u32,
    /// The rows of the matrix and of the result.
    pub rows: u64,
    /// The columns of the matrix, and so the rows of the operand.
    pub inner: u64,
    /// The columns of the operand and of the result.
    pub columns: u64,
}

impl Product {
    /// Whether the operand has one column.
    fn is_vector(&self) -> bool
        ensures { result ≡ products.is_vector self.now }
    {
        self.columns == 1
    }

    /// The length of the result.
    fn cells(&self) -> Dim
        requires { products.cells self.now < 2 ^ 64 }
        ensures { result ≡ products.result_length self.now }
    {
        Dim::Number(self.rows * self.columns)
    }
}

/// The place of an index in the column whose number is in a register, or in the first column, where columns have this
/// many cells.
fn in_column(alloc: Global, column: Option<u32>, size: u64, index: Term) -> Result<Term, AllocError>
    ensures { IfOk result (λ t. term_tree t ≡ products.in_column column size (term_tree index)) }
{
    match column {
        None => Ok(index),
        Some(reg) => {
            let start = mul(alloc, Term::Reg(reg), Term::Number(size))?;
            add(alloc, start, index)
        }
    }
}

/// Adds the product of the value and the factor in registers to the cell whose place is in register `next + 2`.
fn add_to_cell(alloc: Global, product: &Product, value: u32, next: u32) -> Result<Block, AllocError>
    requires { next + 4 < 2 ^ 32 }
    ensures { IfOk result (λ b. tree_of b ≡ products.add_to_cell product.now value next) }
{
    let buf = Buf::New(product.result);
    let more = mul(alloc, Term::Reg(value), Term::Reg(next + 1))?;
    let sum = add(alloc, Term::Reg(next + 3), more)?;
    let mut block = Block::of(alloc, load(next + 3, buf, Term::Reg(next + 2)))?;
    block.push(set(buf, Term::Reg(next + 2), sum))?;
    Ok(block)
}

/// Adds what an entry adds in one column. The register of its value and the terms of its indices are given.
fn add_product(
    alloc: Global,
    product: &Product,
    column: Option<u32>,
    row: Term,
    col: Term,
    value: u32,
    next: u32,
) -> Result<Block, AllocError>
    requires room { next + 4 < 2 ^ 32 }
    requires cells { products.cells product.now < 2 ^ 64 }
    ensures { IfOk result (λ b. tree_of b ≡ products.add_product product.now column (term_tree row) (term_tree col) value next) }
{
    let sum = add_to_cell(alloc, product, value, next)?;
    let place = in_column(alloc, column, product.rows, row)?;
    let at = in_column(alloc, column, product.inner, col)?;
    let factor = load(next + 1, Buf::Source(product.operand), Term::Reg(next));
    let mut block = Block::of(alloc, factor)?;
    block.push(when(place, product.cells(), next + 2, sum))?;
    Block::of(alloc, when(at, Dim::Len(product.operand), next, block))
}

/// Adds what an entry adds in all columns. Of an operand with one column there is no loop.
fn add_products(
    alloc: Global,
    product: &Product,
    row: Term,
    col: Term,
    value: u32,
    next: u32,
) -> Result<Block, AllocError>
    requires room { next + 5 < 2 ^ 32 }
    requires cells { products.cells product.now < 2 ^ 64 }
    ensures { IfOk result (λ b. tree_of b ≡ products.add_products product.now (term_tree row) (term_tree col) value next) }
{
    if product.is_vector() {
        add_product(alloc, product, None, row, col, value, next + 1)
    } else {
        let column = Some(next);
        let turn = add_product(alloc, product, column, row, col, value, next + 1)?;
        Block::of(alloc, for_below(next, Dim::Number(product.columns), turn))
    }
}

/// The loops over the positions of a part, which add the products of its entries.
fn add_part(
    alloc: Global,
    part: &PartWalk,
    product: &Product,
    next: u32,
) -> Result<Block, AllocError>
    requires room { next + products.room part.now < 2 ^ 32 }
    requires cells { products.cells product.now < 2 ^ 64 }
    ensures { IfOk result (λ b. tree_of b ≡ products.add_part product.now part.now next) }
{
    let entry = inside(alloc, &part.places, &part.steps, part.row, part.col, next)?;
    let free = end_of_walk(&part.places, &part.steps, next);
    let more = add_products(alloc, product, entry.row, entry.col, entry.value, free)?;
    walk(alloc, &part.places, &part.steps, next, more)
}

/// The first register behind those of a part's loops.
fn end_of_part(part: &PartWalk, next: u32) -> u32
    requires { next + products.room part.now < 2 ^ 32 }
    ensures is { result ≡ products.end_of_part part.now next }
    ensures few { result ≤ next + products.room part.now }
{
    end_of_walk(&part.places, &part.steps, next) + 5
}

/// The loops of parts, one after the other.
fn add_parts(
    alloc: Global,
    parts: &[PartWalk],
    product: &Product,
    next: u32,
) -> Result<Block, AllocError>
    requires room { next + products.rooms parts.now < 2 ^ 32 }
    requires cells { products.cells product.now < 2 ^ 64 }
    ensures { IfOk result (λ b. tree_of b ≡ products.add_parts product.now parts.now next) }
{
    match parts {
        [] => Ok(Block::new(alloc)),
        [first, rest @ ..] => {
            let mut block = add_part(alloc, first, product, next)?;
            let others = add_parts(alloc, rest, product, end_of_part(first, next))?;
            block.append(others)?;
            Ok(block)
        }
    }
}

/// The phase that makes the result and adds the products of the entries of all parts. Registers from `next` on are its
/// own. It fails only for want of memory.
pub fn product_phase(
    alloc: Global,
    parts: &[PartWalk],
    product: &Product,
    next: u32,
) -> Result<Phase, AllocError>
    requires room { next + products.rooms parts.now < 2 ^ 32 }
    requires cells { products.cells product.now < 2 ^ 64 }
    ensures { IfOk result (λ p. phase_tree p ≡ products.product_phase product.now parts.now next) }
{
    let mut makes = Items::new(alloc);
    makes.push(Make {
        buf: product.result,
        len: product.cells(),
        cell: CellKind::Word,
    })?;
    let body = add_parts(alloc, parts, product, next)?;
    Ok(Phase {
        makes,
        body,
        dims: Items::new(alloc),
    })
}
