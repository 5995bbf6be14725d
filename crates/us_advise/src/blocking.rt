//! The formats of blocks.
ghost use Rattle.std.specs.Prelude.{◌≡◌, [], ◌∷◌, ◌++◌, map, None, IfOk, OnOk};
ghost use Rattle.us_expr.specs.Tree.{tree, RowIndex, ColIndex, Quotient, Remainder};
ghost use Rattle.us_decl.specs.Views.{decl_view};
ghost use Rattle.us_judge.specs.Acceptance.{first_refusal};
ghost use Rattle.us_judge.specs.Views.{declaration_of};
ghost use Rattle.us_advise.specs.Blocks.{IsBlockSide, all_blocks, block, row_of_blocks};

use sqlite_items::{Boxed, Items};
use std::alloc::{AllocError, Global};
use us_decl::{Body, Decl, Levels, Name, Numbers, Part};
use us_expr::Expr;
use us_judge::{Format, judge};

/// The floor quotient of an index by a side.
fn quotient(alloc: Global, index: Expr, side: u32) -> Result<Expr, AllocError>
    ensures { IfOk result (λ e. tree e ≡ Quotient (tree index) side) }
{
    let index = Boxed::new(alloc, index)?;
    Ok(Expr::Div(index, side))
}

/// The remainder of an index by a side.
fn remainder(alloc: Global, index: Expr, side: u32) -> Result<Expr, AllocError>
    ensures { IfOk result (λ e. tree e ≡ Remainder (tree index) side) }
{
    let index = Boxed::new(alloc, index)?;
    Ok(Expr::Rem(index, side))
}

/// The row and the column of the block of an entry, and its row and column in the block.
fn levels(alloc: Global, rows: u32, cols: u32) -> Result<Levels, AllocError>
    ensures { IfOk result (λ levels.
        map tree levels ≡ Quotient RowIndex rows ∷ Quotient ColIndex cols ∷ Remainder RowIndex rows ∷ Remainder ColIndex cols ∷ []) }
{
    let mut levels = Levels::new(alloc);
    levels.push(quotient(alloc, Expr::I, rows)?)?;
    levels.push(quotient(alloc, Expr::J, cols)?)?;
    levels.push(remainder(alloc, Expr::I, rows)?)?;
    levels.push(remainder(alloc, Expr::J, cols)?)?;
    Ok(levels)
}

/// The number of the level of block columns, alone.
fn second(alloc: Global) -> Result<Numbers, AllocError>
    ensures { IfOk result (λ numbers. numbers ≡ 1 ∷ []) }
{
    let mut numbers = Numbers::new(alloc);
    numbers.push(1)?;
    Ok(numbers)
}

fn declaration(alloc: Global, rows: u32, cols: u32) -> Result<Decl, AllocError>
    ensures { IfOk result (λ d. decl_view d ≡ block rows cols) }
{
    // this text is a name
    let Some(name) = Name::new("best") else {
        return Err(AllocError);
    };
    let part = Part {
        names: Items::new(alloc),
        queries: Items::new(alloc),
        levels: levels(alloc, rows, cols)?,
        trim: second(alloc)?,
        merge: second(alloc)?,
        packs: Items::new(alloc),
    };
    Ok(Decl {
        name,
        body: Body::One(part),
    })
}

/// The format of blocks of 1 to 8 rows and 1 to 8 columns, each stored whole where an entry stands in it. For two rows
/// and three columns it is `format best { map (i / 2, j / 3, i % 2, j % 3) trim 1 merge 1 }`. It breaks no rule, so
/// only memory can be wanting.
pub fn block(alloc: Global, rows: u32, cols: u32) -> Result<Format, AllocError>
    requires rows { IsBlockSide rows }
    requires cols { IsBlockSide cols }
    ensures is { IfOk result (λ f. f ≡ block rows cols) }
    ensures accepted { first_refusal (declaration_of (block rows cols)) ≡ None }
{
    judge(alloc, declaration(alloc, rows, cols)?).map_err(|_| AllocError)
}

/// Adds the blocks of so many rows, of 1 to 8 columns in this order.
fn push_row(alloc: Global, formats: &mut Items<Format>, rows: u32) -> Result<(), AllocError>
    requires { IsBlockSide rows }
    ensures { OnOk result (formats.new ≡ formats.old ++ row_of_blocks rows) }
{
    for cols in 1..9 {
        formats.push(block(alloc, rows, cols)?)?;
    }
    Ok(())
}

/// The blocks of 1 to 8 rows and 1 to 8 columns, by their rows and then by their columns.
pub fn all_blocks(alloc: Global) -> Result<Items<Format>, AllocError>
    ensures { IfOk result (λ formats. formats ≡ all_blocks) }
{
    let mut formats = Items::new(alloc);
    for rows in 1..9 {
        push_row(alloc, &mut formats, rows)?;
    }
    Ok(formats)
}
