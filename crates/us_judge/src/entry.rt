//! The built-in format of matrix files.
ghost use Rattle.std.specs.Prelude.{◌≡◌, [], ◌∷◌, map, IfOk};
ghost use Rattle.us_expr.specs.Tree.{tree, RowIndex, ColIndex};
ghost use Rattle.us_decl.specs.Declares.{IsValid};
ghost use Rattle.us_decl.specs.Views.{decl_view};
ghost use Rattle.us_judge.specs.Entry.{entry_format};

use crate::format::{Format, judge};
use sqlite_items::Items;
use std::alloc::{AllocError, Global};
use us_decl::{Body, Decl, Levels, Name, Numbers, Part};
use us_expr::Expr;

/// A row and a column for each entry.
fn levels(alloc: Global) -> Result<Levels, AllocError>
    ensures { IfOk result (λ levels. map tree levels ≡ RowIndex ∷ ColIndex ∷ []) }
{
    let mut levels = Levels::new(alloc);
    levels.push(Expr::I)?;
    levels.push(Expr::J)?;
    Ok(levels)
}

/// Both levels are trimmed.
fn trim(alloc: Global) -> Result<Numbers, AllocError>
    ensures { IfOk result (λ trim. trim ≡ 0 ∷ 1 ∷ []) }
{
    let mut trim = Numbers::new(alloc);
    trim.push(0)?;
    trim.push(1)?;
    Ok(trim)
}

fn declaration(alloc: Global) -> Result<Decl, AllocError>
    ensures { IfOk result (λ d. decl_view d ≡ entry_format) }
{
    // this text is a name
    let Some(name) = Name::new("entry") else {
        return Err(AllocError);
    };
    let part = Part {
        names: Items::new(alloc),
        queries: Items::new(alloc),
        levels: levels(alloc)?,
        trim: trim(alloc)?,
        merge: Items::new(alloc),
        packs: Items::new(alloc),
    };
    Ok(Decl {
        name,
        body: Body::One(part),
    })
}

/// The format in which the entries of a matrix file are held, `format entry { map (i, j) trim 0, 1 }`. No library
/// declares it.
#[tactic(auto, using(crate::proofs::EntryFormat::entry_valid))]
pub fn entry_format(alloc: Global) -> Result<Format, AllocError>
    ensures { IfOk result (λ f. f ≡ entry_format) }
{
    // it breaks no rule, so only memory can be wanting
    judge(alloc, declaration(alloc)?).map_err(|_| AllocError)
}
