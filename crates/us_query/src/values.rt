// The values of an expression at the entries of a matrix.
ghost use Rattle.std.specs.Prelude.{◌≡◌, ◌<◌, ◌^◌, [], IfOk, length, map};
ghost use Rattle.us_expr.specs.Tree.{tree};
ghost use Rattle.us_expr.specs.Value.{IsValid};
ghost use Rattle.us_matrix.specs.Map.{IsMatrix};
ghost use Rattle.us_format.specs.Program.{entries_in, plain_entry};
ghost use Rattle.us_format.specs.Queries.{plain_value};

use arrayvec::ArrayVec;
use std::alloc::{AllocError, Global};
use us_expr::{Expr, Point, eval};
use us_matrix::{Matrix, Triple};

// The value of an expression without variables at an entry.
fn value_of(e: &Expr, t: &Triple) -> i64
    requires valid { IsValid [] (tree e.now) }
    requires row { t.now.i < 2 ^ 31 }
    requires col { t.now.j < 2 ^ 31 }
    ensures { result ≡ plain_value (tree e.now) (plain_entry t.now) }
{
    let point = Point {
        i: i64::from(t.i),
        j: i64::from(t.j),
        vars: ArrayVec::new(),
    };
    eval(e, &point)
}

/// The values of an expression without variables at the entries, in their order.
pub fn values(alloc: Global, matrix: &Matrix, e: &Expr) -> Result<Vec<i64>, AllocError>
    requires valid { IsValid [] (tree e.now) }
    ensures values { IfOk result (λ vs. vs.items ≡ map (plain_value (tree e.now)) (entries_in matrix.now)) }
    ensures matrix { IsMatrix matrix.now }
{
    let entries = matrix.entries();
    let mut values = Vec::new(alloc);
    for t in entries {
        values.push(value_of(e, t))?;
    }
    Ok(values)
}
