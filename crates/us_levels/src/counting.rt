//! The matrices of the parts of a divided format.
ghost use Rattle.std.specs.Prelude.{◌≡◌, ◌≤◌, All, None, length, map, IfOk};
ghost use Rattle.us_decl.specs.Declares.{IsValid};
ghost use Rattle.us_format.specs.Buffers.{buffers, size};
ghost use Rattle.us_format.specs.Declaration.{query_of};
ghost use Rattle.us_format.specs.Program.{shape_in, entries_in};
ghost use Rattle.us_format.specs.Reading.{limit};
ghost use Rattle.us_judge.specs.Acceptance.{first_refusal};
ghost use Rattle.us_judge.specs.Views.{declaration_of};
ghost use Rattle.us_layout.specs.Splitting.{AreShares};
ghost use Rattle.us_levels.specs.Shared.{lists_of, sizes_of};

use std::alloc::{AllocError, Global};
use us_decl::Head;
use us_judge::Format;
use us_layout::{Shares, split};
use us_matrix::Matrix;

/// The matrix of each part of a divided format that has this head. Their sizes are the size of the whole, and their buffers
/// are those of the whole. Fails only where memory is wanting.
pub(crate) fn shares_of(
    alloc: Global,
    format: &Format,
    head: &Head,
    matrix: &Matrix,
) -> Result<Shares, AllocError>
    requires valid { IsValid format.now }
    requires accepted { first_refusal (declaration_of format.now) ≡ None }
    requires queries { (declaration_of format.now).head ≡ map query_of head.now.queries }
    requires conds { (declaration_of format.now).conds ≡ head.now.conds }
    requires few { length matrix.now.entries ≤ limit }
    ensures shares { IfOk result (AreShares matrix.now (declaration_of format.now).head (declaration_of format.now).conds) }
    ensures count { IfOk result (λ ms. length ms ≡ length (declaration_of format.now).parts) }
    ensures few { IfOk result (λ ms. All (λ m. length m.entries ≤ limit) ms) }
    ensures sizes { IfOk result (λ ms. sizes_of (declaration_of format.now).parts ms ≡ size (shape_in matrix.now) (declaration_of format.now) (entries_in matrix.now)) }
    ensures lists { IfOk result (λ ms. lists_of (declaration_of format.now).parts ms ≡ buffers (shape_in matrix.now) (declaration_of format.now) (entries_in matrix.now)) }
{
    let queries = head.queries.as_slice();
    split(alloc, matrix, queries, head.conds.as_slice())
}
