//! The buffers of a part from the cells of its pieces.
ghost use Rattle.std.specs.Prelude.{◌≡◌, ◌++◌, [], ◌∷◌, IfOk, List, OnOk, map};
ghost use Rattle.us_format.specs.Packs.{Buffer, packed, written};
ghost use Rattle.us_judge.specs.Kinds.{kinds_of};
ghost use Rattle.us_judge.specs.Views.{column_of, plain_part};
ghost use Rattle.us_layout.specs.Arranging.{HaveOneLengthEach, PacksHaveOneLength, columns_of, list_of, own_cells, pack_cells, packs_cells, plain_piece};
ghost use Rattle.us_layout.specs.Interleaving.{HaveOneLength};

use crate::interleaving::interleave_slices;
use crate::pieces::{Piece, is_packed, piece_of, pieces_of, place_of};
use std::alloc::{AllocError, Global};
use us_decl::{Pack, Part};
use us_format::Kind;
use us_matrix::Buffers;

/// The cells of a piece.
fn list_of<'a>(pieces: &[Piece], lists: &'a Buffers, piece: Piece) -> &'a [i64]
    ensures { result.now ≡ list_of (map plain_piece pieces.now) lists.now (plain_piece piece) }
{
    let place = place_of(pieces, piece);
    if place < lists.count() {
        lists.list(place)
    } else {
        &[]
    }
}

/// Adds a copy of the cells of a piece, unless a pack has it.
fn push_unless_packed(
    alloc: Global,
    arranged: &mut Buffers,
    part: &Part,
    pieces: &[Piece],
    lists: &Buffers,
    piece: Piece,
) -> Result<(), AllocError>
    ensures { OnOk result (arranged.new ≡ arranged.old ++ own_cells (plain_part part.now) (map plain_piece pieces.now) lists.now (plain_piece piece ∷ [])) }
{
    if is_packed(part, piece) {
        return Ok(());
    }
    let cells = Vec::from_slice(alloc, list_of(pieces, lists, piece))?;
    arranged.push(cells)?;
    Ok(())
}

/// Adds a copy of the cells of each piece that no pack has.
fn push_own(
    alloc: Global,
    arranged: &mut Buffers,
    part: &Part,
    pieces: &[Piece],
    lists: &Buffers,
) -> Result<(), AllocError>
    ensures { OnOk result (arranged.new ≡ arranged.old ++ own_cells (plain_part part.now) (map plain_piece pieces.now) lists.now (map plain_piece pieces.now)) }
{
    for piece in pieces {
        push_unless_packed(alloc, arranged, part, pieces, lists, *piece)?;
    }
    Ok(())
}

/// The columns of a pack in one list, interleaved: of each column the list of its piece. Fails only where memory is
/// wanting.
pub fn pack_cells(
    alloc: Global,
    pieces: &[Piece],
    lists: &Buffers,
    pack: &Pack,
) -> Result<Vec<i64>, AllocError>
    requires { HaveOneLength (columns_of (map plain_piece pieces.now) lists.now (map column_of pack.now)) }
    ensures { IfOk result (λ v. v.items ≡ pack_cells (map plain_piece pieces.now) lists.now (map column_of pack.now)) }
{
    let mut columns = Vec::with_capacity(alloc, pack.len())?;
    for column in pack.as_slice() {
        columns.push(list_of(pieces, lists, piece_of(*column)))?;
    }
    interleave_slices(alloc, &columns)
}

/// Adds the cells of each pack.
fn push_packs(
    alloc: Global,
    arranged: &mut Buffers,
    packs: &[Pack],
    pieces: &[Piece],
    lists: &Buffers,
) -> Result<(), AllocError>
    requires { HaveOneLengthEach (map plain_piece pieces.now) lists.now packs.now }
    ensures { OnOk result (arranged.new ≡ arranged.old ++ packs_cells (map plain_piece pieces.now) lists.now packs.now) }
{
    for pack in packs {
        arranged.push(pack_cells(alloc, pieces, lists, pack)?)?;
    }
    Ok(())
}

/// The buffers of a part from the cells of its pieces, one list a piece: the pieces that no pack has, in their order,
/// and then the packs, interleaved. The kinds are those of the part's levels, and the columns of each pack have one
/// length. Fails only where memory is wanting.
pub fn arrange(
    alloc: Global,
    part: &Part,
    kinds: &[Kind],
    pieces: &Buffers,
) -> Result<Buffers, AllocError>
    requires kinds { kinds.now ≡ kinds_of (plain_part part.now) }
    requires packs { PacksHaveOneLength (plain_part part.now) pieces.now }
    ensures { IfOk result (λ b. (bs : List Buffer) → map written bs ≡ pieces.now → b ≡ map written (packed (plain_part part.now) bs)) }
{
    let names = pieces_of(alloc, kinds)?;
    let mut arranged = Buffers::new(alloc);
    push_own(alloc, &mut arranged, part, &names, pieces)?;
    push_packs(alloc, &mut arranged, part.packs.as_slice(), &names, pieces)?;
    Ok(arranged)
}
