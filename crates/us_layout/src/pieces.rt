//! The pieces in which the levels and the values of a part are kept.
ghost use Rattle.std.specs.Prelude.{◌≡◌, ◌++◌, IfOk, OnOk, map};
ghost use Rattle.std.specs.List.{list_any, position_or_len};
ghost use Rattle.us_format.specs.Packs.{CellsOf, is_packed, level_pieces, same_piece};
ghost use Rattle.us_judge.specs.Views.{column_of, plain_part};
ghost use Rattle.us_layout.specs.Arranging.{pieces_by, plain_piece};

use std::alloc::{AllocError, Global};
use us_decl::{Column, Pack, Part};
use us_format::Kind;

/// What one list of a part keeps.
#[derive(Clone, Copy, Debug, PartialEq, Eq)]
pub enum Piece {
    /// The positions of the level with this number.
    Pos(usize),
    /// The coordinates of the level with this number.
    Coordinates(usize),
    /// The values.
    Values,
}

/// Whether two pieces are the same.
fn is_same(a: Piece, b: Piece) -> bool
    ensures { result ≡ same_piece (plain_piece a) (plain_piece b) }
{
    match (a, b) {
        (Piece::Pos(k), Piece::Pos(l)) => k == l,
        (Piece::Coordinates(k), Piece::Coordinates(l)) => k == l,
        (Piece::Values, Piece::Values) => true,
        _ => false,
    }
}

/// The piece that a pack names by a column.
pub fn piece_of(column: Column) -> Piece
    ensures { plain_piece result ≡ CellsOf (column_of column) }
{
    match column {
        Column::Level(k) => Piece::Coordinates(k as usize),
        Column::Val => Piece::Values,
    }
}

/// Adds the pieces of a level.
fn push_level_pieces(pieces: &mut Vec<Piece>, level: usize, kind: Kind) -> Result<(), AllocError>
    ensures { OnOk result (map plain_piece pieces.new.items ≡ map plain_piece pieces.old.items ++ level_pieces level kind) }
{
    match kind {
        Kind::Full => {}
        Kind::Compressed | Kind::Listed => {
            pieces.push(Piece::Pos(level))?;
            pieces.push(Piece::Coordinates(level))?;
        }
        Kind::Slot => pieces.push(Piece::Coordinates(level))?,
    }
    Ok(())
}

/// The pieces of a part whose levels have these kinds, in order.
pub fn pieces_of(alloc: Global, kinds: &[Kind]) -> Result<Vec<Piece>, AllocError>
    ensures { IfOk result (λ v. map plain_piece v.items ≡ pieces_by 0 kinds.now) }
{
    let mut pieces = Vec::new(alloc);
    for (level, kind) in kinds.iter().enumerate() {
        push_level_pieces(&mut pieces, level, *kind)?;
    }
    pieces.push(Piece::Values)?;
    Ok(pieces)
}

/// The place of the first piece that is the same, or the number of pieces.
pub fn place_of(pieces: &[Piece], piece: Piece) -> usize
    ensures { result ≡ position_or_len (same_piece (plain_piece piece)) (map plain_piece pieces.now) }
{
    for (place, other) in pieces.iter().enumerate() {
        if is_same(piece, *other) {
            return place;
        }
    }
    pieces.len()
}

/// Whether a piece is in a pack.
fn is_in(piece: Piece, pack: &Pack) -> bool
    ensures { result ≡ list_any (λ column. same_piece (plain_piece piece) (CellsOf (column_of column))) pack.now }
{
    pack.as_slice()
        .iter()
        .any(|column| is_same(piece, piece_of(*column)))
}

/// Whether a piece is in one of some packs.
fn is_in_some(piece: Piece, packs: &[Pack]) -> bool
    ensures { result ≡ list_any (λ pack. list_any (λ column. same_piece (plain_piece piece) (CellsOf (column_of column))) pack) packs.now }
{
    packs.iter().any(|pack| is_in(piece, pack))
}

/// Whether a part packs a piece.
pub fn is_packed(part: &Part, piece: Piece) -> bool
    ensures { result ≡ is_packed (plain_part part.now) (plain_piece piece) }
{
    is_in_some(piece, part.packs.as_slice())
}
