//! The climb from a position of the last level to the coordinates.
ghost use Rattle.std.specs.Prelude.{◌≡◌, ◌+◌, ◌<◌, ◌≤◌, ◌^◌, ℕ, ℤ, List, [], ◌∷◌, pos, true, false, Some, length, IfSome, OnSome};
ghost use Rattle.us_format.specs.declared.Kind.TheVariants.{Full, Compressed, Slot};
ghost use Rattle.us_format.specs.Lists.{then_do, nth, cell, nat_of};
ghost use Rattle.us_format.specs.Climb.{as_coordinate, at_most, is_parent, parent_of, up};
ghost use Rattle.us_climb.specs.declared.layout.LevelLayout.{LevelLayout};
ghost use Rattle.us_climb.specs.Layout.{IsInside, AreSound, IsClimbed, cells_at, up_by, climb_by};
ghost use Rattle.us_climb.specs.Parents.{AreParents, IsTable, entry, none, number, tables_in};

use crate::cells::{column_cell, list_at};
use crate::layout::LevelLayout;
use crate::parents::parent_in;
use arrayvec::ArrayVec;
use us_format::Kind;
use us_matrix::Buffers;

/// What one level up gives: the position of the parent, and the coordinate.
#[derive(Clone, Copy, Debug, PartialEq, Eq)]
struct Above {
    position: usize,
    coordinate: i64,
}

/// Whether a cell is at most a position.
fn is_at_most(cell: i64, x: usize) -> bool
    ensures { result ≡ at_most cell x }
{
    cell < 0 || cell.unsigned_abs() <= x as u64
}

/// The cell as a coordinate of a level of this size.
fn as_coordinate(size: u64, cell: i64) -> Option<i64>
    ensures { result ≡ then_do (as_coordinate size cell) (λ c. Some (pos c)) }
{
    if cell >= 0 && cell.unsigned_abs() < size {
        Some(cell)
    } else {
        None
    }
}

/// Whether the range that begins with a start has a position.
fn is_parent(starts: &[i64], x: usize, p: usize) -> bool
    requires { p + 1 < length starts.now }
    ensures { result ≡ is_parent starts.now x p }
{
    is_at_most(starts[p], x) && !is_at_most(starts[p + 1], x)
}

/// The first parent of a position, found by looking at one start after the other.
fn parent_in_turn(starts: &[i64], x: usize) -> Option<usize>
    ensures { result ≡ parent_of starts.now x }
{
    for p in 1..starts.len() {
        if is_parent(starts, x, p - 1) {
            return Some(p - 1);
        }
    }
    None
}

/// The first parent of a position, by the table where it has the position.
fn parent_of(starts: &[i64], table: &[usize], x: usize) -> Option<usize>
    requires { IsTable starts.now table.now }
    ensures { result ≡ parent_of starts.now x }
{
    match parent_in(table, x) {
        Some(parent) => parent,
        None => parent_in_turn(starts, x),
    }
}

/// One level up from a position of a full level.
fn full_up(size: u64, x: usize) -> Option<Above>
    requires { size < 2 ^ 63 }
    ensures { result ≡ then_do (up Full size [] x) (λ u. Some (record { position = u.0; coordinate = pos u.1 })) }
{
    if size == 0 {
        return None;
    }
    let x = x as u64;
    Some(Above {
        position: (x / size) as usize,
        coordinate: (x % size) as i64,
    })
}

/// One level up from a position of a level that has starts.
fn stored_up(level: &LevelLayout, table: &[usize], buffers: &Buffers, x: usize) -> Option<Above>
    requires inside { IsInside level.now.cells }
    requires table { IsTable (nth buffers.now level.now.starts) table.now }
    ensures { result ≡ then_do (up Compressed level.now.size (nth buffers.now level.now.starts ∷ cells_at level.now.cells buffers.now ∷ []) x)
        (λ u. Some (record { position = u.0; coordinate = pos u.1 })) }
{
    let coordinate = as_coordinate(level.size, column_cell(&level.cells, buffers, x))?;
    let position = parent_of(list_at(buffers, level.starts), table, x)?;
    Some(Above {
        position,
        coordinate,
    })
}

/// One level up from a position of a slot level.
fn slot_up(level: &LevelLayout, buffers: &Buffers, x: usize) -> Option<Above>
    requires { IsInside level.now.cells }
    ensures { result ≡ then_do (up Slot level.now.size (cells_at level.now.cells buffers.now ∷ []) x)
        (λ u. Some (record { position = u.0; coordinate = pos u.1 })) }
{
    let coordinate = as_coordinate(level.size, column_cell(&level.cells, buffers, x))?;
    Some(Above {
        position: x,
        coordinate,
    })
}

/// One level up.
fn up(level: &LevelLayout, table: &[usize], buffers: &Buffers, x: usize) -> Option<Above>
    requires narrow { level.now.size < 2 ^ 63 }
    requires inside { IsInside level.now.cells }
    requires table { IsTable (nth buffers.now level.now.starts) table.now }
    ensures { result ≡ then_do (up_by level.now buffers.now x) (λ u. Some (record { position = u.0; coordinate = pos u.1 })) }
{
    match level.kind {
        Kind::Full => full_up(level.size, x),
        Kind::Compressed | Kind::Listed => stored_up(level, table, buffers, x),
        Kind::Slot => slot_up(level, buffers, x),
    }
}

/// The table of the first level, empty where there is none, and those of the others.
fn first_table(tables: &[Vec<usize>]) -> (&[usize], &[Vec<usize>])
    ensures { (levels : List LevelLayout) (level : LevelLayout) (bufs : List (List ℤ)) → AreParents (level ∷ levels) (tables_in tables.now) bufs
        → IsTable (nth bufs level.starts) result.0.now × AreParents levels (tables_in result.1.now) bufs }
{
    match tables {
        [] => (&[], &[]),
        [table, rest @ ..] => (table.as_slice(), rest),
    }
}

/// The position above some levels, and in `coordinates` those of the levels. The tables are those of the first levels.
pub fn climb_from(
    levels: &[LevelLayout],
    tables: &[Vec<usize>],
    buffers: &Buffers,
    x: usize,
    coordinates: &mut ArrayVec<i64, 6>,
) -> Option<usize>
    requires sound { AreSound levels.now }
    requires parents { AreParents levels.now (tables_in tables.now) buffers.now }
    requires few { length levels.now ≤ 6 }
    ensures climbed { IsClimbed result coordinates.new.items (climb_by levels.now buffers.now x) }
    ensures number { OnSome result (length coordinates.new.items ≡ length levels.now) }
{
    match levels {
        [] => {
            coordinates.clear();
            Some(x)
        }
        [level, rest @ ..] => {
            let (table, more) = first_table(tables);
            let y = climb_from(rest, more, buffers, x, coordinates)?;
            let above = up(level, table, buffers, y)?;
            coordinates.insert(0, above.coordinate);
            Some(above.position)
        }
    }
}
