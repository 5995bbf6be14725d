//! What stays the same while the positions of a part are read.
ghost use Rattle.std.specs.Prelude.{◌≡◌, ◌-◌, ◌<◌, ◌^◌, true};
ghost use Rattle.us_format.specs.Program.{plain_shape};
ghost use Rattle.us_format.specs.Reading.{fits};
ghost use Rattle.us_judge.specs.Format.{part_at};
ghost use Rattle.us_judge.specs.Views.{declaration_of};
ghost use Rattle.us_matrix.specs.Map.{IsSide};
ghost use Rattle.us_climb.specs.Layout.{IsLayout};
ghost use Rattle.us_climb.specs.Parents.{AreParents, tables_in};
ghost use Rattle.us_climb.specs.Readers.{IsPlaced, IsReady, extents_from};

use crate::extents::{extents_of, tables_at};
use crate::layout::Layout;
use us_expr::VarRanges;
use us_invert::{RecoveryPlan, Tables};
use us_judge::Format;
use us_matrix::{Buffers, Shape};

/// The layout of a part of a format, the plan of its recovery, its tables and extents, and tables of the first levels' parents,
/// for buffers of a matrix of this shape.
#[derive(Debug, Drop)]
pub struct Reader<'a> {
    pub format: &'a Format,
    /// The number of the part, counted from 1.
    pub number: usize,
    pub shape: Shape,
    pub plan: &'a RecoveryPlan,
    pub layout: Layout,
    pub parents: &'a [Vec<usize>],
    pub ranges: VarRanges,
    pub tables: Tables<'a>,
}

impl<'a> Reader<'a> {
    /// The plan, the tables and the extents of the part with this number, counted from 1, whose first buffer has the number
    /// `first`, for buffers that fit. The part has this layout, and these parents are known in advance.
    pub fn of(
        format: &'a Format,
        number: usize,
        first: usize,
        shape: Shape,
        buffers: &'a Buffers,
        layout: Layout,
        parents: &'a [Vec<usize>],
    ) -> Reader<'a>
        requires rows { IsSide shape.rows }
        requires cols { IsSide shape.cols }
        requires fitting { fits (plain_shape shape) (declaration_of format.now) buffers.now ≡ true }
        requires placed { IsPlaced (declaration_of format.now) number first }
        requires base { first < 2 ^ 31 }
        requires laid { IsLayout first (plain_shape shape) (extents_from first buffers.now (part_at (declaration_of format.now) (number - 1)))
            (part_at (declaration_of format.now) (number - 1)) layout }
        requires parents { AreParents layout.levels.items (tables_in parents.now) buffers.now }
        ensures format { result.format.now ≡ format.now }
        ensures number { result.number ≡ number }
        ensures shape { result.shape ≡ shape }
        ensures layout { result.layout ≡ layout }
        ensures buffers { result.tables.buffers.now ≡ buffers.now }
        ensures ready { IsReady result }
    {
        let part = format.part(number);
        let extents = extents_of(part, first, buffers);
        let ranges = format.variable_ranges(number, extents.as_slice(), shape.rows, shape.cols);
        Reader {
            format,
            number,
            shape,
            plan: format.plan(number),
            layout,
            parents,
            ranges,
            tables: Tables {
                buffers,
                at: tables_at(part, first),
                extents,
            },
        }
    }
}
