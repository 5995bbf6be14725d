//! A matrix that is held in a format.
ghost use Rattle.std.specs.Prelude.{◌≡◌, ◌<◌, ◌≤◌, Some, IfOk, OnOk, IsErrOf};
ghost use Rattle.us_format.specs.Program.{shape_in, entries_in};
ghost use Rattle.us_format.specs.Buffers.{buffers as buffers_of, size};
ghost use Rattle.us_format.specs.Meaning.{meaning};
ghost use Rattle.us_format.specs.Reading.{limit};
ghost use Rattle.us_judge.specs.Views.{declaration_of};
ghost use Rattle.us_build.specs.declared.fault.BuildFault.TheVariants.{TooLarge};
ghost use Rattle.us_check.specs.Held.{IsHeld};

use std::alloc::Global;
use std::marker::Model;
use us_judge::Format;
use us_levels::{BuildFault, build_plain};
use us_matrix::{Buffers, Matrix, Shape};

/// A matrix in a format: the format, the matrix, and exactly the format's buffers of the matrix, within the limit.
#[derive(Drop)]
pub struct Held {
    format: Format,
    matrix: Matrix,
    buffers: Buffers,
}

impl Model for Held {
    ghost use Rattle.us_check.specs.Kept.{Kept, kept_code};

    ghost Value = { Kept };

    ghost coded = { kept_code };

    ghost use Rattle.us_check.specs.Held.{IsHeld};

    ghost view = { λ h. record { declared = h.format; matrix = h.matrix; buffers = h.buffers } };

    ghost invariant = { λ h. IsHeld (record { declared = h.format; matrix = h.matrix; buffers = h.buffers }) };
}

// The format's buffers of a matrix mean the matrix, within the limit: the declaration is accepted, and the matrix is in order.
fn mean_the_matrix(format: &Format, matrix: &Matrix)
    requires { size (shape_in matrix.now) (declaration_of format.now) (entries_in matrix.now) ≤ limit }
    ensures { let built = buffers_of (shape_in matrix.now) (declaration_of format.now) (entries_in matrix.now) in
        meaning (shape_in matrix.now) (declaration_of format.now) built ≡ Some (entries_in matrix.now) }
{
    format.decl();
    matrix.shape();
}

impl Held {
    /// The format.
    pub fn format(&self) -> &Format
        ensures { result.now ≡ self.now.declared }
    {
        &self.format
    }

    /// How many rows and columns the matrix has.
    pub fn shape(&self) -> Shape
        ensures { (result.rows ≡ self.now.matrix.rows) × (result.cols ≡ self.now.matrix.cols) }
    {
        self.matrix.shape()
    }

    /// The format's buffers of the matrix.
    pub fn buffers(&self) -> &Buffers
        ensures value { result.now ≡ self.now.buffers }
        ensures held { IsHeld self.now }
    {
        &self.buffers
    }

    /// The matrix.
    pub fn matrix(&self) -> &Matrix
        ensures { result.now ≡ self.now.matrix }
    {
        &self.matrix
    }

    /// The matrix alone. It takes no memory.
    pub fn into_matrix(self) -> Matrix
        ensures { result ≡ self.matrix }
    {
        let Held { matrix, .. } = self;
        matrix
    }

    /// The matrix in the format, built plainly.
    pub fn of(alloc: Global, format: Format, matrix: Matrix) -> Result<Held, BuildFault>
        ensures held { IfOk result (λ h. (h.declared ≡ format) × (h.matrix ≡ matrix)) }
        ensures small { OnOk result (size (shape_in matrix) (declaration_of format) (entries_in matrix) ≤ limit) }
        ensures large { IsErrOf result TooLarge → limit < size (shape_in matrix) (declaration_of format) (entries_in matrix) }
    {
        let buffers = build_plain(alloc, &format, &matrix)?;
        Ok(Held {
            format,
            matrix,
            buffers,
        })
    }

    /// The matrix in the format, with buffers that are the format's buffers of the matrix. It takes no memory.
    pub fn from_parts(format: Format, matrix: Matrix, buffers: Buffers) -> Held
        requires built { buffers ≡ buffers_of (shape_in matrix) (declaration_of format) (entries_in matrix) }
        requires small { size (shape_in matrix) (declaration_of format) (entries_in matrix) ≤ limit }
        ensures { result ≡ record { declared = format; matrix = matrix; buffers = buffers } }
    {
        mean_the_matrix(&format, &matrix);
        Held {
            format,
            matrix,
            buffers,
        }
    }
}
