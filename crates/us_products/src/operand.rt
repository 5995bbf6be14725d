//! The dense operand of a product.
ghost use Rattle.std.specs.Prelude.{◌≡◌, ◌≤◌, ◌*◌, ◌∷◌, [], Err, IfErr, IfOk, IfSome, Ok, OnOk, length, true};
ghost use Rattle.us_matrix.specs.Map.{IsSide};
ghost use Rattle.us_mm.specs.Arrays.{array_in};
ghost use Rattle.us_outside.specs.Causes.{NeverFell};
ghost use Rattle.us_outside.specs.Files.{content_of};
ghost use Rattle.us_status.specs.declared.status.Slot.TheVariants.{Operand};
ghost use Rattle.us_status.specs.Uses.{reads};
ghost use Rattle.us_status.specs.Answers.{IsInnerRefusal, IsRefusal, IsStep, refusal_of};
ghost use Rattle.us_products.specs.Factors.{operand_at, operand_step, right_columns, sides_step};

use std::alloc::Global;
use us_inputs::load_file;
use us_matrix::Dense;
use us_mm::{MmFault, read_array};
use us_outside::Outside;
use us_status::{Slot, Status};

/// The operand in a file, or the answer where it isn't read.
pub fn read_operand<O: Outside>(alloc: Global, outside: &mut O, name: &str) -> Result<Dense, Status>
    ensures plain { IfSome (O.files outside.old) (λ fs. IsStep (operand_at (content_of fs name.now)) result) }
    ensures cols { IfOk result (λ x. IsSide x.cols) }
    ensures few { IfOk result (λ x. length x.cells ≤ 33554432) }
    ensures refusal { IfErr result (IsRefusal (reads Operand name.now ∷ []) (O.faults outside.old) (O.faults outside.new)) }
    ensures files { O.files outside.new ≡ O.files outside.old }
    ensures printed { O.printed outside.new ≡ O.printed outside.old }
    ensures later { NeverFell (O.faults outside.old) (O.faults outside.new) }
{
    let bytes = load_file(alloc, outside, Slot::Operand, name)?;
    operand_in(alloc, &bytes)
}

// The operand that the bytes are.
fn operand_in(alloc: Global, bytes: &[u8]) -> Result<Dense, Status>
    ensures plain { IsStep (operand_step (array_in bytes.now)) result }
    ensures cols { IfOk result (λ x. IsSide x.cols) }
    ensures few { IfOk result (λ x. length x.cells ≤ 33554432) }
    ensures refusal { IfErr result IsInnerRefusal }
{
    match read_array(alloc, bytes) {
        Ok(x) => {
            // so there are as many cells as its sides say
            x.cells();
            Ok(x)
        }
        Err(fault) => Err(operand_refusal(fault)),
    }
}

// The answer to a file that isn't an operand.
fn operand_refusal(fault: MmFault) -> Status
    ensures { result ≡ refusal_of Operand fault }
{
    match fault {
        MmFault::Memory => Status::Memory,
        fault => Status::Matrix {
            slot: Slot::Operand,
            fault,
        },
    }
}

/// Whether an operand has as many rows as the matrix has columns, and one column where a vector is wanted.
pub fn check_sides(vector: bool, cols: u32, x: &Dense) -> Result<(), Status>
    ensures fits { OnOk result (sides_step vector cols x.now ≡ Ok tt) }
    ensures rows { OnOk result (x.now.rows ≡ cols) }
    ensures plain { IfErr result (λ s. sides_step vector cols x.now ≡ Err s) }
    ensures refusal { IfErr result IsInnerRefusal }
{
    let rows = x.rows();
    if rows != cols {
        return Err(Status::Operand {
            columns: false,
            have: u64::from(rows),
            want: u64::from(cols),
        });
    }
    if !vector {
        return Ok(());
    }
    check_vector(x)
}

// Whether an operand has one column.
fn check_vector(x: &Dense) -> Result<(), Status>
    ensures fits { OnOk result (right_columns true x.now.cols ≡ Ok tt) }
    ensures plain { IfErr result (λ s. right_columns true x.now.cols ≡ Err s) }
    ensures refusal { IfErr result IsInnerRefusal }
{
    let cols = x.cols();
    if cols == 1 {
        return Ok(());
    }
    Err(Status::Operand {
        columns: true,
        have: u64::from(cols),
        want: 1,
    })
}
