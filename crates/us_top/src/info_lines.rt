//! What `info` prints.
ghost use Rattle.std.specs.Prelude.{◌≡◌, ◌++◌, ◌∷◌, [], IfOk, OnOk, length};
ghost use Rattle.us_top.specs.Info.{info_text, sides_text, spaced, buffer_lines};
ghost use Rattle.std.specs.Fmt.{decimal};
ghost use Rattle.us_inputs.specs.Steps.{OfFile, OfContainer};
ghost use Rattle.us_inputs.specs.Views.{input_view, contained_of};

use itoa::Buffer;
use std::alloc::{AllocError, Global};
use us_check::Held;
use us_inputs::Input;
use us_levels::size_of;
use us_matrix::{Buffers, Matrix};

/// The line of a matrix file, or the lines of a container.
pub fn info_lines(alloc: Global, input: &Input) -> Result<Vec<u8>, AllocError>
    ensures { IfOk result (λ v. v.items ≡ info_text (input_view input.now)) }
{
    match input {
        Input::File(matrix) => matrix_lines(alloc, matrix),
        Input::Container(held) => container_lines(alloc, held),
    }
}

fn matrix_lines(alloc: Global, matrix: &Matrix) -> Result<Vec<u8>, AllocError>
    ensures { IfOk result (λ v. v.items ≡ info_text (OfFile matrix.now)) }
{
    let mut out = Vec::from_slice(alloc, b"matrix")?;
    push_sides(&mut out, matrix)?;
    out.push(b'\n')?;
    Ok(out)
}

fn container_lines(alloc: Global, held: &Held) -> Result<Vec<u8>, AllocError>
    ensures { IfOk result (λ v. v.items ≡ info_text (OfContainer (contained_of held.now))) }
{
    let size = size_of(alloc, held.format(), held.matrix())?;
    let mut out = Vec::from_slice(alloc, b"container 1 ")?;
    out.extend_from_slice(held.format().decl().name.as_str().as_bytes())?;
    push_sides(&mut out, held.matrix())?;
    push_spaced(&mut out, size)?;
    out.push(b'\n')?;
    push_buffers(&mut out, held.buffers())?;
    Ok(out)
}

// Rows, columns and the number of entries.
fn push_sides(out: &mut Vec<u8>, matrix: &Matrix) -> Result<(), AllocError>
    ensures { OnOk result (out.new.items ≡ out.old.items ++ sides_text matrix.now) }
{
    let shape = matrix.shape();
    push_spaced(out, u64::from(shape.rows))?;
    push_spaced(out, u64::from(shape.cols))?;
    push_spaced(out, matrix.entries().len() as u64)
}

// A blank and a number.
fn push_spaced(out: &mut Vec<u8>, number: u64) -> Result<(), AllocError>
    ensures { OnOk result (out.new.items ≡ out.old.items ++ spaced number) }
{
    let mut buffer = Buffer::new();
    out.push(b' ')?;
    out.extend_from_slice(buffer.format(number).as_bytes())
}

// A line for each buffer: its number and its length.
fn push_buffers(out: &mut Vec<u8>, buffers: &Buffers) -> Result<(), AllocError>
    ensures { OnOk result (out.new.items ≡ out.old.items ++ buffer_lines 0 buffers.now) }
{
    for k in 0..buffers.count() {
        push_buffer(out, k, buffers.list(k).len())?;
    }
    Ok(())
}

fn push_buffer(out: &mut Vec<u8>, number: usize, len: usize) -> Result<(), AllocError>
    ensures { OnOk result (out.new.items ≡ out.old.items ++ (decimal number ++ (spaced len ++ 10 ∷ []))) }
{
    let mut buffer = Buffer::new();
    out.extend_from_slice(buffer.format(number).as_bytes())?;
    push_spaced(out, len as u64)?;
    out.push(b'\n')?;
    Ok(())
}
