//! The canonical text of a unit of a dense product.
ghost use Rattle.std.specs.Prelude.{◌≡◌, ◌++◌, IfOk, OnOk};
ghost use Rattle.std.specs.Fmt.{decimal};
ghost use Rattle.us_code.specs.Limits.{KeepsLimits};
ghost use Rattle.us_code.specs.Plain.{program_tree};
ghost use Rattle.us_dense_unit.specs.Dense.{IsDenseUnit, dense_line, dense_text};

use itoa::Buffer;
use std::alloc::{AllocError, Global};
use us_code::Program;
use us_code_print::print_program;
use us_unit::program_is_named;

/// The canonical text of a unit of a dense product with so many rows and columns: its line, and behind it the text of
/// its program. It reads back.
pub fn print_dense_unit(
    alloc: Global,
    rows: u32,
    cols: u32,
    program: &Program,
) -> Result<Vec<u8>, AllocError>
    requires limits { KeepsLimits (program_tree program.now) }
    ensures text { IfOk result (λ v. v.items ≡ dense_text (record { rows = rows; cols = cols; program = program_tree program.now })) }
    ensures reads { IfOk result (λ v. IsDenseUnit (record { rows = rows; cols = cols; program = program_tree program.now }) v.items) }
{
    program_is_named(program);
    let mut text = dense_line(alloc, rows, cols)?;
    let code = print_program(alloc, program)?;
    text.extend_from_slice(&code)?;
    Ok(text)
}

/// The line of the rows and columns, with its end.
fn dense_line(alloc: Global, rows: u32, cols: u32) -> Result<Vec<u8>, AllocError>
    ensures { IfOk result (λ v. v.items ≡ dense_line rows cols) }
{
    let mut line = Vec::new(alloc);
    line.extend_from_slice(b"dense ")?;
    push_number(&mut line, rows)?;
    line.extend_from_slice(b" ")?;
    push_number(&mut line, cols)?;
    line.extend_from_slice(b"\n")?;
    Ok(line)
}

fn push_number(out: &mut Vec<u8>, n: u32) -> Result<(), AllocError>
    ensures { OnOk result (out.new.items ≡ out.old.items ++ decimal n) }
{
    out.extend_from_slice(Buffer::new().format(n).as_bytes())
}
