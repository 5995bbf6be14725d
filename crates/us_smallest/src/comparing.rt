//! The command that compares formats on a matrix.
ghost use Rattle.std.specs.Prelude.{◌≡◌, ◌++◌, IfOk, OnOk, true};
ghost use Rattle.us_status.specs.Runs.{IsRunOf, told};
ghost use Rattle.us_inputs.specs.Chains.{is_chain};
ghost use Rattle.us_smallest.specs.Comparing.{advice_text, advise_task};
ghost use Rattle.us_smallest.specs.Tables.{ending};

use crate::table::push_ending;
use std::alloc::{AllocError, Global};
use us_advise::advise as sizes_in;
use us_inputs::{read_chain, read_input};
use us_judge::Format;
use us_matrix::Matrix;
use us_outside::Outside;
use us_status::{Slot, Status, finish};

/// Prints the size of the input's matrix in each of the formats, or `over` where it is above the limit, and the first of
/// the smallest formats, if there is one.
pub fn advise<O: Outside>(
    alloc: Global,
    outside: &mut O,
    formats: &str,
    input: &str,
    chain: &str,
) -> Status
    requires { is_chain chain.now ≡ true }
    ensures { IsRunOf (advise_task formats.now input.now chain.now)
        (told (O.files outside.old) (O.printed outside.old) (O.faults outside.old))
        (told (O.files outside.new) (O.printed outside.new) (O.faults outside.new)) result }
{
    let formats = match read_chain(alloc, outside, formats, chain) {
        Ok(formats) => formats,
        Err(status) => return status,
    };
    let input = match read_input(alloc, outside, Slot::Input, input) {
        Ok(input) => input,
        Err(status) => return status,
    };
    let Ok(lines) = advice_lines(alloc, &formats, input.matrix()) else {
        return Status::Memory;
    };
    finish(outside, &[], Some(&lines))
}

// A line for each format, and the line of the smallest.
fn advice_lines(alloc: Global, formats: &[Format], matrix: &Matrix) -> Result<Vec<u8>, AllocError>
    ensures { IfOk result (λ v. v.items ≡ advice_text matrix.now formats.now) }
{
    let advice = sizes_in(alloc, formats, matrix)?;
    let sizes = advice.sizes.as_slice();
    let mut out = Vec::new(alloc);
    for (k, format) in formats.iter().enumerate() {
        push_format(&mut out, format, sizes[k])?;
    }
    out.extend_from_slice(b"best ")?;
    match advice.best {
        Some(k) => push_format(&mut out, &formats[k], sizes[k])?,
        None => out.extend_from_slice(b"none\n")?,
    }
    Ok(out)
}

// The line of a format: its name and its size.
fn push_format(out: &mut Vec<u8>, format: &Format, size: u64) -> Result<(), AllocError>
    ensures { OnOk result (out.new.items ≡ out.old.items ++ (format.now.name ++ ending size)) }
{
    out.extend_from_slice(format.decl().name.as_str().as_bytes())?;
    push_ending(out, size)
}
