//! Phases and whole programs.

ghost use Rattle.std.specs.Prelude.{◌≡◌, ◌++◌, OnOk, IfOk, map};
ghost use Rattle.std.specs.List.{flat_map};
ghost use Rattle.us_code.specs.Plain.{tree_of, line_tree, phase_tree, program_tree};
ghost use Rattle.us_code_print.specs.Canon.{make_line, dim_line, do_lines, phase_lines, give_line, code_line, code_text};

use crate::blocks::push_block;
use crate::lines::{push_dim_line, push_make};
use crate::words::{push_new_bufs, push_number};
use std::alloc::{AllocError, Global};
use us_code::{Block, DimLine, Make, Phase, Program};

/// The canonical text of a program.
pub fn print_program(alloc: Global, program: &Program) -> Result<Vec<u8>, AllocError>
    ensures { IfOk result (λ text. text.items ≡ code_text (program_tree program.now)) }
{
    let mut out = Vec::new(alloc);
    push_head(&mut out, program.sources)?;
    push_phases(&mut out, program.phases.as_slice())?;
    push_give(&mut out, program.give.as_slice())?;
    out.extend_from_slice(b"}\n")?;
    Ok(out)
}

/// The first line.
fn push_head(out: &mut Vec<u8>, sources: u32) -> Result<(), AllocError>
    ensures { OnOk result (out.new.items ≡ out.old.items ++ code_line sources) }
{
    out.extend_from_slice(b"code ")?;
    push_number(out, sources as u64)?;
    out.extend_from_slice(b" {\n")
}

/// The line of what the program gives.
fn push_give(out: &mut Vec<u8>, numbers: &[u32]) -> Result<(), AllocError>
    ensures { OnOk result (out.new.items ≡ out.old.items ++ give_line numbers.now) }
{
    if numbers.is_empty() {
        return out.extend_from_slice(b"  give\n");
    }
    out.extend_from_slice(b"  give ")?;
    push_new_bufs(out, numbers)?;
    out.extend_from_slice(b"\n")
}

fn push_phases(out: &mut Vec<u8>, phases: &[Phase]) -> Result<(), AllocError>
    ensures { OnOk result (out.new.items ≡ out.old.items ++ flat_map phase_lines (map phase_tree phases.now)) }
{
    for phase in phases {
        push_phase(out, phase)?;
    }
    Ok(())
}

fn push_phase(out: &mut Vec<u8>, phase: &Phase) -> Result<(), AllocError>
    ensures { OnOk result (out.new.items ≡ out.old.items ++ phase_lines (phase_tree phase.now)) }
{
    out.extend_from_slice(b"  phase {\n")?;
    push_makes(out, phase.makes.as_slice())?;
    push_do(out, &phase.body)?;
    push_dim_lines(out, phase.dims.as_slice())?;
    out.extend_from_slice(b"  }\n")
}

fn push_makes(out: &mut Vec<u8>, makes: &[Make]) -> Result<(), AllocError>
    ensures { OnOk result (out.new.items ≡ out.old.items ++ flat_map make_line makes.now) }
{
    for make in makes {
        push_make(out, make)?;
    }
    Ok(())
}

fn push_do(out: &mut Vec<u8>, body: &Block) -> Result<(), AllocError>
    ensures { OnOk result (out.new.items ≡ out.old.items ++ do_lines (tree_of body.now)) }
{
    out.extend_from_slice(b"    do {\n")?;
    push_block(out, 3, body)?;
    out.extend_from_slice(b"    }\n")
}

fn push_dim_lines(out: &mut Vec<u8>, lines: &[DimLine]) -> Result<(), AllocError>
    ensures { OnOk result (out.new.items ≡ out.old.items ++ flat_map dim_line (map line_tree lines.now)) }
{
    for line in lines {
        push_dim_line(out, line)?;
    }
    Ok(())
}
