//! The canonical text of a unit.
ghost use Rattle.std.specs.Prelude.{◌≡◌, IfOk, Ok};
ghost use Rattle.us_code.specs.Limits.{KeepsLimits};
ghost use Rattle.us_code.specs.Plain.{program_tree};
ghost use Rattle.us_decl.specs.Declares.{IsValid};
ghost use Rattle.us_decl.specs.Views.{decl_view};
ghost use Rattle.us_unit.specs.Units.{unit_in, unit_text};

use crate::names::program_is_named;
use std::alloc::{AllocError, Global};
use us_code::Program;
use us_code_print::print_program;
use us_decl::Decl;
use us_print::print_decl;

/// The canonical text of a unit: that of its declaration, and behind it that of its program. It reads back.
pub fn print_unit(alloc: Global, target: &Decl, program: &Program) -> Result<Vec<u8>, AllocError>
    requires valid { IsValid (decl_view target.now) }
    requires limits { KeepsLimits (program_tree program.now) }
    ensures text { IfOk result (λ v. v.items ≡ unit_text (decl_view target.now) (program_tree program.now)) }
    ensures reads { IfOk result (λ v. unit_in v.items ≡ Ok (record { target = decl_view target.now; program = program_tree program.now })) }
{
    program_is_named(program);
    let mut text = print_decl(alloc, target)?;
    let code = print_program(alloc, program)?;
    text.extend_from_slice(&code)?;
    Ok(text)
}
