//! Programs that keep the rules.

ghost use Rattle.std.specs.Prelude.{◌≡◌};
ghost use Rattle.us_code.specs.Plain.{program_tree};
ghost use Rattle.us_code.specs.Limits.{KeepsLimits};
ghost use Rattle.us_code.specs.Typing.{TypedProgram};

use std::marker::Model;
use us_code::Program;

/// A program that keeps the rules and the limits. Contracts see it as the program. `verify` alone makes one.
#[derive(Drop)]
pub struct Verified {
    program: Program,
}

impl Model for Verified {
    ghost use Rattle.std.specs.Coded.{codes};
    ghost use Rattle.us_code.specs.contracts.program.Stmt as stmt;
    ghost use Rattle.us_code.specs.contracts.program.Term as term;
    ghost use Rattle.us_code.specs.declared.program.Program.{Program};
    ghost use Rattle.us_code.specs.Plain.{program_tree};
    ghost use Rattle.us_code.specs.Limits.{KeepsLimits};
    ghost use Rattle.us_code.specs.Typing.{TypedProgram};

    ghost Value = { Program };

    ghost coded = { Prim.hlevel (codes, stmt.the_row.coded, term.the_row.coded) };

    ghost view = { λ v. v.program };

    ghost invariant = { λ v. TypedProgram (program_tree v.program) × KeepsLimits (program_tree v.program) };
}

impl Verified {
    /// The verified program.
    pub(crate) fn new(program: Program) -> Verified
        requires typed { TypedProgram (program_tree program) }
        requires limits { KeepsLimits (program_tree program) }
        ensures { result ≡ program }
    {
        Verified { program }
    }

    /// The program. Each of its items keeps the rules, and its text the limits.
    pub fn program(&self) -> &Program
        ensures same { result.now ≡ self.now }
        ensures typed { TypedProgram (program_tree self.now) }
        ensures limits { KeepsLimits (program_tree self.now) }
    {
        &self.program
    }
}
