//! The code of `run`: a target, and a verified program for it.
ghost use Rattle.std.specs.Prelude.{◌≡◌, ◌∷◌, [], IfErr, IfSome, Ok};
ghost use Rattle.us_outside.specs.Causes.{NeverFell};
ghost use Rattle.us_outside.specs.Files.{content_of};
ghost use Rattle.us_code.specs.Limits.{KeepsLimits};
ghost use Rattle.us_code.specs.Plain.{program_tree};
ghost use Rattle.us_code.specs.Unbound.{first_unbound};
ghost use Rattle.us_decl.specs.Declares.{IsValid};
ghost use Rattle.us_decl.specs.Views.{decl_view};
ghost use Rattle.us_unit.specs.Units.{unit_view};
ghost use Rattle.us_status.specs.Uses.{reads};
ghost use Rattle.us_inputs.specs.Steps.{of_file};
ghost use Rattle.us_status.specs.Answers.{then_step};
ghost use Rattle.us_top.specs.Running.{fit_unit, unit_of, verified};
ghost use Rattle.us_status.specs.Answers.{IsStep, IsRefusal, IsInnerRefusal, code_refusal_of, target_refusal_of, verify_refusal_of};
ghost use Rattle.us_top.specs.Views.{target_of};

use std::alloc::Global;
use us_bounds::{Verified, VerifyFault, verify};
use us_code::Program;
use us_code_laws::unbound_means_untyped;
use us_code_reader::CodeFault;
use us_inputs::load_file;
use us_judge::{Format, JudgeFault, judge};
use us_outside::Outside;
use us_status::{Slot, Status};
use us_unit::{OneUnit, parse_unit};

/// A target, and a verified program for it.
#[derive(Drop)]
pub struct Target {
    pub format: Format,
    pub code: Verified,
}

/// The unit in the file of a slot: it is read, its target is judged, its program is verified.
pub fn read_target<O: Outside>(
    alloc: Global,
    outside: &mut O,
    slot: Slot,
    name: &str,
) -> Result<Target, Status>
    ensures plain { IfSome (O.files outside.old) (λ fs. IsStep (of_file slot (content_of fs name.now) (unit_of (content_of fs name.now))) (target_of result)) }
    ensures refusal { IfErr result (IsRefusal (reads slot name.now ∷ []) (O.faults outside.old) (O.faults outside.new)) }
    ensures files { O.files outside.new ≡ O.files outside.old }
    ensures printed { O.printed outside.new ≡ O.printed outside.old }
    ensures later { NeverFell (O.faults outside.old) (O.faults outside.new) }
{
    let bytes = load_file(alloc, outside, slot, name)?;
    target_in(alloc, &bytes)
}

// The unit that the bytes are.
fn target_in(alloc: Global, bytes: &[u8]) -> Result<Target, Status>
    ensures plain { IsStep (unit_of bytes.now) (target_of result) }
    ensures refusal { IfErr result IsInnerRefusal }
{
    match parse_unit(alloc, bytes) {
        Ok(unit) => judge_unit(alloc, unit),
        Err(fault) => Err(code_refusal(fault)),
    }
}

// A unit that was read: its target is judged, then its program is verified.
fn judge_unit(alloc: Global, unit: OneUnit) -> Result<Target, Status>
    requires valid { IsValid (decl_view unit.target) }
    requires limits { KeepsLimits (program_tree unit.program) }
    ensures plain { IsStep (fit_unit (unit_view unit)) (target_of result) }
    ensures refusal { IfErr result IsInnerRefusal }
{
    let OneUnit { target, program } = unit;
    match judge(alloc, target) {
        Ok(format) => verify_for(alloc, format, program),
        Err(fault) => Err(target_refusal(fault)),
    }
}

// The program of an accepted target is verified.
fn verify_for(alloc: Global, format: Format, program: Program) -> Result<Target, Status>
    requires { KeepsLimits (program_tree program) }
    ensures plain { IsStep (then_step (verified (first_unbound (program_tree program))) (λ _. Ok (record { target = format; program = program_tree program })))
        (target_of result) }
    ensures refusal { IfErr result IsInnerRefusal }
{
    unbound_means_untyped();
    match verify(alloc, program) {
        Ok(code) => Ok(Target { format, code }),
        Err(fault) => Err(verify_refusal(fault)),
    }
}

// The answer to a file that isn't a unit.
fn code_refusal(fault: CodeFault) -> Status
    ensures { result ≡ code_refusal_of fault }
{
    match fault {
        CodeFault::Memory => Status::Memory,
        fault => Status::Code(fault),
    }
}

// The answer to a target that is not accepted.
fn target_refusal(fault: JudgeFault) -> Status
    ensures { result ≡ target_refusal_of fault }
{
    match fault {
        JudgeFault::Refused(why) => Status::Refused { k: 1, why },
        JudgeFault::Memory => Status::Memory,
    }
}

// The answer to a program that breaks a rule.
fn verify_refusal(fault: VerifyFault) -> Status
    ensures { result ≡ verify_refusal_of fault }
{
    match fault {
        VerifyFault::Unbound(unbound) => Status::Unbound(unbound),
        VerifyFault::Memory => Status::Memory,
    }
}
