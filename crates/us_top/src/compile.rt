//! The command that compiles a pair of formats.
ghost use Rattle.std.specs.Prelude.{◌≡◌, ◌∷◌, [], IfErr, IfOk, IfSome, length};
ghost use Rattle.us_matrix.specs.Map.{IsSide};
ghost use Rattle.us_outside.specs.Causes.{NeverFell};
ghost use Rattle.us_outside.specs.Files.{content_of};
ghost use Rattle.us_status.specs.declared.status.Slot.TheVariants.{Formats};
ghost use Rattle.us_status.specs.Answers.{IsInnerRefusal, IsRefusal, IsStep};
ghost use Rattle.us_top.specs.Tasks.{compile_task};
ghost use Rattle.us_status.specs.Uses.{reads};
ghost use Rattle.us_top.specs.Compiling.{IsUnitOfPair, pair_in};
ghost use Rattle.us_status.specs.Runs.{IsRunOf, told};
ghost use Rattle.us_inputs.specs.Views.{formats_of};
ghost use Rattle.us_top.specs.Views.{shape_view};

use std::alloc::{AllocError, Global};
use us_convert::compile as program_of;
use us_inputs::read_formats;
use us_judge::Format;
use us_matrix::Shape;
use us_outside::Outside;
use us_status::{Status, Store, finish};
use us_unit::print_unit;

/// Stores a unit: the declaration of the target, and a program that converts each matrix of the shape from the source to it.
pub fn compile<O: Outside>(
    alloc: Global,
    outside: &mut O,
    formats: &str,
    shape: Shape,
    source: &str,
    target: &str,
    output: &str,
) -> Status
    requires rows { IsSide shape.rows }
    requires cols { IsSide shape.cols }
    ensures { IsRunOf (compile_task formats.now (shape_view shape) source.now target.now output.now)
        (told (O.files outside.old) (O.printed outside.old) (O.faults outside.old))
        (told (O.files outside.new) (O.printed outside.new) (O.faults outside.new)) result }
{
    let pair = match read_pair(alloc, outside, formats, source, target) {
        Ok(pair) => pair,
        Err(status) => return status,
    };
    let Ok(unit) = unit_of(alloc, &pair, shape) else {
        return Status::Memory;
    };
    finish(outside, &[Store::output(output, &unit)], None)
}

// The two formats, by the library in a file.
fn read_pair<O: Outside>(
    alloc: Global,
    outside: &mut O,
    formats: &str,
    source: &str,
    target: &str,
) -> Result<Vec<Format>, Status>
    ensures plain { IfSome (O.files outside.old) (λ fs. IsStep (pair_in (content_of fs formats.now) source.now target.now) (formats_of result)) }
    ensures count { IfOk result (λ v. length v.items ≡ 2) }
    ensures refusal { IfErr result (IsRefusal (reads Formats formats.now ∷ []) (O.faults outside.old) (O.faults outside.new)) }
    ensures files { O.files outside.new ≡ O.files outside.old }
    ensures printed { O.printed outside.new ≡ O.printed outside.old }
    ensures later { NeverFell (O.faults outside.old) (O.faults outside.new) }
{
    read_formats(alloc, outside, formats, &[source, target])
}

// The unit of a source and a target.
fn unit_of(alloc: Global, pair: &[Format], shape: Shape) -> Result<Vec<u8>, AllocError>
    requires pair { length pair.now ≡ 2 }
    requires rows { IsSide shape.rows }
    requires cols { IsSide shape.cols }
    ensures { IfOk result (λ v. IsUnitOfPair pair.now (shape_view shape) v.items) }
{
    let [from, to] = pair else { unreachable!() };
    let program = program_of(alloc, from, to, shape)?;
    print_unit(alloc, to.decl(), program.program())
}
