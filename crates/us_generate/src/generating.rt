//! The command that converts a generated matrix.
ghost use Rattle.std.specs.Prelude.{◌≡◌, ◌≤◌, ◌++◌, Err, IfErr, IfOk, Ok, OnOk, length, true};
ghost use Rattle.us_format.specs.Program.{plain_shape};
ghost use Rattle.us_matrix.specs.Map.{IsSide};
ghost use Rattle.us_sample.specs.Numbers.{sample_of};
ghost use Rattle.us_sample.specs.Totals.{line_of};
ghost use Rattle.us_status.specs.Answers.{IsInnerRefusal, IsStep};
ghost use Rattle.us_status.specs.Runs.{IsRunOf, told};
ghost use Rattle.us_status.specs.declared.status.Status.TheVariants.{Memory};
ghost use Rattle.us_inputs.specs.Chains.{is_chain};
ghost use Rattle.us_inputs.specs.Sources.{held_as};
ghost use Rattle.us_inputs.specs.Steps.{OfFile, within_limit};
ghost use Rattle.us_inputs.specs.Views.{contained_of};
ghost use Rattle.us_generate.specs.Generating.{IsTold, generate_task};

use std::alloc::{AllocError, Global};
use us_check::Held;
use us_inputs::{Input, hold, read_chain};
use us_journeys::{Journey, go_along};
use us_judge::Format;
use us_matrix::Shape;
use us_outside::Outside;
use us_sample::{last_line, sample};
use us_status::{Status, finish};

/// Makes the matrix of a seed, of so many triples, converts it through the chain, and prints the size of each format and the
/// steps to it, and of the matrix its rows, columns, number of entries and the sum of its values.
pub fn generate<O: Outside>(
    alloc: Global,
    outside: &mut O,
    seed: u64,
    shape: Shape,
    count: u32,
    chain: &str,
    formats: &str,
) -> Status
    requires rows { IsSide shape.rows }
    requires cols { IsSide shape.cols }
    requires count { count ≤ 8388608 }
    requires chain { is_chain chain.now ≡ true }
    ensures { IsRunOf (generate_task seed (plain_shape shape) count chain.now formats.now)
        (told (O.files outside.old) (O.printed outside.old) (O.faults outside.old))
        (told (O.files outside.new) (O.printed outside.new) (O.faults outside.new)) result }
{
    let formats = match read_chain(alloc, outside, formats, chain) {
        Ok(formats) => formats,
        Err(status) => return status,
    };
    match lines_of(alloc, seed, shape, count, &formats) {
        Ok(lines) => finish(outside, &[], Some(&lines)),
        Err(status) => status,
    }
}

// The lines of a generated matrix.
fn lines_of(
    alloc: Global,
    seed: u64,
    shape: Shape,
    count: u32,
    formats: &[Format],
) -> Result<Vec<u8>, Status>
    requires rows { IsSide shape.rows }
    requires cols { IsSide shape.cols }
    requires count { count ≤ 8388608 }
    requires formats { length formats.now ≤ 64 }
    ensures made { IfOk result (λ v. IsTold (sample_of seed shape.rows shape.cols count) formats.now v.items) }
    ensures within { OnOk result (within_limit (sample_of seed shape.rows shape.cols count) 1 formats.now ≡ Ok tt) }
    ensures plain { IfErr result (λ s. IsStep (within_limit (sample_of seed shape.rows shape.cols count) 1 formats.now) (Err s)) }
    ensures refusal { IfErr result IsInnerRefusal }
{
    let Ok(matrix) = sample(alloc, seed, shape, count) else {
        return Err(Status::Memory);
    };
    let Ok(last) = last_line(alloc, &matrix) else {
        return Err(Status::Memory);
    };
    match hold(alloc, Input::File(matrix)) {
        Ok(held) => lines_along(alloc, held, formats, &last),
        Err(status) => Err(status),
    }
}

// The lines of a held matrix that goes through formats, and a last line.
fn lines_along(
    alloc: Global,
    held: Held,
    formats: &[Format],
    last: &[u8],
) -> Result<Vec<u8>, Status>
    requires formats { length formats.now ≤ 64 }
    requires held { contained_of held ≡ held_as (OfFile held.matrix) }
    requires last { last.now ≡ line_of held.matrix }
    ensures made { IfOk result (λ v. IsTold held.matrix formats.now v.items) }
    ensures within { OnOk result (within_limit held.matrix 1 formats.now ≡ Ok tt) }
    ensures plain { IfErr result (λ s. IsStep (within_limit held.matrix 1 formats.now) (Err s)) }
    ensures refusal { IfErr result IsInnerRefusal }
{
    let mut journey = Journey {
        held,
        lines: Vec::new(alloc),
        listing: Vec::new(alloc),
    };
    match go_along(alloc, &mut journey, formats, false) {
        Ok(()) => with_last(journey, last),
        Err(status) => Err(status),
    }
}

// The lines of a journey, and a last line.
fn with_last(journey: Journey, last: &[u8]) -> Result<Vec<u8>, Status>
    ensures lines { IfOk result (λ v. v.items ≡ journey.lines.items ++ last.now) }
    ensures memory { IfErr result (λ s. s ≡ Memory) }
{
    let Journey { mut lines, .. } = journey;
    match lines.extend_from_slice(last) {
        Ok(()) => Ok(lines),
        Err(_) => Err(Status::Memory),
    }
}
