//! What loop code makes of sources.
ghost use Rattle.std.specs.Prelude.{◌≡◌, ◌∷◌, ◌++◌, [], IfErr, IfOk, codes};
ghost use Rattle.us_matrix.specs.Map.{IsSide};
ghost use Rattle.us_format.specs.Program.{plain_shape};
ghost use Rattle.us_code.specs.Plain.{program_tree};
ghost use Rattle.us_container.specs.Bytes.{container_bytes};
ghost use Rattle.us_status.specs.declared.status.Status.TheVariants.{Memory};
ghost use Rattle.us_top.specs.Running.{container_step, ran_step, result_step, run_step, steps_line};
ghost use Rattle.us_status.specs.Answers.{IsStep, IsInnerRefusal, broken_refusal_of};
ghost use Rattle.us_inputs.specs.Views.{bytes_of, contained_of};
ghost use Rattle.us_top.specs.Views.{made_of, ran_of, ran_view, target_view};

use crate::target::Target;
use itoa::Buffer;
use std::alloc::{AllocError, Global};
use us_bounds::Verified;
use us_check::{Broken, Held, check};
use us_container::write_container;
use us_judge::Format;
use us_machine::{Ran, RunStop, run};
use us_matrix::{Buffers, Shape};
use us_status::Status;

/// The bytes that are stored, and the lines that are printed.
#[derive(Drop)]
pub struct Made {
    pub bytes: Vec<u8>,
    pub lines: Vec<u8>,
}

/// The container of what the program makes of the sources, in the target and of their shape, and the line of its steps.
pub fn result_of(alloc: Global, target: Target, source: &Held, budget: u64) -> Result<Made, Status>
    ensures plain { IsStep (ran_step budget (target_view target) (contained_of source.now)) (made_of result) }
    ensures refusal { IfErr result IsInnerRefusal }
{
    let shape = source.matrix().shape();
    match run_on(alloc, &target.code, source, budget) {
        Ok(ran) => put_together(alloc, target.format, shape, ran),
        Err(status) => Err(status),
    }
}

// What the program gives for the buffers of the sources.
fn run_on(alloc: Global, code: &Verified, source: &Held, budget: u64) -> Result<Ran, Status>
    ensures plain { IsStep (run_step budget (program_tree code.now) source.now.buffers) (ran_of result) }
    ensures refusal { IfErr result IsInnerRefusal }
{
    let buffers = source.buffers();
    let want = u64::from(code.program().sources);
    let have = buffers.count() as u64;
    if want != have {
        return Err(Status::Sources { want, have });
    }
    match run(alloc, code, buffers, Some(budget)) {
        Ok(ran) => Ok(ran),
        Err(RunStop::TooLarge) => Err(Status::TooLarge { hop: 1 }),
        Err(RunStop::OutOfSteps) => Err(Status::OutOfSteps { budget }),
        Err(RunStop::Memory) => Err(Status::Memory),
    }
}

// The container of what a run gave, and the line of its steps.
fn put_together(alloc: Global, format: Format, shape: Shape, ran: Ran) -> Result<Made, Status>
    requires rows { IsSide shape.rows }
    requires cols { IsSide shape.cols }
    ensures plain { IsStep (result_step format (plain_shape shape) (ran_view ran)) (made_of result) }
    ensures refusal { IfErr result IsInnerRefusal }
{
    let Ran { buffers, steps } = ran;
    let bytes = container(alloc, format, shape, buffers)?;
    let lines = steps_line(alloc, steps)?;
    Ok(Made { bytes, lines })
}

// The container of buffers, if they are well-formed.
fn container(
    alloc: Global,
    format: Format,
    shape: Shape,
    buffers: Buffers,
) -> Result<Vec<u8>, Status>
    requires rows { IsSide shape.rows }
    requires cols { IsSide shape.cols }
    ensures plain { IsStep (container_step format (plain_shape shape) buffers) (bytes_of result) }
    ensures refusal { IfErr result IsInnerRefusal }
{
    let held = match check(alloc, format, shape, buffers) {
        Ok(held) => held,
        Err(why) => return Err(broken_refusal(why)),
    };
    written(alloc, &held)
}

// The container of what is held.
fn written(alloc: Global, held: &Held) -> Result<Vec<u8>, Status>
    ensures bytes { IfOk result (λ v. v.items ≡ container_bytes held.now.declared held.now.matrix.rows held.now.matrix.cols held.now.buffers) }
    ensures memory { IfErr result (λ answer. answer ≡ Memory) }
{
    match write_container(alloc, held) {
        Ok(bytes) => Ok(bytes),
        Err(_) => Err(Status::Memory),
    }
}

// The answer to buffers that are not well-formed.
fn broken_refusal(why: Broken) -> Status
    ensures { result ≡ broken_refusal_of why }
{
    match why {
        Broken::Memory => Status::Memory,
        why => Status::NotWellFormed(why),
    }
}

// `steps`, and how many there were.
fn steps_line(alloc: Global, steps: u64) -> Result<Vec<u8>, AllocError>
    ensures { IfOk result (λ v. v.items ≡ steps_line steps) }
{
    let mut buffer = Buffer::new();
    let mut line = Vec::from_slice(alloc, b"steps ")?;
    line.extend_from_slice(buffer.format(steps).as_bytes())?;
    line.push(b'\n')?;
    Ok(line)
}
