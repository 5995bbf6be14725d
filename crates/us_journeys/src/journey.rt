//! The way of a matrix from format to format.
ghost use Rattle.std.specs.Prelude.{◌≡◌, ◌≤◌, ◌++◌, [], ◌∷◌, Err, IfErr, List, Ok, OnOk, length};
ghost use Rattle.us_code.specs.Plain.{program_tree};
ghost use Rattle.us_inputs.specs.Steps.{within_limit};
ghost use Rattle.us_journeys.specs.Hops.{line_of};
ghost use Rattle.us_journeys.specs.Journeys.{GoesOn, IsAlong, IsHopped, ListsMore};
ghost use Rattle.us_status.specs.declared.status.Status.TheVariants.{Memory};
ghost use Rattle.us_unit.specs.Listing.{IsListing};
ghost use Rattle.us_unit.specs.Units.{PlainUnit};
ghost use Rattle.us_status.specs.Answers.{IsStep, IsInnerRefusal};
ghost use Rattle.us_inputs.specs.Views.{contained_of};

use itoa::Buffer;
use std::alloc::{AllocError, Global};
use us_bounds::Verified;
use us_check::Held;
use us_hop::{HopFault, Hopped, hop};
use us_judge::Format;
use us_status::Status;
use us_unit::push_unit;

/// Where a matrix is held, what is to be printed of the hops behind it, and their listing.
#[derive(Drop)]
pub struct Journey {
    pub held: Held,
    pub lines: Vec<u8>,
    pub listing: Vec<u8>,
}

/// What a conversion stores, prints and lists.
#[derive(Drop)]
pub struct Converted {
    pub bytes: Vec<u8>,
    pub lines: Vec<u8>,
    pub listing: Vec<u8>,
}

/// The matrix goes through the formats, each of which has to be within the limit.
pub fn go_along(
    alloc: Global,
    journey: &mut Journey,
    formats: &[Format],
    listed: bool,
) -> Result<(), Status>
    requires few { length formats.now ≤ 64 }
    requires lines { journey.old.lines.items ≡ [] }
    requires listing { journey.old.listing.items ≡ [] }
    ensures along { OnOk result (IsAlong journey.old.held.matrix (contained_of journey.old.held) listed formats.now
        journey.new.held journey.new.lines.items journey.new.listing.items) }
    ensures within { OnOk result (within_limit journey.old.held.matrix 1 formats.now ≡ Ok tt) }
    ensures plain { IfErr result (λ s. IsStep (within_limit journey.old.held.matrix 1 formats.now) (Err s)) }
    ensures refusal { IfErr result IsInnerRefusal }
{
    for (i, format) in formats.iter().enumerate() {
        go_on(alloc, journey, format, i as u32 + 1, listed)?;
    }
    Ok(())
}

// The matrix goes to the k-th format.
fn go_on(
    alloc: Global,
    journey: &mut Journey,
    format: &Format,
    k: u32,
    listed: bool,
) -> Result<(), Status>
    ensures goes { OnOk result (GoesOn listed format.now journey.old.held journey.new.held
        journey.old.lines.items journey.new.lines.items journey.old.listing.items journey.new.listing.items) }
    ensures plain { IfErr result (λ s. IsStep (within_limit journey.old.held.matrix k (format.now ∷ [])) (Err s)) }
    ensures refusal { IfErr result IsInnerRefusal }
{
    match hop(alloc, &journey.held, format) {
        Ok(hopped) => arrive(alloc, journey, format, hopped, listed),
        Err(HopFault::TooLarge) => Err(Status::TooLarge { hop: k }),
        Err(HopFault::Memory) => Err(Status::Memory),
    }
}

// The matrix is held where its hop leads, which is told.
fn arrive(
    alloc: Global,
    journey: &mut Journey,
    format: &Format,
    hopped: Hopped,
    listed: bool,
) -> Result<(), Status>
    requires { IsHopped journey.old.held format.now hopped }
    ensures goes { OnOk result (GoesOn listed format.now journey.old.held journey.new.held
        journey.old.lines.items journey.new.lines.items journey.old.listing.items journey.new.listing.items) }
    ensures memory { IfErr result (λ s. s ≡ Memory) }
{
    let told = tell(alloc, journey, format, &hopped, listed);
    // so the buffers are those of the matrix
    let _ = hopped.held.buffers();
    let Hopped { held, .. } = hopped;
    journey.held = held;
    match told {
        Ok(()) => Ok(()),
        Err(_) => Err(Status::Memory),
    }
}

// The line of a hop, and its unit where it is to be listed.
fn tell(
    alloc: Global,
    journey: &mut Journey,
    format: &Format,
    hopped: &Hopped,
    listed: bool,
) -> Result<(), AllocError>
    ensures lines { OnOk result (journey.new.lines.items ≡ journey.old.lines.items ++ line_of format.now.name hopped.now.size hopped.now.steps) }
    ensures lists { OnOk result (ListsMore listed (record { target = format.now; program = program_tree hopped.now.code })
        journey.old.listing.items journey.new.listing.items) }
    ensures held { journey.new.held ≡ journey.old.held }
{
    push_line(&mut journey.lines, format, hopped.size, hopped.steps)?;
    if !listed {
        return Ok(());
    }
    list(alloc, &mut journey.listing, format, &hopped.code)
}

// The unit of a format and a program that leads to it.
fn list(
    alloc: Global,
    listing: &mut Vec<u8>,
    format: &Format,
    code: &Verified,
) -> Result<(), AllocError>
    ensures { OnOk result ((us : List PlainUnit) → IsListing us listing.old.items
        → IsListing (us ++ (record { target = format.now; program = program_tree code.now } ∷ [])) listing.new.items) }
{
    push_unit(alloc, listing, format.decl(), code.program())
}

// The name of a format, its size, and the steps.
fn push_line(lines: &mut Vec<u8>, format: &Format, size: u64, steps: u64) -> Result<(), AllocError>
    ensures { OnOk result (lines.new.items ≡ lines.old.items ++ line_of format.now.name size steps) }
{
    let mut buffer = Buffer::new();
    lines.extend_from_slice(format.decl().name.as_str().as_bytes())?;
    lines.push(b' ')?;
    lines.extend_from_slice(buffer.format(size).as_bytes())?;
    lines.push(b' ')?;
    lines.extend_from_slice(buffer.format(steps).as_bytes())?;
    lines.push(b'\n')?;
    Ok(())
}
