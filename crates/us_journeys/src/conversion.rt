//! What a conversion stores, prints and lists.
ghost use Rattle.std.specs.Prelude.{◌≡◌, ◌≤◌, Err, IfErr, IfOk, OnOk, Ok, length};
ghost use Rattle.us_container.specs.Bytes.{container_bytes};
ghost use Rattle.us_inputs.specs.Chains.{ends_in_text};
ghost use Rattle.us_inputs.specs.Steps.{map_of, within_limit};
ghost use Rattle.us_journeys.specs.Converting.{written};
ghost use Rattle.us_journeys.specs.Meanings.{IsMeant, LastIsMeant};
ghost use Rattle.us_inputs.specs.Sources.{held_as};
ghost use Rattle.us_journeys.specs.Journeys.{IsAlong, IsConverted, IsInLast, IsMadeOf};
ghost use Rattle.us_inputs.specs.Sources.{held_step};
ghost use Rattle.us_status.specs.Answers.{IsStep, IsInnerRefusal};
ghost use Rattle.us_status.specs.declared.status.Status.TheVariants.{Memory};
ghost use Rattle.us_inputs.specs.Views.{contained_of, input_view};

use crate::journey::{Converted, Journey, go_along};
use crate::read_back::reads_back;
use std::alloc::{AllocError, Global};
use us_check::Held;
use us_container::write_container;
use us_inputs::{Input, ends_in_text, hold};
use us_judge::Format;
use us_mm::write_coordinate;
use us_status::Status;

/// What the chain makes of an input: it is held, goes through the formats, each of which has to be within the limit, and is
/// written in the last one, or as canonical text.
pub fn make(
    alloc: Global,
    chain: &str,
    formats: &[Format],
    input: Input,
    listed: bool,
) -> Result<Converted, Status>
    requires { length formats.now ≤ 64 }
    ensures made { IfOk result (IsMadeOf chain.now listed (record { formats = formats.now; input = input_view input })) }
    ensures within { OnOk result (within_limit (map_of (input_view input)) 1 formats.now ≡ Ok tt) }
    ensures plain { IfErr result (λ s. held_step (input_view input) ≡ Ok (held_as (input_view input))
        → IsStep (within_limit (map_of (input_view input)) 1 formats.now) (Err s)) }
    ensures refusal { IfErr result IsInnerRefusal }
{
    match hold(alloc, input) {
        Ok(held) => convert_held(alloc, chain, formats, held, listed),
        Err(status) => Err(status),
    }
}

/// What the chain makes of a held matrix.
pub fn convert_held(
    alloc: Global,
    chain: &str,
    formats: &[Format],
    held: Held,
    listed: bool,
) -> Result<Converted, Status>
    requires { length formats.now ≤ 64 }
    ensures made { IfOk result (IsConverted chain.now held.matrix (contained_of held) listed formats.now) }
    ensures within { OnOk result (within_limit held.matrix 1 formats.now ≡ Ok tt) }
    ensures plain { IfErr result (λ s. IsStep (within_limit held.matrix 1 formats.now) (Err s)) }
    ensures refusal { IfErr result IsInnerRefusal }
{
    let mut journey = Journey {
        held,
        lines: Vec::new(alloc),
        listing: Vec::new(alloc),
    };
    match go_along(alloc, &mut journey, formats, listed) {
        Ok(()) => finished(alloc, chain, formats, journey),
        Err(status) => Err(status),
    }
}

// What is stored, printed and listed behind the last hop.
fn finished(
    alloc: Global,
    chain: &str,
    formats: &[Format],
    journey: Journey,
) -> Result<Converted, Status>
    requires { IsInLast journey.held.matrix formats.now journey.held }
    ensures bytes { IfOk result (λ made. made.bytes.items ≡ written chain.now formats.now journey.held.matrix) }
    ensures means { IfOk result (λ made. LastIsMeant (ends_in_text chain.now) journey.held.matrix formats.now made.bytes.items) }
    ensures lines { IfOk result (λ made. made.lines.items ≡ journey.lines.items) }
    ensures listing { IfOk result (λ made. made.listing.items ≡ journey.listing.items) }
    ensures memory { IfErr result (λ s. s ≡ Memory) }
{
    let Journey {
        held,
        lines,
        listing,
    } = journey;
    match written(alloc, chain, formats, &held) {
        Ok(bytes) => Ok(Converted {
            bytes,
            lines,
            listing,
        }),
        Err(_) => Err(Status::Memory),
    }
}

// The container in the last format, or the canonical text.
fn written(
    alloc: Global,
    chain: &str,
    formats: &[Format],
    held: &Held,
) -> Result<Vec<u8>, AllocError>
    requires { IsInLast held.now.matrix formats.now held.now }
    ensures bytes { IfOk result (λ v. v.items ≡ written chain.now formats.now held.now.matrix) }
    ensures means { IfOk result (λ v. LastIsMeant (ends_in_text chain.now) held.now.matrix formats.now v.items) }
{
    if ends_in_text(chain) || formats.is_empty() {
        return write_coordinate(alloc, held.matrix());
    }
    container(alloc, held)
}

/// The container of what is held.
pub fn container(alloc: Global, held: &Held) -> Result<Vec<u8>, AllocError>
    ensures bytes { IfOk result (λ v. v.items ≡ container_bytes held.now.declared held.now.matrix.rows held.now.matrix.cols held.now.buffers) }
    ensures means { IfOk result (λ v. IsMeant held.now.matrix held.now.declared v.items) }
{
    reads_back(held);
    // so the buffers mean the matrix
    let _ = held.buffers();
    write_container(alloc, held)
}
