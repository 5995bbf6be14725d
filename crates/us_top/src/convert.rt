//! The command that converts a matrix through a chain of formats.
ghost use Rattle.std.specs.Prelude.{◌≡◌, ◌∷◌, [], Err, IfErr, IfOk, IfSome, None, true};
ghost use Rattle.std.specs.Option.{option_map};
ghost use Rattle.us_outside.specs.Causes.{NeverFell};
ghost use Rattle.us_status.specs.declared.status.Slot.TheVariants.{Formats, Input};
ghost use Rattle.us_top.specs.Tasks.{convert_task};
ghost use Rattle.us_inputs.specs.Chains.{is_chain};
ghost use Rattle.us_status.specs.Uses.{reads};
ghost use Rattle.us_inputs.specs.Chained.{chained_in};
ghost use Rattle.us_status.specs.Answers.{IsAnswer, IsStep, IsRefusal};
ghost use Rattle.us_journeys.specs.Journeys.{IsConversionOf};
ghost use Rattle.us_status.specs.Runs.{IsRunOf, plain_status, told};

use std::alloc::Global;
use us_inputs::{read_chain, read_input};
use us_journeys::{Converted, make};
use us_outside::Outside;
use us_status::{Slot, Status, Store, finish};
use us_unit::listings_read_back;

/// Stores the container of the input's matrix in the last format of the chain, or its canonical text, and behind it the
/// listing of the programs that lead there, if one is wanted, and prints the size of each format and the steps to it.
pub fn convert<'a, O: Outside>(
    alloc: Global,
    outside: &mut O,
    formats: &str,
    input: &str,
    chain: &str,
    output: &'a str,
    listing: Option<&'a str>,
) -> Status
    requires { is_chain chain.now ≡ true }
    ensures { IsRunOf (convert_task formats.now input.now chain.now output.now (option_map (λ l. l.now) listing.entry))
        (told (O.files outside.old) (O.printed outside.old) (O.faults outside.old))
        (told (O.files outside.new) (O.printed outside.new) (O.faults outside.new)) result }
{
    listings_read_back();
    match prepare(alloc, outside, formats, input, chain, listing.is_some()) {
        Ok(made) => match listing {
            None => finish(
                outside,
                &[Store::output(output, &made.bytes)],
                Some(&made.lines),
            ),
            Some(name) => finish(
                outside,
                &[
                    Store::output(output, &made.bytes),
                    Store::listing(name, &made.listing),
                ],
                Some(&made.lines),
            ),
        },
        Err(status) => status,
    }
}

// What is stored, printed and listed: the formats of the chain are found and judged, then the input is read, then all is made.
fn prepare<O: Outside>(
    alloc: Global,
    outside: &mut O,
    formats: &str,
    input: &str,
    chain: &str,
    listed: bool,
) -> Result<Converted, Status>
    requires { is_chain chain.now ≡ true }
    ensures made { IfOk result (IsConversionOf formats.now input.now chain.now listed (O.files outside.old)) }
    ensures plain { IfErr result (λ s. IfSome (O.files outside.old) (λ fs. IsStep (chained_in formats.now input.now chain.now fs) (Err s))) }
    ensures answer { IfErr result (λ s. IfSome (O.files outside.old) (λ fs.
        IsAnswer ((convert_task formats.now input.now chain.now [] None).reached fs) (plain_status (convert_task formats.now input.now chain.now [] None) fs) s)) }
    ensures refusal { IfErr result (IsRefusal (reads Formats formats.now ∷ reads Input input.now ∷ []) (O.faults outside.old) (O.faults outside.new)) }
    ensures files { O.files outside.new ≡ O.files outside.old }
    ensures printed { O.printed outside.new ≡ O.printed outside.old }
    ensures later { NeverFell (O.faults outside.old) (O.faults outside.new) }
{
    let formats = read_chain(alloc, outside, formats, chain)?;
    let input = read_input(alloc, outside, Slot::Input, input)?;
    make(alloc, chain, &formats, input, listed)
}
