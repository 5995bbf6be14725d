//! The commands that multiply a matrix by a dense operand.
ghost use Rattle.std.specs.Prelude.{◌≡◌, ◌∷◌, [], Err, IfErr, IfOk, IfSome, None, true};
ghost use Rattle.std.specs.Option.{option_map};
ghost use Rattle.us_outside.specs.Causes.{NeverFell};
ghost use Rattle.us_status.specs.declared.status.Slot.TheVariants.{Formats, Input, Operand};
ghost use Rattle.us_status.specs.Answers.{IsAnswer, IsRefusal, IsStep};
ghost use Rattle.us_status.specs.Runs.{IsRunOf, plain_status, told};
ghost use Rattle.us_status.specs.Uses.{reads};
ghost use Rattle.us_inputs.specs.Chains.{is_chain};
ghost use Rattle.us_products.specs.Factors.{factors_in};
ghost use Rattle.us_products.specs.Tasks.{product_task};
ghost use Rattle.us_products.specs.Views.{IsProductOf};

use crate::multiplying::{Multiplied, multiply_input};
use crate::operand::read_operand;
use std::alloc::Global;
use us_dense_unit::dense_listings_read_back;
use us_inputs::{read_chain, read_input};
use us_mm::array_text_reads;
use us_outside::Outside;
use us_status::{Slot, Status, Store, finish};

/// Stores the product of the input's matrix, in the last format of the chain, and the operand, modulo 2^64, as an array file,
/// and behind it the listing of the programs that made it, if one is wanted, and prints the size of each format and the steps
/// to it, and the cells of the product and the steps of its kernel. Where `vector` is true the operand has one column.
pub fn product<'a, O: Outside>(
    alloc: Global,
    outside: &mut O,
    vector: bool,
    formats: &str,
    input: &str,
    chain: &str,
    operand: &str,
    output: &'a str,
    listing: Option<&'a str>,
) -> Status
    requires { is_chain chain.now ≡ true }
    ensures { IsRunOf (product_task vector formats.now input.now chain.now operand.now output.now (option_map (λ l. l.now) listing.entry))
        (told (O.files outside.old) (O.printed outside.old) (O.faults outside.old))
        (told (O.files outside.new) (O.printed outside.new) (O.faults outside.new)) result }
{
    array_text_reads();
    dense_listings_read_back();
    let listed = listing.is_some();
    match prepare(
        alloc, outside, vector, formats, input, chain, operand, listed,
    ) {
        Ok(made) => match listing {
            None => finish(
                outside,
                &[Store::output(output, &made.bytes)],
                Some(&made.lines),
            ),
            Some(name) => finish(
                outside,
                &[
                    Store::output(output, &made.bytes),
                    Store::listing(name, &made.listing),
                ],
                Some(&made.lines),
            ),
        },
        Err(status) => status,
    }
}

// What is stored, printed and listed: the formats of the chain are found and judged, then the input is read, then the
// operand, then all is made.
fn prepare<O: Outside>(
    alloc: Global,
    outside: &mut O,
    vector: bool,
    formats: &str,
    input: &str,
    chain: &str,
    operand: &str,
    listed: bool,
) -> Result<Multiplied, Status>
    requires { is_chain chain.now ≡ true }
    ensures made { IfOk result (IsProductOf vector formats.now input.now chain.now operand.now listed (O.files outside.old)) }
    ensures answer { IfErr result (λ s. IfSome (O.files outside.old) (λ fs.
        IsAnswer ((product_task vector formats.now input.now chain.now operand.now [] None).reached fs)
        (plain_status (product_task vector formats.now input.now chain.now operand.now [] None) fs) s)) }
    ensures refusal { IfErr result (IsRefusal (reads Formats formats.now ∷ reads Input input.now ∷ reads Operand operand.now ∷ [])
        (O.faults outside.old) (O.faults outside.new)) }
    ensures files { O.files outside.new ≡ O.files outside.old }
    ensures printed { O.printed outside.new ≡ O.printed outside.old }
    ensures later { NeverFell (O.faults outside.old) (O.faults outside.new) }
{
    let formats = read_chain(alloc, outside, formats, chain)?;
    let input = read_input(alloc, outside, Slot::Input, input)?;
    let x = read_operand(alloc, outside, operand)?;
    multiply_input(alloc, &formats, input, &x, vector, listed)
}
