//! The call that does all that the program does.
ghost use Rattle.std.specs.Prelude.{◌≡◌, ◌↔◌, None, IfSome};
ghost use Rattle.us_top.specs.Commands.{texts, command_of};
ghost use Rattle.us_top.specs.Headline.{AllAreReadByGrammar};
ghost use Rattle.us_top.specs.Runs.{IsRun};
ghost use Rattle.us_status.specs.Runs.{told};

use crate::canon::canon;
use crate::check::check;
use crate::command::{Command, command_of};
use crate::compile::compile;
use crate::convert::convert;
use crate::info::info;
use crate::run_code::run_code;
use std::alloc::Global;
use us_generate::generate;
use us_outside::Outside;
use us_parse::library_answers_mean;
use us_products::product;
use us_smallest::{advise, blocks};
use us_status::Status;

/// Does what the words say, over the outside, and answers how it went.
pub fn run<O: Outside>(alloc: Global, words: &[String], outside: &mut O) -> Status
    ensures words { (result ≡ Status.Words) ↔ (command_of (texts words.now) ≡ None) }
    // Words that say no command leave all as it was.
    ensures kept { command_of (texts words.now) ≡ None → (O.files outside.new ≡ O.files outside.old) × (O.printed outside.new ≡ O.printed outside.old) }
    // The answer of a command, its causes, and what stands after it.
    ensures runs { IfSome (command_of (texts words.now)) (λ command. IsRun command
        (told (O.files outside.old) (O.printed outside.old) (O.faults outside.old))
        (told (O.files outside.new) (O.printed outside.new) (O.faults outside.new)) result) }
    // Libraries, units and containers are read as the grammars say.
    ensures grammar { AllAreReadByGrammar }
{
    library_answers_mean();
    us_parse::answers_mean();
    us_code_table::laws::answers_mean();
    match command_of(words) {
        None => Status::Words,
        Some(
            Command::Advise {
                formats,
                input,
                chain,
            },
        ) => advise(alloc, outside, formats, input, chain),
        Some(Command::Blocks { input, output }) => blocks(alloc, outside, input, output),
        Some(Command::Canon { input, output }) => canon(alloc, outside, input, output),
        Some(Command::Check { formats, shape }) => check(alloc, outside, formats, shape),
        Some(
            Command::Convert {
                formats,
                input,
                chain,
                output,
                listing,
            },
        ) => convert(alloc, outside, formats, input, chain, output, listing),
        Some(
            Command::Run {
                code,
                input,
                output,
                budget,
            },
        ) => run_code(alloc, outside, code, input, output, budget),
        Some(Command::Info { input }) => info(alloc, outside, input),
        Some(
            Command::Compile {
                formats,
                shape,
                source,
                target,
                output,
            },
        ) => compile(alloc, outside, formats, shape, source, target, output),
        Some(
            Command::Generate {
                seed,
                count,
                shape,
                chain,
                formats,
            },
        ) => generate(alloc, outside, seed, shape, count, chain, formats),
        Some(
            Command::Product {
                vector,
                formats,
                input,
                chain,
                operand,
                output,
                listing,
            },
        ) => product(
            alloc, outside, vector, formats, input, chain, operand, output, listing,
        ),
    }
}
