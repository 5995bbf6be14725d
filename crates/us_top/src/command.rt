//! The words of the command line.
ghost use Rattle.std.specs.Prelude.{◌≡◌, ◌<◌, ◌≤◌, ◌^◌, Some, None, IfSome, MatchOption, true};
ghost use Rattle.std.specs.Option.{option_map};
ghost use Rattle.us_matrix.specs.Map.{IsSide};
ghost use Rattle.us_top.specs.Commands.{texts, command_of, canon_of, check_of, compile_of, convert_of, listing_of, run_of, info_of, product_of, advise_of, blocks_of, names_formats, generate_of, seed_of, count_of, side_of, budget_of};
ghost use Rattle.us_inputs.specs.Chains.{is_chain};
ghost use Rattle.us_top.specs.Views.{Says};

use us_inputs::{ends_in_text, is_chain, is_name};
use us_matrix::Shape;
use us_mm::number_of;

/// What the words of a command line ask for.
#[derive(Clone, Copy)]
pub enum Command<'a> {
    /// Compare the sizes of a matrix in formats of a library.
    Advise {
        formats: &'a str,
        input: &'a str,
        chain: &'a str,
    },
    /// Find the blocks in which a matrix is smallest, and keep their declaration.
    Blocks {
        input: &'a str,
        output: &'a str,
    },
    /// Write a matrix file anew, in canonical text.
    Canon {
        input: &'a str,
        output: &'a str,
    },
    /// Say of each declaration of a library whether it is accepted, for matrices of a shape.
    Check {
        formats: &'a str,
        shape: Shape,
    },
    /// Convert a matrix through a chain of formats of a library, keep it in the last one, and list the programs that lead
    /// there, if a listing is wanted.
    Convert {
        formats: &'a str,
        input: &'a str,
        chain: &'a str,
        output: &'a str,
        listing: Option<&'a str>,
    },
    /// Run a unit of loop code on the buffers of a container, in at most so many steps.
    Run {
        code: &'a str,
        input: &'a str,
        output: &'a str,
        budget: u64,
    },
    /// Say what a file is.
    Info {
        input: &'a str,
    },
    /// Make the program that converts matrices of a shape from one format of a library to another.
    Compile {
        formats: &'a str,
        shape: Shape,
        source: &'a str,
        target: &'a str,
        output: &'a str,
    },
    /// Make the matrix of a seed, of so many triples, and convert it through a chain of formats of a library.
    Generate {
        seed: u64,
        count: u32,
        shape: Shape,
        chain: &'a str,
        formats: &'a str,
    },
    /// Multiply a matrix, in the last of a chain of formats of a library, by a dense operand, which is a vector or has any number
    /// of columns, and list the programs that made the product, if a listing is wanted.
    Product {
        vector: bool,
        formats: &'a str,
        input: &'a str,
        chain: &'a str,
        operand: &'a str,
        output: &'a str,
        listing: Option<&'a str>,
    },
}

/// The command that the words say, where they say one: its name, and its words behind it.
pub fn command_of(words: &[String]) -> Option<Command<'_>>
    ensures { Says result (command_of (texts words.now)) }
{
    let (name, words) = words.split_first()?;
    match name.as_str() {
        "advise" => advise_of(words),
        "blocks" => blocks_of(words),
        "canon" => canon_of(words),
        "check" => check_of(words),
        "convert" => convert_of(words),
        "run" => run_of(words),
        "info" => info_of(words),
        "compile" => compile_of(words),
        "generate" => generate_of(words),
        "spmv" => product_of(true, words),
        "spmm" => product_of(false, words),
        _ => None,
    }
}

fn canon_of(words: &[String]) -> Option<Command<'_>>
    ensures { Says result (canon_of (texts words.now)) }
{
    let [input, output] = words else {
        return None;
    };
    Some(Command::Canon {
        input: input.as_str(),
        output: output.as_str(),
    })
}

fn check_of(words: &[String]) -> Option<Command<'_>>
    ensures { Says result (check_of (texts words.now)) }
{
    let [formats, rows, cols] = words else {
        return None;
    };
    let rows = side(rows.as_str())?;
    let cols = side(cols.as_str())?;
    Some(Command::Check {
        formats: formats.as_str(),
        shape: Shape { rows, cols },
    })
}

fn convert_of(words: &[String]) -> Option<Command<'_>>
    ensures { Says result (convert_of (texts words.now)) }
{
    let [formats, input, chain, output, listing] = words else {
        return None;
    };
    if !is_chain(chain.as_str()) {
        return None;
    }
    Some(Command::Convert {
        formats: formats.as_str(),
        input: input.as_str(),
        chain: chain.as_str(),
        output: output.as_str(),
        listing: listing_of(listing.as_str()),
    })
}

// The name of a listing. The word `-` says that none is wanted.
fn listing_of(word: &str) -> Option<&str>
    ensures { option_map (λ l. l.now) result ≡ listing_of word.now }
{
    if word == "-" {
        return None;
    }
    Some(word)
}

fn run_of(words: &[String]) -> Option<Command<'_>>
    ensures { Says result (run_of (texts words.now)) }
{
    let [code, input, output, steps] = words else {
        return None;
    };
    let budget = budget(steps.as_str())?;
    Some(Command::Run {
        code: code.as_str(),
        input: input.as_str(),
        output: output.as_str(),
        budget,
    })
}

fn info_of(words: &[String]) -> Option<Command<'_>>
    ensures { Says result (info_of (texts words.now)) }
{
    let [input] = words else {
        return None;
    };
    Some(Command::Info {
        input: input.as_str(),
    })
}

fn compile_of(words: &[String]) -> Option<Command<'_>>
    ensures { Says result (compile_of (texts words.now)) }
{
    let [formats, rows, cols, source, target, output] = words else {
        return None;
    };
    if !is_name(source.as_str()) || !is_name(target.as_str()) {
        return None;
    }
    let height = side(rows.as_str())?;
    let width = side(cols.as_str())?;
    Some(Command::Compile {
        formats: formats.as_str(),
        shape: Shape {
            rows: height,
            cols: width,
        },
        source: source.as_str(),
        target: target.as_str(),
        output: output.as_str(),
    })
}

fn generate_of(words: &[String]) -> Option<Command<'_>>
    ensures { Says result (generate_of (texts words.now)) }
{
    let [seed, rows, cols, count, chain, formats] = words else {
        return None;
    };
    if !names_formats(chain.as_str()) {
        return None;
    }
    let seed = seed_of(seed.as_str())?;
    let height = side(rows.as_str())?;
    let width = side(cols.as_str())?;
    let count = count_of(count.as_str())?;
    Some(Command::Generate {
        seed,
        count,
        shape: Shape {
            rows: height,
            cols: width,
        },
        chain: chain.as_str(),
        formats: formats.as_str(),
    })
}

// A seed: a number of at most 20 digits, from 1 to 2147483646.
fn seed_of(word: &str) -> Option<u64>
    ensures { MatchOption result (seed_of word.now ≡ None) (λ n. seed_of word.now ≡ Some n) }
{
    let number = budget(word)?;
    if number < 1 || number > 2147483646 {
        return None;
    }
    Some(number)
}

// A number of triples: a number of at most 20 digits, up to 8388608.
fn count_of(word: &str) -> Option<u32>
    ensures value { MatchOption result (count_of word.now ≡ None) (λ n. count_of word.now ≡ Some n) }
    ensures few { IfSome result (λ n. n ≤ 8388608) }
{
    let number = budget(word)?;
    if number > 8388608 {
        return None;
    }
    Some(number as u32)
}

fn advise_of(words: &[String]) -> Option<Command<'_>>
    ensures { Says result (advise_of (texts words.now)) }
{
    let [formats, input, chain] = words else {
        return None;
    };
    if !names_formats(chain.as_str()) {
        return None;
    }
    Some(Command::Advise {
        formats: formats.as_str(),
        input: input.as_str(),
        chain: chain.as_str(),
    })
}

fn blocks_of(words: &[String]) -> Option<Command<'_>>
    ensures { Says result (blocks_of (texts words.now)) }
{
    let [input, output] = words else {
        return None;
    };
    Some(Command::Blocks {
        input: input.as_str(),
        output: output.as_str(),
    })
}

fn product_of(vector: bool, words: &[String]) -> Option<Command<'_>>
    ensures { Says result (product_of vector (texts words.now)) }
{
    let [formats, input, chain, operand, output, listing] = words else {
        return None;
    };
    if !names_formats(chain.as_str()) {
        return None;
    }
    Some(Command::Product {
        vector,
        formats: formats.as_str(),
        input: input.as_str(),
        chain: chain.as_str(),
        operand: operand.as_str(),
        output: output.as_str(),
        listing: listing_of(listing.as_str()),
    })
}

// Whether a word is a chain that doesn't end in the canonical text.
fn names_formats(word: &str) -> bool
    ensures is { result ≡ names_formats word.now }
    ensures chain { result ≡ true → is_chain word.now ≡ true }
{
    if !is_chain(word) {
        return false;
    }
    !ends_in_text(word)
}

// Rows or columns: a number of at most 20 digits, from 1 to 2147483647.
fn side(word: &str) -> Option<u32>
    ensures value { MatchOption result (side_of word.now ≡ None) (λ n. side_of word.now ≡ Some n) }
    ensures small { IfSome result (λ n. n < 2 ^ 31) }
    ensures side { IfSome result IsSide }
{
    let Some(number) = number_of(word.as_bytes()) else {
        return None;
    };
    if word.len() > 20 || number == 0 || number > 2147483647 {
        return None;
    }
    Some(number as u32)
}

// The most steps: a number of at most 20 digits, up to 2^64 - 1.
fn budget(word: &str) -> Option<u64>
    ensures { MatchOption result (budget_of word.now ≡ None) (λ n. budget_of word.now ≡ Some n) }
{
    if word.len() > 20 {
        return None;
    }
    let Some(_) = number_of(word.as_bytes()) else {
        return None;
    };
    match word.parse::<u64>() {
        Ok(number) => Some(number),
        Err(_) => None,
    }
}
