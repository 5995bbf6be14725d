//! Chains of formats: names between commas.
ghost use Rattle.std.specs.Prelude.{◌≡◌, ◌==◌, not, length, take, map, IfOk};
ghost use Rattle.std.specs.List.{list_all, list_any};
ghost use Rattle.us_inputs.specs.Chains.{names_of, is_text, is_chain, is_name, hops_of, ends_in_text};

use std::alloc::{AllocError, Global};

/// The most names of a chain.
const MOST_NAMES: usize = 64;

/// Whether the text has 1 to 64 names, none empty, and `mtx` only as the last.
pub fn is_chain(chain: &str) -> bool
    ensures { result ≡ is_chain chain.now }
{
    let count = count_names(chain);
    count <= MOST_NAMES && has_names(chain) && !has_text_before(chain, count.saturating_sub(1))
}

fn count_names(chain: &str) -> usize
    ensures { result ≡ length (names_of chain.now) }
{
    chain.split(',').count()
}

// No name is empty.
fn has_names(chain: &str) -> bool
    ensures { result ≡ list_all (λ w. not (length w == 0)) (names_of chain.now) }
{
    chain.split(',').all(|name| !name.is_empty())
}

// Whether `mtx` is one of the first names.
fn has_text_before(chain: &str, count: usize) -> bool
    ensures { result ≡ list_any is_text (take count (names_of chain.now)) }
{
    chain.split(',').take(count).any(|name| name == "mtx")
}

/// Whether the word is one name of a format: not empty, without a comma, and not `mtx`.
pub fn is_name(word: &str) -> bool
    ensures { result ≡ is_name word.now }
{
    !word.is_empty() && !has_comma(word) && word != "mtx"
}

fn has_comma(word: &str) -> bool
    ensures { result ≡ list_any (λ b. b == 44) word.now }
{
    word.as_bytes().iter().any(|byte| *byte == b',')
}

/// Whether the chain ends in the canonical text.
pub fn ends_in_text(chain: &str) -> bool
    ensures { result ≡ ends_in_text chain.now }
{
    chain.split(',').any(|name| name == "mtx")
}

/// The names of the formats of a chain: all names but `mtx`.
pub fn hops_of(alloc: Global, chain: &str) -> Result<Vec<&str>, AllocError>
    ensures { IfOk result (λ v. map (λ n. n.now) v.items ≡ hops_of chain.now) }
{
    chain
        .split(',')
        .filter(|name| *name != "mtx")
        .collect(alloc)
}
