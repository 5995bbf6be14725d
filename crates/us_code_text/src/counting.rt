//! What is counted along the tokens.

ghost use Rattle.std.specs.Prelude.{◌≡◌, ◌≤◌, MatchOption, Some, None, ℕ, true, cond};
ghost use Rattle.us_code_table.specs.Limits.{measure, check, TooBig, Count, is_node, is_item, is_list_name, is_source_count, is_between, begins_list, items_behind, nodes_behind, names_behind, parens_behind, braces_behind, value_fits, nothing};
ghost use Rattle.us_code_table.specs.Words.{token};
ghost use Rattle.us_code_text.specs.Counts.{counted};

use crate::meter::Meter;
use us_code_table::Lexeme;
use us_code_table::mark::Mark;
use us_code_table::note::Note;

/// Before the first token.
pub fn none() -> Meter
    ensures { counted result ≡ nothing }
{
    Meter {
        items: 0,
        braces: 0,
        nodes: 0,
        parens: 0,
        names: 0,
        sources: 0,
    }
}

fn is_node_note(note: Option<Note>) -> bool
    ensures { result ≡ is_node note }
{
    match note {
        Some(Note::Node) => true,
        _ => false,
    }
}

fn is_item_note(note: Option<Note>) -> bool
    ensures { result ≡ is_item note }
{
    match note {
        Some(Note::Item) => true,
        _ => false,
    }
}

fn is_name_note(note: Option<Note>) -> bool
    ensures { result ≡ is_list_name note }
{
    match note {
        Some(Note::ListName) => true,
        _ => false,
    }
}

fn is_source_note(note: Option<Note>) -> bool
    ensures { result ≡ is_source_count note }
{
    match note {
        Some(Note::SourceCount) => true,
        _ => false,
    }
}

/// Whether a token stands in no expression.
fn is_between_token(lexeme: Lexeme) -> bool
    ensures { result ≡ is_between (token lexeme).class }
{
    match lexeme {
        Lexeme::Fixed(Mark::Equal) => true,
        Lexeme::Fixed(Mark::BracketOpen) => true,
        Lexeme::Fixed(Mark::Less) => true,
        Lexeme::Fixed(Mark::Same) => true,
        Lexeme::Fixed(Mark::To) => true,
        Lexeme::Fixed(Mark::In) => true,
        Lexeme::Fixed(Mark::Of) => true,
        Lexeme::Fixed(Mark::If) => true,
        Lexeme::Fixed(Mark::When) => true,
        _ => false,
    }
}

/// Whether a list of names begins behind a token.
fn is_list_token(lexeme: Lexeme) -> bool
    ensures { result ≡ begins_list (token lexeme).class }
{
    match lexeme {
        Lexeme::Fixed(Mark::Give) => true,
        Lexeme::Fixed(Mark::Order) => true,
        Lexeme::Fixed(Mark::Set) => true,
        _ => false,
    }
}

fn items_then(items: u32, item: bool) -> u32
    requires { items ≤ 65536 }
    ensures { result ≡ items_behind items item }
{
    if item { items + 1 } else { items }
}

fn nodes_then(nodes: u32, node: bool, lexeme: Lexeme) -> u32
    requires { nodes ≤ 256 }
    ensures { result ≡ nodes_behind nodes node (token lexeme).class }
{
    if node {
        nodes + 1
    } else if is_between_token(lexeme) {
        0
    } else {
        nodes
    }
}

fn names_then(names: u32, name: bool, lexeme: Lexeme) -> u32
    requires { names ≤ 4096 }
    ensures { result ≡ names_behind names name (token lexeme).class }
{
    if name {
        names + 1
    } else if is_list_token(lexeme) {
        0
    } else {
        names
    }
}

fn parens_then(parens: u32, lexeme: Lexeme) -> u32
    requires { parens ≤ 64 }
    ensures { result ≡ parens_behind parens (token lexeme).class }
{
    match lexeme {
        Lexeme::Fixed(Mark::Open) => parens + 1,
        Lexeme::Fixed(Mark::Close) => parens.saturating_sub(1),
        _ => parens,
    }
}

fn braces_then(braces: u32, lexeme: Lexeme) -> u32
    requires { braces ≤ 66 }
    ensures { result ≡ braces_behind braces (token lexeme).class }
{
    match lexeme {
        Lexeme::Fixed(Mark::BraceOpen) => braces + 1,
        Lexeme::Fixed(Mark::BraceClose) => braces.saturating_sub(1),
        _ => braces,
    }
}

/// The value of a token, 0 where it has none.
#[tactic(auto, using(us_code_table::proofs::Values::number_value))]
fn value_of(lexeme: Lexeme) -> u64
    ensures { result ≡ (token lexeme).value }
{
    match lexeme {
        Lexeme::Fixed(_) => 0,
        Lexeme::Register(number) => number,
        Lexeme::Buffer(number) => number,
        Lexeme::DimName(number) => number,
        Lexeme::Source(number) => number,
        Lexeme::Length(number) => number,
        Lexeme::Number(number) => number,
    }
}

fn sources_then(sources: u64, count: bool, lexeme: Lexeme) -> u64
    ensures { result ≡ cond count (token lexeme).value sources }
{
    if count { value_of(lexeme) } else { sources }
}

/// Whether a number is not above its limit.
#[tactic(auto, using(us_code_table::proofs::Values::number_fits))]
fn is_small(lexeme: Lexeme) -> bool
    ensures { result ≡ value_fits (token lexeme).class (token lexeme).value }
{
    match lexeme {
        Lexeme::Fixed(_) => true,
        Lexeme::Register(number) => number < 4294967296,
        Lexeme::Buffer(number) => number < 4294967296,
        Lexeme::DimName(number) => number < 4294967296,
        Lexeme::Source(number) => number < 4294967296,
        Lexeme::Length(number) => number < 4294967296,
        Lexeme::Number(number) => number < 9223372036854775808,
    }
}

/// What is counted behind one more token, or None if it breaks a limit.
pub fn behind(meter: Meter, note: Option<Note>, lexeme: Lexeme) -> Option<Meter>
    ensures counts { MatchOption result (check (measure (counted meter) note (token lexeme)) (token lexeme) ≡ Some TooBig) (λ r. (counted r ≡ measure (counted meter) note (token lexeme)) × (check (counted r) (token lexeme) ≡ None)) }
    ensures small { MatchOption result (Unit {0}) (λ r. value_fits (token lexeme).class (token lexeme).value ≡ true) }
{
    let items = items_then(meter.items, is_item_note(note));
    let braces = braces_then(meter.braces, lexeme);
    let nodes = nodes_then(meter.nodes, is_node_note(note), lexeme);
    let parens = parens_then(meter.parens, lexeme);
    let names = names_then(meter.names, is_name_note(note), lexeme);
    let sources = sources_then(meter.sources, is_source_note(note), lexeme);
    let within = items < 65537
        && braces < 67
        && nodes < 257
        && parens < 65
        && names < 4097
        && sources < 4097;
    if within && is_small(lexeme) {
        Some(Meter {
            items,
            braces,
            nodes,
            parens,
            names,
            sources,
        })
    } else {
        None
    }
}
