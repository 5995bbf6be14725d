//! Code that is made of phases, written as text, read again and run.

ghost use Rattle.std.specs.Prelude.{◌≡◌, ◌≤◌, All, IfSome, IsTrue, length};
ghost use Rattle.us_code.specs.Limits.{KeepsLimits};
ghost use Rattle.us_code.specs.Plain.{program_tree};

use arrayvec::ArrayVec;
use sqlite_items::Items;
use std::alloc::{AllocError, Global};
use us_bounds::{Verified, verify};
use us_code::{Columns, Fresh, Phases, Program};
use us_code_print::print_program;
use us_code_reader::parse_program;
use us_code_texts::parsed_program_keeps_limits;
use us_machine::run;
use us_matrix::Buffers;

/// The canonical text of the code with so many sources and these phases, which gives these buffers.
pub fn code_text(
    alloc: Global,
    sources: usize,
    phases: Phases,
    give: &[u32],
) -> Result<Vec<u8>, AllocError> {
    let sources = u32::try_from(sources).unwrap_or(0);
    let give = Items::from_slice(alloc, give)?;
    print_program(
        alloc,
        &Program {
            sources,
            phases,
            give,
        },
    )
}

/// Whether a text is the canonical text of a program.
fn is_text_of(alloc: Global, text: &[u8], program: &Program) -> bool {
    match print_program(alloc, program) {
        Ok(printed) => printed.as_slice() == text,
        Err(_) => false,
    }
}

/// The program whose canonical text this is, if it is one.
fn program_in(alloc: Global, text: &[u8]) -> Option<Program>
    ensures { IfSome result (λ program. KeepsLimits (program_tree program)) }
{
    parsed_program_keeps_limits();
    match parse_program(alloc, text, 0) {
        Ok(one) if is_text_of(alloc, text, &one.program) => Some(one.program),
        _ => None,
    }
}

/// Whether the machine takes these lists as sources.
fn are_short(lists: &Buffers) -> bool
    ensures { IsTrue result → All (λ cells. length cells ≤ 67108864) lists.now }
{
    for k in 0..lists.count() {
        if lists.list(k).len() > 67108864 {
            return false;
        }
    }
    true
}

/// What code gives on these sources, if it has as many and comes to its end.
pub fn given(alloc: Global, code: &Verified, sources: &Buffers) -> Option<Buffers> {
    let want = u64::from(code.program().sources);
    let have = sources.count() as u64;
    if want != have || !are_short(sources) {
        return None;
    }
    match run(alloc, code, sources, None) {
        Ok(ran) => Some(ran.buffers),
        Err(_) => None,
    }
}

/// The code with this text, if it is canonical and the code keeps the rules of loop code.
fn code_in(alloc: Global, text: &[u8]) -> Option<Verified> {
    match verify(alloc, program_in(alloc, text)?) {
        Ok(code) => Some(code),
        Err(_) => None,
    }
}

/// What the code with this text gives on these sources, if the text is canonical and the code keeps the rules.
pub fn lists_of(alloc: Global, text: &[u8], sources: &Buffers) -> Option<Buffers> {
    match code_in(alloc, text) {
        Some(code) => given(alloc, &code, sources),
        None => None,
    }
}

/// Whether these are the lists, in order.
pub fn are_lists(lists: &Buffers, wanted: &[&[i64]]) -> bool {
    if lists.count() != wanted.len() {
        return false;
    }
    for (k, cells) in wanted.iter().enumerate() {
        if lists.list(k) != *cells {
            return false;
        }
    }
    true
}

/// From three sources of one length it makes the columns of entries: the rows, the columns and the values.
const COLUMNS: &str = "code 3 {
  phase {
    do {
    }
    dim d0 of size(len0)
  }
  phase {
    new b1[d0] word
    new b2[d0] word
    new b3[d0] word
    do {
      for r0 below d0 {
        when r0 below len0 as r1 {
          let r2 = s0[r1]
          set b1[r0] = r2
        }
        when r0 below len1 as r1 {
          let r2 = s1[r1]
          set b2[r0] = r2
        }
        when r0 below len2 as r1 {
          let r2 = s2[r1]
          set b3[r0] = r2
        }
      }
    }
  }
  give
}
";

/// The columns that it makes.
pub fn given_columns() -> Columns {
    Columns {
        count: 0,
        i: 1,
        j: 2,
        v: 3,
        vars: ArrayVec::new(),
    }
}

/// The numbers behind its own.
pub fn fresh_behind_columns() -> Fresh
    ensures { result ≡ 4 }
{
    let mut fresh = Fresh::new();
    fresh.take(4);
    fresh
}

/// The phases that make the columns; nothing for want of memory.
fn column_phases(alloc: Global) -> Option<Phases> {
    match parse_program(alloc, COLUMNS.as_bytes(), 0) {
        Ok(one) => Some(one.program.phases),
        Err(_) => None,
    }
}

/// The canonical text of the code that makes the columns, goes through these phases and gives these buffers; nothing for
/// want of memory.
pub fn text_behind_columns(alloc: Global, more: Phases, give: &[u32]) -> Option<Vec<u8>> {
    let mut phases = column_phases(alloc)?;
    match phases.append(more) {
        Ok(()) => code_text(alloc, 3, phases, give).ok(),
        Err(_) => None,
    }
}

/// Lists of cells as sources.
pub fn sources_of(alloc: Global, lists: &[&[i64]]) -> Result<Buffers, AllocError> {
    let mut sources = Buffers::new(alloc);
    for cells in lists {
        sources.push(Vec::from_slice(alloc, cells)?)?;
    }
    Ok(sources)
}
