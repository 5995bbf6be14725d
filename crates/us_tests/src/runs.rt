//! Runs of the program over files in memory.

use std::alloc::{AllocError, Global};
use us_outside::MemoryOutside;
use us_top::{Status, run};

/// Files in memory: a library as LIB and an input as A.
pub fn files(alloc: Global, library: &[u8], input: &[u8]) -> Result<MemoryOutside, AllocError> {
    let mut outside = MemoryOutside::new(alloc);
    outside.put("LIB", library)?;
    outside.put("A", input)?;
    Ok(outside)
}

/// The words of a command line.
fn words(alloc: Global, texts: &[&str]) -> Result<Vec<String>, AllocError> {
    let mut words = Vec::new(alloc);
    for text in texts {
        words.push(String::from_str(alloc, text)?)?;
    }
    Ok(words)
}

/// The answer to a command line.
pub fn answer(alloc: Global, outside: &mut MemoryOutside, texts: &[&str]) -> Status {
    match words(alloc, texts) {
        Ok(words) => run(alloc, &words, outside),
        Err(_) => Status::Memory,
    }
}

/// Whether a command line has this line as its answer.
pub fn is_answered(alloc: Global, outside: &mut MemoryOutside, texts: &[&str], line: &str) -> bool {
    answer(alloc, outside, texts).line().as_str() == line
}

/// Whether this was printed.
pub fn has_printed(outside: &MemoryOutside, text: &[u8]) -> bool {
    outside.printed() == text
}

/// Whether a line is the name and the size of a hop, with a number of steps behind; nothing where there is no hop.
fn is_hop(line: &str, hop: &str) -> bool {
    if hop.is_empty() {
        return line.is_empty();
    }
    match line.strip_prefix(hop) {
        Some(steps) => steps.len() > 1 && steps.as_bytes()[0] == b' ',
        None => false,
    }
}

/// Whether the lines of a text are the names and sizes of these hops, each with its number of steps behind.
pub fn are_hops(text: &str, hops: &str) -> bool {
    let mut wanted = hops.split('\n');
    for line in text.split('\n') {
        match wanted.next() {
            Some(hop) => {
                if !is_hop(line, hop) {
                    return false;
                }
            }
            None => return false,
        }
    }
    wanted.next().is_none()
}

/// Whether the names and sizes of these hops were printed, a line for each, with its number of steps behind.
pub fn has_hops(outside: &MemoryOutside, hops: &str) -> bool {
    match str::from_utf8(outside.printed()) {
        Ok(text) => are_hops(text, hops),
        Err(_) => false,
    }
}

/// Whether a file has these bytes.
pub fn is_file(outside: &MemoryOutside, name: &str, bytes: &[u8]) -> bool {
    match outside.file(name) {
        Some(found) => found == bytes,
        None => false,
    }
}

/// Whether there is such a file.
pub fn has_file(outside: &MemoryOutside, name: &str) -> bool {
    outside.file(name).is_some()
}
