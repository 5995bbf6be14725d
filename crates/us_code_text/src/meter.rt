//! The counts of a reading.

ghost use Rattle.std.specs.Prelude.{◌≤◌};

/// What is counted along the tokens, within the limits.
#[derive(Clone, Copy, Debug, PartialEq, Eq)]
pub struct Meter {
    pub items: u32,
    pub braces: u32,
    pub nodes: u32,
    pub parens: u32,
    pub names: u32,
    pub sources: u64,
    ghost few: { items ≤ 65536 },
    ghost deep: { braces ≤ 66 },
    ghost short: { nodes ≤ 256 },
    ghost nested: { parens ≤ 64 },
    ghost listed: { names ≤ 4096 },
    ghost given: { sources ≤ 4096 },
}
