//! The pieces of the lines that tell answers.
ghost use Rattle.std.specs.Prelude.{◌≡◌, ◌≤◌, ◌+◌, ◌++◌, false, length, true};
ghost use Rattle.std.specs.Fmt.{decimal, signed_decimal};
ghost use Rattle.arrayvec.specs.ArrayString.{array_string_len};
ghost use Rattle.us_status.specs.Lines.{slot_word, fault_text, formats_text, refusal_text, container_text, code_text, unbound_text, broken_text, operand_text};

use crate::Slot;
use arrayvec::ArrayString;
use itoa::Buffer;
use us_bounds::Unbound;
use us_check::Broken;
use us_code_reader::CodeFault;
use us_container::ContainerFault;
use us_judge::Refusal;
use us_mm::MmFault;
use us_parse::DeclFault;

/// The word of a slot.
pub fn push_slot(line: &mut ArrayString<160>, slot: Slot)
    requires { array_string_len line.old ≤ 100 }
    ensures bytes { line.new.bytes ≡ line.old.bytes ++ slot_word slot }
    ensures len { array_string_len line.new ≤ array_string_len line.old + 8 }
{
    match slot {
        Slot::Formats => line.push_str("FORMATS"),
        Slot::Input => line.push_str("IN"),
        Slot::Operand => line.push_str("X"),
        Slot::Code => line.push_str("CODE"),
        Slot::Output => line.push_str("OUT"),
        Slot::Listing => line.push_str("LISTING"),
        Slot::Print => line.push_str("PRINT"),
    }
}

/// A text of at most 20 bytes and a number.
pub fn push_numbered(line: &mut ArrayString<160>, text: &str, number: u64)
    requires room { array_string_len line.old ≤ 100 }
    requires short { length text.now ≤ 20 }
    ensures bytes { line.new.bytes ≡ line.old.bytes ++ (text.now ++ decimal number) }
    ensures len { array_string_len line.new ≤ array_string_len line.old + length text.now + 20 }
{
    let mut buffer = Buffer::new();
    line.push_str(text);
    line.push_str(buffer.format(number));
}

/// What is said of a fault of a matrix file.
pub fn push_fault(line: &mut ArrayString<160>, fault: MmFault)
    requires { array_string_len line.old ≤ 30 }
    ensures { line.new.bytes ≡ line.old.bytes ++ fault_text fault }
{
    match fault {
        MmFault::Header => line.push_str("header"),
        MmFault::Unsupported { word } => push_numbered(line, "unsupported word ", word),
        MmFault::SizeLine { line: number } => push_numbered(line, "size line ", number),
        MmFault::Shape { line: number } => push_numbered(line, "shape line ", number),
        MmFault::TooManyEntries { count } => push_numbered(line, "too many entries ", count),
        MmFault::EntryLine { line: number } => push_numbered(line, "entry line ", number),
        MmFault::OutOfShape { line: number } => push_numbered(line, "out of shape line ", number),
        MmFault::ValueRange { line: number } => push_numbered(line, "value range line ", number),
        MmFault::Triangle { line: number } => push_numbered(line, "triangle line ", number),
        MmFault::Missing { found, wanted } => {
            push_numbered(line, "missing ", found);
            push_numbered(line, " of ", wanted);
        }
        MmFault::Extra { line: number } => push_numbered(line, "extra line ", number),
        MmFault::Memory => line.push_str("memory"),
    }
}

/// What is said of a fault of a library.
pub fn push_formats_fault(line: &mut ArrayString<160>, fault: DeclFault)
    requires { array_string_len line.old ≤ 30 }
    ensures { line.new.bytes ≡ line.old.bytes ++ formats_text fault }
{
    match fault {
        DeclFault::Token { place } => push_numbered(line, "token ", place),
        DeclFault::Form { place } => push_numbered(line, "form ", place),
        DeclFault::TooBig { place } => push_numbered(line, "too big ", place),
        DeclFault::Repeated { place } => push_numbered(line, "repeated ", place),
        DeclFault::Memory => line.push_str("memory"),
    }
}

// A text of at most 20 bytes and a signed number.
fn push_signed(line: &mut ArrayString<160>, text: &str, number: i64)
    requires room { array_string_len line.old ≤ 100 }
    requires short { length text.now ≤ 20 }
    ensures bytes { line.new.bytes ≡ line.old.bytes ++ (text.now ++ signed_decimal number) }
    ensures len { array_string_len line.new ≤ array_string_len line.old + length text.now + 20 }
{
    let mut buffer = Buffer::new();
    line.push_str(text);
    line.push_str(buffer.format(number));
}

/// The rule, the part and the item of a refusal.
pub fn push_refusal(line: &mut ArrayString<160>, refusal: Refusal)
    requires { array_string_len line.old ≤ 50 }
    ensures { line.new.bytes ≡ line.old.bytes ++ refusal_text refusal }
{
    push_numbered(line, "J", u64::from(refusal.rule));
    push_numbered(line, " part ", u64::from(refusal.part));
    push_numbered(line, " place ", u64::from(refusal.place));
}

// The place and the contents of a cell.
fn push_cell(line: &mut ArrayString<160>, buffer: u64, x: u64, have: i64, want: i64)
    requires { array_string_len line.old ≤ 30 }
    ensures { line.new.bytes ≡ line.old.bytes ++ container_text (ContainerFault.Cell buffer x have want) }
{
    push_numbered(line, "cell ", buffer);
    push_numbered(line, " ", x);
    push_signed(line, " ", have);
    push_signed(line, " ", want);
}

// The lengths of a buffer that is too long or too short.
fn push_long(line: &mut ArrayString<160>, buffer: u64, have: u64, want: u64)
    requires { array_string_len line.old ≤ 30 }
    ensures { line.new.bytes ≡ line.old.bytes ++ container_text (ContainerFault.Long buffer have want) }
{
    push_numbered(line, "long ", buffer);
    push_numbered(line, " ", have);
    push_numbered(line, " ", want);
}

/// What is said of a fault of a container.
pub fn push_container_fault(line: &mut ArrayString<160>, fault: ContainerFault)
    requires { array_string_len line.old ≤ 30 }
    ensures { line.new.bytes ≡ line.old.bytes ++ container_text fault }
{
    match fault {
        ContainerFault::Magic => line.push_str("magic"),
        ContainerFault::Version { n } => push_numbered(line, "version ", n),
        ContainerFault::Truncated { at } => push_numbered(line, "truncated ", at),
        ContainerFault::DeclText { at } => push_numbered(line, "text ", at),
        ContainerFault::Refused(refusal) => {
            line.push_str("refused ");
            push_refusal(line, refusal);
        }
        ContainerFault::Shape => line.push_str("shape"),
        ContainerFault::Lengths { buffer } => push_numbered(line, "lengths ", buffer),
        ContainerFault::Trailing { at } => push_numbered(line, "trailing ", at),
        ContainerFault::TooLarge => line.push_str("too large"),
        ContainerFault::Climb { part, x } => {
            push_numbered(line, "climb ", part);
            push_numbered(line, " ", x);
        }
        ContainerFault::Cell {
            buffer,
            x,
            have,
            want,
        } => push_cell(line, buffer, x, have, want),
        ContainerFault::Long { buffer, have, want } => push_long(line, buffer, have, want),
        ContainerFault::Memory => line.push_str("memory"),
    }
}

/// What is said of buffers that are not well-formed.
pub fn push_broken(line: &mut ArrayString<160>, why: Broken)
    requires { array_string_len line.old ≤ 30 }
    ensures { line.new.bytes ≡ line.old.bytes ++ broken_text why }
{
    push_container_fault(line, ContainerFault::from(why));
}

/// What is said of an operand with the wrong number of rows or columns.
pub fn push_operand(line: &mut ArrayString<160>, columns: bool, have: u64, want: u64)
    requires { array_string_len line.old ≤ 30 }
    ensures { line.new.bytes ≡ line.old.bytes ++ operand_text columns have want }
{
    if columns {
        push_columns(line, have, want);
    } else {
        push_rows(line, have, want);
    }
}

fn push_columns(line: &mut ArrayString<160>, have: u64, want: u64)
    requires { array_string_len line.old ≤ 30 }
    ensures { line.new.bytes ≡ line.old.bytes ++ operand_text true have want }
{
    push_numbered(line, "operand columns ", have);
    push_numbered(line, " ", want);
}

fn push_rows(line: &mut ArrayString<160>, have: u64, want: u64)
    requires { array_string_len line.old ≤ 30 }
    ensures { line.new.bytes ≡ line.old.bytes ++ operand_text false have want }
{
    push_numbered(line, "operand rows ", have);
    push_numbered(line, " ", want);
}

/// What is said of a fault of a unit.
pub fn push_code_fault(line: &mut ArrayString<160>, fault: CodeFault)
    requires { array_string_len line.old ≤ 30 }
    ensures { line.new.bytes ≡ line.old.bytes ++ code_text fault }
{
    match fault {
        CodeFault::Token { place } => push_numbered(line, "token ", place),
        CodeFault::Form { place } => push_numbered(line, "form ", place),
        CodeFault::TooBig { place } => push_numbered(line, "too big ", place),
        CodeFault::Memory => line.push_str("memory"),
    }
}

/// The item of a code that breaks a rule, and the rule.
pub fn push_unbound(line: &mut ArrayString<160>, unbound: Unbound)
    requires { array_string_len line.old ≤ 30 }
    ensures { line.new.bytes ≡ line.old.bytes ++ unbound_text unbound }
{
    push_numbered(line, "unbound phase ", unbound.phase);
    push_numbered(line, " stmt ", u64::from(unbound.stmt));
    push_numbered(line, " V", u64::from(unbound.rule));
}
