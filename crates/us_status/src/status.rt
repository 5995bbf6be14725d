//! The answers of the program.
ghost use Rattle.std.specs.Prelude.{◌≡◌};
ghost use Rattle.us_status.specs.declared.status.Status.TheVariants.{Memory};
ghost use Rattle.us_status.specs.Lines.{status_line, code_of};

use crate::line::{
    push_broken, push_code_fault, push_container_fault, push_fault, push_formats_fault,
    push_numbered, push_operand, push_refusal, push_slot, push_unbound,
};
use arrayvec::ArrayString;
use std::alloc::{AllocError, AllocFailed};
use us_bounds::Unbound;
use us_check::Broken;
use us_code_reader::CodeFault;
use us_container::ContainerFault;
use us_judge::Refusal;
use us_mm::MmFault;
use us_parse::DeclFault;

/// The files of a command, by their places in it, and the standard output.
#[derive(Clone, Copy, Debug, PartialEq, Eq)]
pub enum Slot {
    /// The library of declarations.
    Formats,
    /// The matrix file or container that is read.
    Input,
    /// The dense operand of a product.
    Operand,
    /// The loop code that is read.
    Code,
    /// The file that is stored.
    Output,
    /// The listing of loops.
    Listing,
    /// The standard output.
    Print,
}

/// What a command answers.
#[derive(Clone, Copy, Debug, PartialEq, Eq)]
pub enum Status {
    /// All was done.
    Done,
    /// The words are no command.
    Words,
    /// The file isn't a matrix file that can be read.
    Matrix { slot: Slot, fault: MmFault },
    /// The file isn't a library of declarations.
    Formats(DeclFault),
    /// The k-th name of the chain, counted from 1, is not in the library.
    UnknownName { k: u32 },
    /// The declaration of the k-th name, counted from 1, is refused.
    Refused { k: u32, why: Refusal },
    /// The file isn't a container that can be read.
    Container(ContainerFault),
    /// The size of the k-th format of the chain, counted from 1, is above the limit of 67108864; 0 is the built-in format
    /// of the matrix file. Of loop code, with 1: a length or a dim is above 67108865.
    TooLarge { hop: u32 },
    /// The operand of a product has `have` rows, or `have` columns, in place of `want`.
    Operand { columns: bool, have: u64, want: u64 },
    /// The file isn't one unit.
    Code(CodeFault),
    /// An item of the code breaks a rule.
    Unbound(Unbound),
    /// The code has `want` sources, and the input `have` buffers.
    Sources { want: u64, have: u64 },
    /// What the code gives is not well-formed in the target.
    NotWellFormed(Broken),
    /// The code takes more steps than it may.
    OutOfSteps { budget: u64 },
    /// A fetch of the file failed.
    ReadFault { slot: Slot },
    /// A store of the file, or the print, failed.
    WriteFault { slot: Slot },
    /// The file is longer than 1073741824 bytes.
    TooLong { slot: Slot },
    /// There was not enough memory.
    Memory,
}

impl Status {
    /// The number with which the program ends.
    pub fn code(&self) -> u8
        ensures { result ≡ code_of self.now }
    {
        match self {
            Status::Done => 0,
            Status::Words => 1,
            Status::Matrix { .. } => 2,
            Status::Formats(_) => 3,
            Status::UnknownName { .. } => 4,
            Status::Refused { .. } => 5,
            Status::Container(_) => 6,
            Status::TooLarge { .. } => 7,
            Status::Operand { .. } => 8,
            Status::Code(_) | Status::Unbound(_) | Status::Sources { .. } => 9,
            Status::NotWellFormed(_) => 10,
            Status::OutOfSteps { .. } => 11,
            Status::ReadFault { .. } => 12,
            Status::WriteFault { .. } => 13,
            Status::TooLong { .. } => 14,
            Status::Memory => 15,
        }
    }

    /// The line that tells the answer, without a line feed.
    pub fn line(&self) -> ArrayString<160>
        ensures { result.bytes ≡ status_line self.now }
    {
        let mut line = ArrayString::new();
        match *self {
            Status::Done => line.push_str("ok"),
            Status::Words => line.push_str("words"),
            Status::Matrix { slot, fault } => {
                line.push_str("matrix ");
                push_slot(&mut line, slot);
                line.push_str(" ");
                push_fault(&mut line, fault);
            }
            Status::Formats(fault) => {
                line.push_str("formats ");
                push_formats_fault(&mut line, fault);
            }
            Status::UnknownName { k } => push_numbered(&mut line, "unknown name ", u64::from(k)),
            Status::Refused { k, why } => {
                push_numbered(&mut line, "refused name ", u64::from(k));
                line.push_str(" ");
                push_refusal(&mut line, why);
            }
            Status::Container(fault) => {
                line.push_str("container ");
                push_container_fault(&mut line, fault);
            }
            Status::TooLarge { hop } => push_numbered(&mut line, "too large ", u64::from(hop)),
            Status::Operand {
                columns,
                have,
                want,
            } => push_operand(&mut line, columns, have, want),
            Status::Code(fault) => {
                line.push_str("code ");
                push_code_fault(&mut line, fault);
            }
            Status::Unbound(unbound) => push_unbound(&mut line, unbound),
            Status::Sources { want, have } => {
                push_numbered(&mut line, "sources ", want);
                push_numbered(&mut line, " ", have);
            }
            Status::NotWellFormed(why) => {
                line.push_str("not well formed ");
                push_broken(&mut line, why);
            }
            Status::OutOfSteps { budget } => push_numbered(&mut line, "out of steps ", budget),
            Status::ReadFault { slot } => {
                line.push_str("read fault ");
                push_slot(&mut line, slot);
            }
            Status::WriteFault { slot } => {
                line.push_str("write fault ");
                push_slot(&mut line, slot);
            }
            Status::TooLong { slot } => {
                line.push_str("too long ");
                push_slot(&mut line, slot);
            }
            Status::Memory => line.push_str("memory"),
        }
        line
    }
}

impl From<AllocError> for Status {
    ghost from_gives = { λ _ e. e ≡ Memory };

    fn from(_: AllocError) -> Self {
        Status::Memory
    }
}

impl<T: Drop> From<AllocFailed<T>> for Status {
    ghost from_gives = { λ _ e. e ≡ Memory };

    fn from(_: AllocFailed<T>) -> Self {
        Status::Memory
    }
}
