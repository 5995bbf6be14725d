//! Files that a command reads.
ghost use Rattle.std.specs.Prelude.{◌≡◌, [], ◌∷◌, All, IfErr, IfOk, IfSome, true};
ghost use Rattle.us_outside.specs.Causes.{NeverFell};
ghost use Rattle.us_outside.specs.Files.{content_of};
ghost use Rattle.us_status.specs.Uses.{reads};
ghost use Rattle.us_inputs.specs.Steps.{bytes_at, container_step, input_at, is_container, library_at, library_step, map_of};
ghost use Rattle.us_inputs.specs.Library.{library_in};
ghost use Rattle.us_status.specs.Answers.{IsStep, IsRefusal, IsInnerRefusal, formats_refusal_of, container_refusal_of};
ghost use Rattle.us_inputs.specs.Views.{bytes_of, declarations_of, input_of, input_view};
ghost use Rattle.us_status.specs.declared.status.Status.TheVariants.{ReadFault};
ghost use Rattle.us_container.specs.Contained.{contained_in};
ghost use Rattle.us_decl.specs.Declares.{IsValid};
ghost use Rattle.us_decl.specs.Views.{decl_view};

use crate::matrix_file::read_matrix_file;
use std::alloc::Global;
use us_check::Held;
use us_container::{ContainerFault, read_container};
use us_decl::Library;
use us_matrix::Matrix;
use us_outside::{LoadFault, Outside, fill, load};
use us_parse::{DeclFault, parse_library};
use us_status::{Slot, Status};

/// What a matrix is read from: a matrix file or a container.
#[derive(Drop)]
pub enum Input {
    File(Matrix),
    Container(Held),
}

impl Input {
    /// The matrix.
    pub fn matrix(&self) -> &Matrix
        ensures { result.now ≡ map_of (input_view self.now) }
    {
        match self {
            Input::File(matrix) => matrix,
            Input::Container(held) => held.matrix(),
        }
    }

    /// The matrix alone.
    pub fn into_matrix(self) -> Matrix
        ensures { result ≡ map_of (input_view self) }
    {
        match self {
            Input::File(matrix) => matrix,
            Input::Container(held) => held.into_matrix(),
        }
    }
}

/// The input in the file of a slot, or the answer where it isn't read. A container is loaded whole; of a matrix file no more
/// than a piece is held.
pub fn read_input<O: Outside>(
    alloc: Global,
    outside: &mut O,
    slot: Slot,
    name: &str,
) -> Result<Input, Status>
    ensures plain { IfSome (O.files outside.old) (λ fs. IsStep (input_at slot (content_of fs name.now)) (input_of result)) }
    ensures refusal { IfErr result (IsRefusal (reads slot name.now ∷ []) (O.faults outside.old) (O.faults outside.new)) }
    ensures files { O.files outside.new ≡ O.files outside.old }
    ensures printed { O.printed outside.new ≡ O.printed outside.old }
    ensures later { NeverFell (O.faults outside.old) (O.faults outside.new) }
{
    if is_container(outside, slot, name)? {
        load_container(alloc, outside, slot, name)
    } else {
        read_matrix_file(alloc, outside, slot, name)
    }
}

// Whether the file of a slot begins with the seven bytes of a container.
fn is_container<O: Outside>(outside: &mut O, slot: Slot, name: &str) -> Result<bool, Status>
    ensures tells { IfOk result (λ b. IfSome (O.files outside.old) (λ fs. b ≡ is_container (content_of fs name.now))) }
    ensures fault { IfErr result (λ status. status ≡ ReadFault slot) }
    ensures refusal { IfErr result (IsRefusal (reads slot name.now ∷ []) (O.faults outside.old) (O.faults outside.new)) }
    ensures files { O.files outside.new ≡ O.files outside.old }
    ensures printed { O.printed outside.new ≡ O.printed outside.old }
    ensures later { NeverFell (O.faults outside.old) (O.faults outside.new) }
{
    let mut front = [0; 7];
    let Ok(count) = fill(outside, name, 0, &mut front) else {
        return Err(Status::ReadFault { slot });
    };
    Ok(front[..count].starts_with(b"USPARSE"))
}

// The input in a file that is a container.
fn load_container<O: Outside>(
    alloc: Global,
    outside: &mut O,
    slot: Slot,
    name: &str,
) -> Result<Input, Status>
    ensures plain { IfSome (O.files outside.old) (λ fs. true ≡ is_container (content_of fs name.now) → IsStep (input_at slot (content_of fs name.now)) (input_of result)) }
    ensures refusal { IfErr result (IsRefusal (reads slot name.now ∷ []) (O.faults outside.old) (O.faults outside.new)) }
    ensures files { O.files outside.new ≡ O.files outside.old }
    ensures printed { O.printed outside.new ≡ O.printed outside.old }
    ensures later { NeverFell (O.faults outside.old) (O.faults outside.new) }
{
    let bytes = load_file(alloc, outside, slot, name)?;
    container_in(alloc, &bytes)
}

/// The library in the file of a slot, or the answer where it isn't read.
pub fn read_library<O: Outside>(
    alloc: Global,
    outside: &mut O,
    slot: Slot,
    name: &str,
) -> Result<Library, Status>
    ensures plain { IfSome (O.files outside.old) (λ fs. IsStep (library_at slot (content_of fs name.now)) (declarations_of result)) }
    ensures valid { IfOk result (λ library. All (λ d. IsValid (decl_view d)) library) }
    ensures refusal { IfErr result (IsRefusal (reads slot name.now ∷ []) (O.faults outside.old) (O.faults outside.new)) }
    ensures files { O.files outside.new ≡ O.files outside.old }
    ensures printed { O.printed outside.new ≡ O.printed outside.old }
    ensures later { NeverFell (O.faults outside.old) (O.faults outside.new) }
{
    let bytes = load_file(alloc, outside, slot, name)?;
    library_in(alloc, &bytes)
}

/// The bytes of the file of a slot, or the answer where it isn't read.
pub fn load_file<O: Outside>(
    alloc: Global,
    outside: &mut O,
    slot: Slot,
    name: &str,
) -> Result<Vec<u8>, Status>
    ensures plain { IfSome (O.files outside.old) (λ fs. IsStep (bytes_at slot (content_of fs name.now)) (bytes_of result)) }
    ensures refusal { IfErr result (IsRefusal (reads slot name.now ∷ []) (O.faults outside.old) (O.faults outside.new)) }
    ensures files { O.files outside.new ≡ O.files outside.old }
    ensures printed { O.printed outside.new ≡ O.printed outside.old }
    ensures later { NeverFell (O.faults outside.old) (O.faults outside.new) }
{
    match load(alloc, outside, name) {
        Ok(bytes) => Ok(bytes),
        Err(LoadFault::Failed) => Err(Status::ReadFault { slot }),
        Err(LoadFault::TooLong) => Err(Status::TooLong { slot }),
        Err(LoadFault::Memory) => Err(Status::Memory),
    }
}

// The container that the bytes are.
fn container_in(alloc: Global, bytes: &[u8]) -> Result<Input, Status>
    ensures plain { IsStep (container_step (contained_in bytes.now)) (input_of result) }
    ensures refusal { IfErr result IsInnerRefusal }
{
    match read_container(alloc, bytes) {
        Ok(held) => Ok(Input::Container(held)),
        Err(fault) => Err(container_refusal(fault)),
    }
}

// The library that the bytes are.
fn library_in(alloc: Global, bytes: &[u8]) -> Result<Library, Status>
    ensures plain { IsStep (library_step (library_in bytes.now)) (declarations_of result) }
    ensures valid { IfOk result (λ library. All (λ d. IsValid (decl_view d)) library) }
    ensures refusal { IfErr result IsInnerRefusal }
{
    match parse_library(alloc, bytes) {
        Ok(library) => Ok(library),
        Err(fault) => Err(formats_refusal(fault)),
    }
}

// The answer to a file that isn't a library.
fn formats_refusal(fault: DeclFault) -> Status
    ensures { result ≡ formats_refusal_of fault }
{
    match fault {
        DeclFault::Memory => Status::Memory,
        fault => Status::Formats(fault),
    }
}

// The answer to a file that isn't a container.
fn container_refusal(fault: ContainerFault) -> Status
    ensures { result ≡ container_refusal_of fault }
{
    match fault {
        ContainerFault::Memory => Status::Memory,
        fault => Status::Container(fault),
    }
}
