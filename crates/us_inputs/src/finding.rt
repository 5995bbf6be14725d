//! The formats of names, by a library.
ghost use Rattle.std.specs.Prelude.{◌≡◌, ◌≤◌, ◌∷◌, [], All, Err, IfErr, IfOk, IfSome, MatchOption, None, OnOk, Some, length, map, true};
ghost use Rattle.us_outside.specs.Causes.{NeverFell};
ghost use Rattle.us_outside.specs.Files.{content_of};
ghost use Rattle.us_decl.specs.Declares.{IsValid};
ghost use Rattle.us_decl.specs.Views.{decl_view};
ghost use Rattle.us_judge.specs.Acceptance.{first_refusal};
ghost use Rattle.us_judge.specs.Views.{declaration_of};
ghost use Rattle.us_status.specs.declared.status.Slot.TheVariants.{Formats};
ghost use Rattle.us_inputs.specs.Chains.{is_chain};
ghost use Rattle.us_status.specs.Uses.{reads};
ghost use Rattle.us_inputs.specs.Steps.{chain_in, find, find_all, formats_in, judged, judged_all, named_in};
ghost use Rattle.us_status.specs.Answers.{IsStep, IsRefusal, IsInnerRefusal};
ghost use Rattle.us_inputs.specs.Views.{found_of, formats_of};

use crate::chain::hops_of;
use crate::input::read_library;
use std::alloc::Global;
use us_decl::{Decl, Library};
use us_judge::{Format, JudgeFault, judge};
use us_outside::Outside;
use us_status::{Slot, Status};

/// The formats of a chain, by the library in a file: the library is read, then all names are found, then all are judged.
pub fn read_chain<O: Outside>(
    alloc: Global,
    outside: &mut O,
    name: &str,
    chain: &str,
) -> Result<Vec<Format>, Status>
    requires { is_chain chain.now ≡ true }
    ensures plain { IfSome (O.files outside.old) (λ fs. IsStep (chain_in (content_of fs name.now) chain.now) (formats_of result)) }
    ensures few { IfOk result (λ v. length v.items ≤ 64) }
    ensures refusal { IfErr result (IsRefusal (reads Formats name.now ∷ []) (O.faults outside.old) (O.faults outside.new)) }
    ensures files { O.files outside.new ≡ O.files outside.old }
    ensures printed { O.printed outside.new ≡ O.printed outside.old }
    ensures later { NeverFell (O.faults outside.old) (O.faults outside.new) }
{
    let names = hops_of(alloc, chain)?;
    read_formats(alloc, outside, name, &names)
}

/// The formats of names, by the library in a file: the library is read, then all names are found, then all are judged.
pub fn read_formats<O: Outside>(
    alloc: Global,
    outside: &mut O,
    name: &str,
    names: &[&str],
) -> Result<Vec<Format>, Status>
    requires { length names.now ≤ 64 }
    ensures plain { IfSome (O.files outside.old) (λ fs. IsStep (named_in (content_of fs name.now) (map (λ n. n.now) names.now)) (formats_of result)) }
    ensures count { IfOk result (λ v. length v.items ≡ length names.now) }
    ensures refusal { IfErr result (IsRefusal (reads Formats name.now ∷ []) (O.faults outside.old) (O.faults outside.new)) }
    ensures files { O.files outside.new ≡ O.files outside.old }
    ensures printed { O.printed outside.new ≡ O.printed outside.old }
    ensures later { NeverFell (O.faults outside.old) (O.faults outside.new) }
{
    let library = read_library(alloc, outside, Slot::Formats, name)?;
    formats_in(alloc, &library, names)
}

// The formats of names, by a library.
fn formats_in(alloc: Global, library: &Library, names: &[&str]) -> Result<Vec<Format>, Status>
    requires few { length names.now ≤ 64 }
    requires valid { All (λ d. IsValid (decl_view d)) library.now }
    ensures plain { IsStep (formats_in (map decl_view library.now) (map (λ n. n.now) names.now)) (formats_of result) }
    ensures count { IfOk result (λ v. length v.items ≡ length names.now) }
    ensures refusal { IfErr result IsInnerRefusal }
{
    let found = find_all(alloc, library, names)?;
    judge_all(alloc, &found)
}

// The declarations of names.
fn find_all<'a>(
    alloc: Global,
    library: &'a Library,
    names: &[&str],
) -> Result<Vec<&'a Decl>, Status>
    requires few { length names.now ≤ 64 }
    requires valid { All (λ d. IsValid (decl_view d)) library.now }
    ensures plain { IsStep (find_all (map decl_view library.now) 1 (map (λ n. n.now) names.now)) (found_of result) }
    ensures count { IfOk result (λ v. length v.items ≡ length names.now) }
    ensures valid { IfOk result (λ v. All (λ d. IsValid (decl_view d.now)) v.items) }
    ensures refusal { IfErr result IsInnerRefusal }
{
    let mut found = Vec::new(alloc);
    for (i, name) in names.iter().enumerate() {
        let Some(decl) = find(library, name) else {
            return Err(Status::UnknownName { k: i as u32 + 1 });
        };
        found.push(decl)?;
    }
    Ok(found)
}

// The declaration of a name.
fn find<'a>(library: &'a Library, name: &str) -> Option<&'a Decl>
    requires { All (λ d. IsValid (decl_view d)) library.now }
    ensures found { MatchOption result (find name.now (map decl_view library.now) ≡ None)
        (λ d. find name.now (map decl_view library.now) ≡ Some (decl_view d.now)) }
    ensures valid { IfSome result (λ d. IsValid (decl_view d.now)) }
{
    match library.find(name) {
        Some(place) => Some(library.at(place)),
        None => None,
    }
}

// The declarations as formats.
fn judge_all(alloc: Global, found: &[&Decl]) -> Result<Vec<Format>, Status>
    requires few { length found.now ≤ 64 }
    requires valid { All (λ d. IsValid (decl_view d.now)) found.now }
    ensures plain { IsStep (judged_all (map (λ d. decl_view d.now) found.now)) (formats_of result) }
    ensures count { IfOk result (λ v. length v.items ≡ length found.now) }
    ensures refusal { IfErr result IsInnerRefusal }
{
    let mut formats = Vec::new(alloc);
    for (i, decl) in found.iter().enumerate() {
        let format = judge_one(alloc, decl, i as u32 + 1)?;
        formats.push(format)?;
    }
    Ok(formats)
}

// The declaration of the k-th name as a format.
fn judge_one(alloc: Global, decl: &Decl, k: u32) -> Result<Format, Status>
    requires { IsValid (decl_view decl.now) }
    ensures is { IfOk result (λ f. f ≡ decl_view decl.now) }
    ensures accepted { OnOk result (first_refusal (declaration_of (decl_view decl.now)) ≡ None) }
    ensures refused { IfErr result (λ s. IsStep {A = Unit {0}} (judged k (first_refusal (declaration_of (decl_view decl.now)))) (Err s)) }
    ensures refusal { IfErr result IsInnerRefusal }
{
    let copy = decl.copy(alloc)?;
    match judge(alloc, copy) {
        Ok(format) => Ok(format),
        Err(JudgeFault::Refused(why)) => Err(Status::Refused { k, why }),
        Err(JudgeFault::Memory) => Err(Status::Memory),
    }
}
