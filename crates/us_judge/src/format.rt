//! Formats: declarations that break no rule.
ghost use Rattle.std.specs.Prelude.{◌≡◌, ◌<◌, ◌≤◌, ◌-◌, [], ◌∷◌, None, map, length, IfOk, OnOk, IfErr};
ghost use Rattle.us_format.specs.Kinds.{kind};
ghost use Rattle.std.specs.List.{sum_by};
ghost use Rattle.us_format.specs.Reading.{buffer_count, total_count};
ghost use Rattle.us_decl.specs.Declares.{IsValid};
ghost use Rattle.us_decl.specs.Views.{decl_view};
ghost use Rattle.us_judge.specs.Acceptance.{first_refusal, parts_refusal};
ghost use Rattle.us_judge.specs.Causes.{Explains};
ghost use Rattle.us_judge.specs.Format.{part_at};
ghost use Rattle.us_judge.specs.Kinds.{kinds_of};
ghost use Rattle.us_judge.specs.Plans.{plan_for};
ghost use Rattle.us_judge.specs.Short.{IsShort, AreShort, IsShortDeclaration};
ghost use Rattle.us_judge.specs.Views.{declaration_of, plain_part, plain_head, plain_body};

use crate::buffers::buffer_count;
use crate::head::head_refusal;
use crate::kinds::{Kinds, copy_kinds};
use crate::part::{judge_part, refuse};
use crate::plans::{copy_plans, plans_of};
use crate::refusal::JudgeFault;
use sqlite_items::Items;
use std::alloc::{AllocError, Global};
use std::marker::Model;
use us_decl::{Body, Decl, Head, Part};
use us_format::Kind;
use us_invert::RecoveryPlan;

/// A valid declaration that breaks no rule. Contracts see it as what the declaration declares.
#[derive(Debug, Drop)]
pub struct Format {
    decl: Decl,
    kinds: Items<Kinds>,
    plans: Items<RecoveryPlan>,
}

impl Model for Format {
    ghost use Rattle.us_decl.specs.Declares.{Declared};
    ghost use Rattle.us_decl.specs.Views.{decl_view};
    ghost use Rattle.us_judge.specs.Code.{declared_code};
    ghost use Rattle.us_judge.specs.Format.{IsFormat};

    ghost Value = { Declared };

    ghost coded = { declared_code };

    ghost view = { λ f. decl_view f.decl };

    ghost invariant = { λ f. IsFormat f.decl f.kinds f.plans };
}

/// Judges an undivided declaration.
fn judge_one(alloc: Global, part: &Part) -> Result<Items<Kinds>, JudgeFault>
    requires { IsShort (plain_part part.now) }
    ensures kinds { IfOk result (λ kinds. kinds ≡ kinds_of (plain_part part.now) ∷ []) }
    ensures accepted { OnOk result (first_refusal (plain_body (Body.One part.now)) ≡ None) }
    ensures refused { IfErr result (λ fault. Explains fault (first_refusal (plain_body (Body.One part.now)))) }
{
    let kinds = judge_part(alloc, part, 1)?;
    let mut all = Items::new(alloc);
    all.push(kinds)?;
    Ok(all)
}

/// Judges the parts of a divided declaration, which are numbered from 1.
fn judge_parts(alloc: Global, parts: &[Part]) -> Result<Items<Kinds>, JudgeFault>
    requires few { length parts.now ≤ 4 }
    requires short { AreShort (map plain_part parts.now) }
    ensures kinds { IfOk result (λ kinds. kinds ≡ map kinds_of (map plain_part parts.now)) }
    ensures accepted { OnOk result (parts_refusal 1 (map plain_part parts.now) ≡ None) }
    ensures refused { IfErr result (λ fault. Explains fault (parts_refusal 1 (map plain_part parts.now))) }
{
    let mut all = Items::new(alloc);
    for (k, part) in parts.iter().enumerate() {
        let kinds = judge_part(alloc, part, k as u8 + 1)?;
        all.push(kinds)?;
    }
    Ok(all)
}

/// Judges a divided declaration.
fn judge_divided(alloc: Global, head: &Head, parts: &[Part]) -> Result<Items<Kinds>, JudgeFault>
    requires head { length head.now.queries ≤ 16 }
    requires conds { length head.now.conds ≤ 3 }
    requires few { length parts.now ≤ 4 }
    requires short { AreShort (map plain_part parts.now) }
    ensures kinds { IfOk result (λ kinds. kinds ≡ map kinds_of (map plain_part parts.now)) }
    ensures accepted { OnOk result (first_refusal (plain_body (Body.Split head.now parts.now)) ≡ None) }
    ensures refused { IfErr result (λ fault. Explains fault (first_refusal (plain_body (Body.Split head.now parts.now)))) }
{
    refuse(head_refusal(head))?;
    judge_parts(alloc, parts)
}

/// The kinds of all levels of a declaration, if it breaks no rule.
fn judge_body(alloc: Global, body: &Body) -> Result<Items<Kinds>, JudgeFault>
    requires { IsShortDeclaration (plain_body body.now) }
    ensures kinds { IfOk result (λ kinds. kinds ≡ map kinds_of (plain_body body.now).parts) }
    ensures accepted { OnOk result (first_refusal (plain_body body.now) ≡ None) }
    ensures refused { IfErr result (λ fault. Explains fault (first_refusal (plain_body body.now))) }
{
    match body {
        Body::One(part) => judge_one(alloc, part),
        Body::Split { head, parts } => judge_divided(alloc, head, parts.as_slice()),
    }
}

/// The kinds of all levels of a valid declaration, if it breaks no rule.
fn judge_declaration(alloc: Global, decl: &Decl) -> Result<Items<Kinds>, JudgeFault>
    requires { IsValid (decl_view decl.now) }
    ensures kinds { IfOk result (λ kinds. kinds ≡ map kinds_of (declaration_of (decl_view decl.now)).parts) }
    ensures accepted { OnOk result (first_refusal (declaration_of (decl_view decl.now)) ≡ None) }
    ensures refused { IfErr result (λ fault. Explains fault (first_refusal (declaration_of (decl_view decl.now)))) }
{
    judge_body(alloc, &decl.body)
}

/// The plans of the parts of an accepted declaration.
fn plans_of_accepted(alloc: Global, decl: &Decl) -> Result<Items<RecoveryPlan>, AllocError>
    requires valid { IsValid (decl_view decl.now) }
    requires accepted { first_refusal (declaration_of (decl_view decl.now)) ≡ None }
    ensures { IfOk result (λ plans. plans ≡ map plan_for (declaration_of (decl_view decl.now)).parts) }
{
    plans_of(alloc, &decl.body)
}

/// What is made of an accepted declaration: the kinds of its levels, and the plans of its parts.
#[derive(Drop)]
struct Judgement {
    kinds: Items<Kinds>,
    plans: Items<RecoveryPlan>,
}

/// The kinds and the plans of a valid declaration, if it breaks no rule.
fn judge_all(alloc: Global, decl: &Decl) -> Result<Judgement, JudgeFault>
    requires { IsValid (decl_view decl.now) }
    ensures kinds { IfOk result (λ made. made.kinds ≡ map kinds_of (declaration_of (decl_view decl.now)).parts) }
    ensures plans { IfOk result (λ made. made.plans ≡ map plan_for (declaration_of (decl_view decl.now)).parts) }
    ensures accepted { OnOk result (first_refusal (declaration_of (decl_view decl.now)) ≡ None) }
    ensures refused { IfErr result (λ fault. Explains fault (first_refusal (declaration_of (decl_view decl.now)))) }
{
    let kinds = judge_declaration(alloc, decl)?;
    let plans = plans_of_accepted(alloc, decl)?;
    Ok(Judgement { kinds, plans })
}

/// The format of a valid declaration, if it breaks no rule; else the first part that breaks one, the lowest rule that
/// it breaks and the first item that breaks this rule. There is no other way to make a format.
pub fn judge(alloc: Global, decl: Decl) -> Result<Format, JudgeFault>
    requires { IsValid (decl_view decl) }
    ensures is { IfOk result (λ f. f ≡ decl_view decl) }
    ensures accepted { OnOk result (first_refusal (declaration_of (decl_view decl)) ≡ None) }
    ensures refused { IfErr result (λ fault. Explains fault (first_refusal (declaration_of (decl_view decl)))) }
{
    match judge_all(alloc, &decl) {
        Ok(Judgement { kinds, plans }) => Ok(Format { decl, kinds, plans }),
        Err(fault) => Err(fault),
    }
}

/// How many buffers these parts have, whose levels have these kinds.
fn count_parts(parts: &[Part], kinds: &[Kinds]) -> usize
    requires kinds { kinds.now ≡ map kinds_of (map plain_part parts.now) }
    requires few { length parts.now ≤ 4 }
    requires short { AreShort (map plain_part parts.now) }
    ensures { result ≡ sum_by buffer_count (map plain_part parts.now) }
{
    let mut count = 0;
    for (k, part) in parts.iter().enumerate() {
        count += buffer_count(part, kinds[k].as_slice());
    }
    count
}

/// How many buffers the parts of a body have, whose levels have these kinds.
fn count_all(body: &Body, kinds: &[Kinds]) -> usize
    requires kinds { kinds.now ≡ map kinds_of (plain_body body.now).parts }
    requires short { IsShortDeclaration (plain_body body.now) }
    ensures { result ≡ total_count (plain_body body.now) }
{
    match body {
        Body::One(part) => buffer_count(part, kinds[0].as_slice()),
        Body::Split { parts, .. } => count_parts(parts.as_slice(), kinds),
    }
}

/// The part of a body with this number, counted from 1.
fn part_of(body: &Body, part: usize) -> &Part
    requires from_one { 1 ≤ part }
    requires part { part ≤ length (plain_body body.now).parts }
    ensures { plain_part result.now ≡ part_at (plain_body body.now) (part - 1) }
{
    match body {
        Body::One(one) => one,
        Body::Split { parts, .. } => &parts.as_slice()[part - 1],
    }
}

impl Format {
    /// The declaration.
    pub fn decl(&self) -> &Decl
        ensures is { decl_view result.now ≡ self.now }
        ensures valid { IsValid self.now }
        ensures accepted { first_refusal (declaration_of self.now) ≡ None }
    {
        &self.decl
    }

    /// How many parts there are: one, or two to four of a divided declaration. They are counted from 1.
    pub fn parts(&self) -> usize
        ensures { result ≡ length (declaration_of self.now).parts }
    {
        self.kinds.len()
    }

    /// The part with this number, counted from 1.
    pub fn part(&self, part: usize) -> &Part
        requires from_one { 1 ≤ part }
        requires part { part ≤ length (declaration_of self.now).parts }
        ensures is { plain_part result.now ≡ part_at (declaration_of self.now) (part - 1) }
        ensures valid { IsValid self.now }
        ensures accepted { first_refusal (declaration_of self.now) ≡ None }
    {
        part_of(&self.decl().body, part)
    }

    /// The first part. Each format has one.
    pub fn first_part(&self) -> &Part
        ensures is { plain_part result.now ≡ part_at (declaration_of self.now) 0 }
        ensures valid { IsValid self.now }
        ensures accepted { first_refusal (declaration_of self.now) ≡ None }
    {
        part_of(&self.decl().body, 1)
    }

    /// How many levels a part has, the parts being counted from 1.
    pub fn levels(&self, part: usize) -> usize
        requires from_one { 1 ≤ part }
        requires part { part ≤ length (declaration_of self.now).parts }
        ensures { result ≡ length (part_at (declaration_of self.now) (part - 1)).levels }
    {
        self.kinds(part).len()
    }

    /// The kind of a level of a part. The parts are counted from 1, the levels from 0.
    pub fn kind(&self, part: usize, level: usize) -> Kind
        requires from_one { 1 ≤ part }
        requires part { part ≤ length (declaration_of self.now).parts }
        requires level { level < length (part_at (declaration_of self.now) (part - 1)).levels }
        ensures { result ≡ kind (part_at (declaration_of self.now) (part - 1)) level }
    {
        self.kinds(part)[level]
    }

    /// The kinds of the levels of a part, the parts being counted from 1.
    pub fn kinds(&self, part: usize) -> &[Kind]
        requires from_one { 1 ≤ part }
        requires part { part ≤ length (declaration_of self.now).parts }
        ensures { result.now ≡ kinds_of (part_at (declaration_of self.now) (part - 1)) }
    {
        self.kinds.as_slice()[part - 1].as_slice()
    }

    /// The plan by which the indices of a part's entries are recovered, the parts being counted from 1.
    pub fn plan(&self, part: usize) -> &RecoveryPlan
        requires from_one { 1 ≤ part }
        requires part { part ≤ length (declaration_of self.now).parts }
        ensures { result.now ≡ plan_for (part_at (declaration_of self.now) (part - 1)) }
    {
        &self.plans.as_slice()[part - 1]
    }

    /// How many buffers a part has, the parts being counted from 1.
    pub fn part_buffers(&self, part: usize) -> usize
        requires from_one { 1 ≤ part }
        requires part { part ≤ length (declaration_of self.now).parts }
        ensures count { result ≡ buffer_count (part_at (declaration_of self.now) (part - 1)) }
        ensures few { result ≤ 81 }
    {
        buffer_count(self.part(part), self.kinds(part))
    }

    /// How many buffers the format has.
    pub fn buffers(&self) -> usize
        ensures { result ≡ total_count (declaration_of self.now) }
    {
        count_all(&self.decl.body, self.kinds.as_slice())
    }

    /// An equal format.
    pub fn copy(&self, alloc: Global) -> Result<Format, AllocError>
        ensures { IfOk result (λ f. f ≡ self.now) }
    {
        let kinds = copy_kinds(alloc, self.kinds.as_slice())?;
        let plans = copy_plans(alloc, self.plans.as_slice())?;
        let decl = self.decl.copy(alloc)?;
        Ok(Format { decl, kinds, plans })
    }
}
