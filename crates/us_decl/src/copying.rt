//! Copies of declarations.

ghost use Rattle.std.specs.Prelude.{◌≡◌, IfOk};

use crate::decl::{
    Body, Conds, Decl, Head, Levels, Names, Numbers, Pack, Packs, Part, Parts, Queries,
};
use crate::name::Name;
use std::alloc::{AllocError, Global};
use us_expr::{Expr, Query};

impl Decl {
    /// An equal declaration.
    pub fn copy(&self, alloc: Global) -> Result<Decl, AllocError>
        ensures { IfOk result (λ d. d ≡ self.now) }
    {
        let body = match &self.body {
            Body::One(part) => Body::One(copy_part(alloc, part)?),
            Body::Split { head, parts } => Body::Split {
                head: copy_head(alloc, head)?,
                parts: copy_parts(alloc, parts.as_slice())?,
            },
        };
        Ok(Decl {
            name: self.name.copy(),
            body,
        })
    }
}

fn copy_head(alloc: Global, head: &Head) -> Result<Head, AllocError>
    ensures { IfOk result (λ h. h ≡ head.now) }
{
    Ok(Head {
        names: copy_names(alloc, head.names.as_slice())?,
        queries: copy_queries(alloc, head.queries.as_slice())?,
        conds: Conds::from_slice(alloc, head.conds.as_slice())?,
    })
}

fn copy_parts(alloc: Global, parts: &[Part]) -> Result<Parts, AllocError>
    ensures { IfOk result (λ c. c ≡ parts.now) }
{
    let mut copy = Parts::new(alloc);
    for part in parts {
        copy.push(copy_part(alloc, part)?)?;
    }
    Ok(copy)
}

fn copy_part(alloc: Global, part: &Part) -> Result<Part, AllocError>
    ensures { IfOk result (λ p. p ≡ part.now) }
{
    Ok(Part {
        names: copy_names(alloc, part.names.as_slice())?,
        queries: copy_queries(alloc, part.queries.as_slice())?,
        levels: copy_levels(alloc, part.levels.as_slice())?,
        trim: Numbers::from_slice(alloc, part.trim.as_slice())?,
        merge: Numbers::from_slice(alloc, part.merge.as_slice())?,
        packs: copy_packs(alloc, part.packs.as_slice())?,
    })
}

fn copy_names(alloc: Global, names: &[Name]) -> Result<Names, AllocError>
    ensures { IfOk result (λ c. c ≡ names.now) }
{
    let mut copy = Names::new(alloc);
    for name in names {
        copy.push(name.copy())?;
    }
    Ok(copy)
}

fn copy_queries(alloc: Global, queries: &[Query]) -> Result<Queries, AllocError>
    ensures { IfOk result (λ c. c ≡ queries.now) }
{
    let mut copy = Queries::new(alloc);
    for query in queries {
        copy.push(query.copy(alloc)?)?;
    }
    Ok(copy)
}

fn copy_levels(alloc: Global, levels: &[Expr]) -> Result<Levels, AllocError>
    ensures { IfOk result (λ c. c ≡ levels.now) }
{
    let mut copy = Levels::new(alloc);
    for level in levels {
        copy.push(level.copy(alloc)?)?;
    }
    Ok(copy)
}

fn copy_packs(alloc: Global, packs: &[Pack]) -> Result<Packs, AllocError>
    ensures { IfOk result (λ c. c ≡ packs.now) }
{
    let mut copy = Packs::new(alloc);
    for pack in packs {
        copy.push(Pack::from_slice(alloc, pack.as_slice())?)?;
    }
    Ok(copy)
}
