//! Declarations in order.

ghost use Rattle.std.specs.Prelude.{◌≡◌, ◌<◌, [], ◌∷◌, ◌++◌, false, length, MatchOption, OnOk, slice_get, Some};
ghost use Rattle.us_decl.specs.Names.{number_of};
ghost use Rattle.us_decl.specs.Names.{is_among};
ghost use Rattle.us_decl.specs.Views.{decl_names};

use crate::decl::Decl;
use crate::name::Name;
use indexmap::IndexMap;
use std::alloc::{AllocError, Global};
use std::marker::Model;

/// Declarations in order, no two of one name. Contracts see it as their list.
#[derive(Debug, Drop)]
pub struct Library {
    decls: IndexMap<String, Decl>,
}

impl Model for Library {
    ghost use Rattle.std.specs.Prelude.{◌≡◌, List, map, string_bytes};
    ghost use Rattle.indexmap.specs.IndexMap.{keys, values};
    ghost use Rattle.us_decl.specs.declared.decl.Decl.{Decl};
    ghost use Rattle.us_decl.specs.Views.{decl_names};

    ghost Value = { List Decl };

    ghost use Rattle.std.specs.Coded.{codes};
    ghost use Rattle.us_expr.specs.contracts.expression.Expr as expr;

    ghost coded = { Prim.hlevel (codes, expr.the_row.coded) };

    ghost view = { λ l. values l.decls };

    ghost invariant = { λ l. map string_bytes (keys l.decls) ≡ decl_names (values l.decls) };
}

impl Library {
    /// No declaration.
    pub fn new(alloc: Global) -> Library
        ensures { result ≡ [] }
    {
        Library {
            decls: IndexMap::new(alloc),
        }
    }

    /// How many declarations there are.
    pub fn count(&self) -> usize
        ensures { result ≡ length self.now }
    {
        self.decls.len()
    }

    /// The place of the declaration of this name, if there is one.
    pub fn find(&self, name: &str) -> Option<usize>
        ensures { MatchOption result (number_of name.now (decl_names self.now) ≡ length self.now) (λ k. (k ≡ number_of name.now (decl_names self.now)) × (k < length self.now)) }
    {
        self.decls.get_index_of(name)
    }

    /// Whether there is a declaration of this name.
    pub fn has(&self, name: &Name) -> bool
        ensures { result ≡ is_among name.now (decl_names self.now) }
    {
        self.find(name.as_str()).is_some()
    }

    /// The declaration at a place.
    pub fn at(&self, k: usize) -> &Decl
        requires { k < length self.now }
        ensures { slice_get self.now k ≡ Some result.now }
    {
        &self.decls[k]
    }

    /// One more declaration, of a new name.
    pub fn push(&mut self, decl: Decl) -> Result<(), AllocError>
        requires { is_among decl.name (decl_names self.old) ≡ false }
        ensures { OnOk result (self.new ≡ self.old ++ decl ∷ []) }
    {
        let name = String::from_str(*self.decls.allocator(), decl.name.as_str())?;
        self.decls.insert(name, decl)?;
        Ok(())
    }
}
