//! A walk over the declarations of a program, which keeps the names that they declare.

ghost use Rattle.std.specs.Prelude.{◌≡◌, ◌+◌, Some, true, slice_get, OnOk, OnErr};
ghost use Rattle.elastic_ast.specs.Seen.{seen_decl};
ghost use Rattle.elastic_ast.specs.Typing.AskedOfNames.{top_name, top_names};
ghost use Rattle.elastic_ast.specs.Typing.Asked.{is_first as is_first_of};
ghost use Rattle.program_names.specs.Distinct.{are_new};
ghost use Rattle.program_names.specs.TopNames.{part_names};
ghost use Rattle.expr_types.specs.Scoped.{before_of, HasNames};

use crate::kinds::Kinds;
use elastic_ast::Decl;
use expr_types::Scope;
use program_names::{NamePlaces, Names};
use std::alloc::{AllocError, Global};
use std::marker::Model;

/// The declarations of a program, how many of them the walk has passed, and what these declare. A contract sees the
/// declarations and the number.
#[derive(Drop)]
pub struct Walk<'a> {
    decls: &'a [Decl],
    count: usize,
    kinds: Kinds,
    names: Names,
}

impl<'a> Model for Walk<'a> {
    ghost use Rattle.std.specs.Prelude.{List, ℕ};
    ghost use Rattle.std.specs.Coded.{coded_list, coded×, coded_ℕ};
    ghost use Rattle.elastic_ast.specs.declared.declarations.Decl.{Decl};
    ghost use Rattle.elastic_ast.specs.contracts.declarations.Decl as decl;
    ghost use Rattle.width_check.specs.Walked.{HasPassed};

    ghost Value = { List Decl × ℕ };

    ghost coded = { coded× (coded_list decl.the_row.coded) coded_ℕ };

    ghost view = { λ walk. (walk.decls.now, walk.count) };

    ghost invariant = { λ walk. HasPassed (walk.decls.now, walk.count) walk.kinds walk.names };
}

impl<'a> Walk<'a> {
    /// The walk before the first of some declarations.
    pub fn new(alloc: Global, decls: &'a [Decl]) -> Walk<'a>
        ensures { result ≡ (decls.now, 0) }
    {
        Walk {
            decls,
            count: 0,
            kinds: Kinds::new(),
            names: Names::new(alloc),
        }
    }

    /// The scope behind the declarations that were passed.
    pub fn scope(&self) -> Scope<'_>
        ensures { result ≡ self.now }
    {
        Scope::new(self.decls, self.count, &self.names)
    }

    /// Whether a declaration, if it may stand once in a program, is the first of its kind.
    pub fn is_first(&self, decl: &Decl) -> bool
        ensures { result ≡ is_first_of (before_of self.now) (seen_decl decl.now) }
    {
        // A field is named, so that what holds of the fields is known.
        let _ = &self.decls;
        self.kinds.lacks(decl)
    }

    /// Passes the next declaration, whose name is new, and which has parts of these names. For want of memory it stays.
    pub fn pass(&mut self, decl: &Decl, parts: NamePlaces) -> Result<(), AllocError>
        requires here { slice_get self.old.0 self.old.1 ≡ Some decl.now }
        requires fresh { are_new (top_names (before_of self.old)) (top_name (seen_decl decl.now)) ≡ true }
        requires parts { parts ≡ part_names (seen_decl decl.now) }
        ensures passed { OnOk result (self.new ≡ (self.old.0, self.old.1 + 1)) }
        ensures kept { OnErr result (self.new ≡ self.old) }
    {
        self.names.push(decl, parts)?;
        self.kinds = self.kinds.with(decl);
        self.count += 1;
        Ok(())
    }

    /// The names of the declarations that were passed.
    pub fn names(self) -> Names
        ensures { HasNames self.entry result }
    {
        self.names
    }
}
