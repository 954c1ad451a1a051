//! The rules of the whole program: loops of states, registers that are named twice or never, and a missing `main`.

ghost use Rattle.std.specs.Prelude.{◌≡◌, IfOk};
ghost use Rattle.elastic_ast.specs.Seen.{seen_decl, seen_decls};
ghost use Rattle.width_check.specs.Kinds.{AreKinds};
ghost use Rattle.program_names.specs.LocalParts.{seen_states};
ghost use Rattle.width_check.specs.WholeRules.{IsWholeRule, IsParserRule, IsRegisterRule, AreNamed, HasNamedStates, main_rule, parts_rule};

use crate::kinds::Kinds;
use elastic_ast::{Decl, Rule, State};
use elx_bits::Name;
use parser_loops::loops;
use register_uses::RegisterUses;
use std::alloc::{AllocError, Global};

/// What the rules of the whole program ask of a program: which registers its units name, and which kinds of declarations that
/// may stand once it has.
#[derive(Drop)]
pub struct Whole<'a> {
    uses: RegisterUses<'a>,
    kinds: Kinds,
    ghost known: { AreKinds kinds (seen_decls uses) },
}

impl<'a> Whole<'a> {
    /// That of some declarations. The one error is want of memory.
    pub fn of(alloc: Global, decls: &'a [Decl]) -> Result<Whole<'a>, AllocError>
        ensures { IfOk result (λ whole. whole.uses ≡ decls.now) }
    {
        let uses = RegisterUses::of(alloc, decls)?;
        let kinds = Kinds::of(decls);
        Ok(Whole { uses, kinds })
    }

    /// What a parser, a control and a deparser break: there is no `main`.
    fn rule_of_part(&self) -> Option<Rule>
        ensures { result ≡ main_rule (seen_decls self.now.uses) }
    {
        if self.kinds.has_main() {
            None
        } else {
            Some(Rule::NoMain)
        }
    }

    /// What `main` breaks: something is missing that it needs.
    fn rule_of_main(&self) -> Option<Rule>
        ensures { result ≡ parts_rule (seen_decls self.now.uses) }
    {
        if self.kinds.has_parts() {
            None
        } else {
            Some(Rule::NoMain)
        }
    }

    /// What a register breaks.
    fn rule_of_register(&self, register: &Name) -> Option<Rule>
        ensures { IsRegisterRule (seen_decls self.now.uses) register.now result }
    {
        if self.uses.is_named_twice(register) {
            Some(Rule::RegisterTwice)
        } else if self.uses.is_unnamed(register) {
            Some(Rule::RegisterUnused)
        } else {
            None
        }
    }

    /// What a parser breaks.
    fn rule_of_parser(
        &self,
        alloc: Global,
        name: &Name,
        states: &[State],
    ) -> Result<Option<Rule>, AllocError>
        requires { AreNamed (seen_states states.now) }
        ensures { IfOk result (IsParserRule (seen_decls self.now.uses) name.now (seen_states states.now)) }
    {
        if loops(alloc, states)? {
            return Ok(Some(Rule::ParserLoop));
        }
        Ok(self.rule_of_part())
    }

    /// The first rule of the whole program that a declaration breaks. The one error is want of memory.
    pub fn rule_of(&self, alloc: Global, decl: &Decl) -> Result<Option<Rule>, AllocError>
        requires { HasNamedStates (seen_decl decl.now) }
        ensures { IfOk result (IsWholeRule (seen_decls self.now.uses) (seen_decl decl.now)) }
    {
        match decl {
            Decl::Register { name, .. } => Ok(self.rule_of_register(name)),
            Decl::Parser { name, states } => self.rule_of_parser(alloc, name, states.as_slice()),
            Decl::Control { .. } | Decl::Deparser { .. } => Ok(self.rule_of_part()),
            Decl::Main { .. } => Ok(self.rule_of_main()),
            Decl::Include(_)
            | Decl::Symbol(_)
            | Decl::Assume(_)
            | Decl::Maximize(_)
            | Decl::Const { .. }
            | Decl::Header { .. }
            | Decl::Headers(_)
            | Decl::Meta(_) => Ok(None),
        }
    }
}
