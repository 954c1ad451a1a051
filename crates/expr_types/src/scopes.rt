//! The names that stand in the scope of the program, after the declarations so far.

ghost use Rattle.std.specs.Prelude.{◌≡◌, None, is_some, slice_get};
ghost use Rattle.std.specs.Option.{option_copied};
ghost use Rattle.elastic_ast.specs.Typing.Scope.{is_symbol as is_symbol_of, found, among};
ghost use Rattle.elastic_ast.specs.Typing.Asked.{field_name};
ghost use Rattle.elastic_ast.specs.Typing.LookUps.{members_in, meta_in, member_name, header_type_in, register_width as register_width_of, register_size as register_size_of, is_member as is_member_of, has_headers as has_headers_of, has_meta, meta_field, action_of, table_of};
ghost use Rattle.elastic_ast.specs.Typing.Types.{constant_width as constant_width_of};
ghost use Rattle.elastic_ast.specs.Packets.MainParts.{parser_in, control_in, deparser_in};
ghost use Rattle.elastic_ast.specs.Typing.AskedOfNames.{top_names};
ghost use Rattle.expr_types.specs.Scoped.{before_of, own_name_breaks, HasNames, StandsUnder, FindsPart, decl_shown, kept_shown, register_kept, part_at, type_fields, member_at, field_of, type_field, header_field};
ghost use Rattle.expr_types.specs.ProgramParts.{action_at, action_shown, locals_at, locals_shown, main_parser, parser_state, state_at, state_of, state_shown, table_at, table_shown};

use crate::names::broken_name;
use elastic_ast::{Action, Amount, Decl, Field, Rule, State, Table};
use elx_bits::Name;
use program_names::{LocalNames, Names, name_of, thing_named};
use std::marker::Model;

/// The declarations of a program, how many of them stand before a place, and tables of the names that these declare.
/// A contract sees the declarations and the number.
#[derive(Drop)]
pub struct Scope<'a> {
    decls: &'a [Decl],
    count: usize,
    names: &'a Names,
}

impl<'a> Model for Scope<'a> {
    ghost use Rattle.std.specs.Prelude.{List, ℕ};
    ghost use Rattle.std.specs.Coded.{coded_list, coded×, coded_ℕ};
    ghost use Rattle.elastic_ast.specs.declared.declarations.Decl.{Decl};
    ghost use Rattle.elastic_ast.specs.contracts.declarations.Decl as decl;
    ghost use Rattle.expr_types.specs.Scoped.{HasNames};

    ghost Value = { List Decl × ℕ };

    ghost coded = { coded× (coded_list decl.the_row.coded) coded_ℕ };

    ghost view = { λ scope. (scope.decls.now, scope.count) };

    ghost invariant = { λ scope. HasNames (scope.decls.now, scope.count) scope.names.now };
}

impl<'a> Scope<'a> {
    /// The scope behind so many declarations, whose names are in the tables.
    pub fn new(decls: &'a [Decl], count: usize, names: &'a Names) -> Scope<'a>
        requires { HasNames (decls.now, count) names.now }
        ensures { result ≡ (decls.now, count) }
    {
        Scope {
            decls,
            count,
            names,
        }
    }

    /// The declaration of a number, if it stands before.
    fn at(&self, number: usize) -> Option<&'a Decl>
        ensures { decl_shown result ≡ slice_get (before_of self.now) number }
    {
        self.decls[..self.count].get(number)
    }

    /// The declaration before of a name.
    fn declared(&self, name: &Name) -> Option<&'a Decl>
        ensures { StandsUnder name.now (before_of self.now) (decl_shown result) }
    {
        match self.names.number_of(name) {
            Some(number) => self.at(number),
            None => None,
        }
    }

    /// The rule that the name of a declaration breaks, if it has one, where it stands next.
    pub fn rule_of_name(&self, allow_reserved: bool, decl: &Decl) -> Option<Rule>
        ensures { result ≡ own_name_breaks allow_reserved self.now decl.now }
    {
        match name_of(decl) {
            Some(name) => broken_name(allow_reserved, self.is_declared(name), name.as_slice()),
            None => None,
        }
    }

    /// Whether one of the declarations before declares a name.
    pub fn is_declared(&self, name: &Name) -> bool
        ensures { result ≡ among (top_names (before_of self.now)) name.now }
    {
        self.declared(name).is_some()
    }

    /// Whether one of the declarations before is that of a symbol with this name.
    pub fn is_symbol(&self, name: &Name) -> bool
        ensures { result ≡ is_symbol_of (before_of self.now) name.now }
    {
        match self.declared(name) {
            Some(Decl::Symbol(_)) => true,
            _ => false,
        }
    }

    /// The width of a constant.
    pub fn constant_width(&self, name: &Name) -> Option<u8>
        ensures { result ≡ constant_width_of (before_of self.now) name.now }
    {
        match self.declared(name) {
            Some(
                Decl::Const {
                    name: _,
                    width,
                    value: _,
                },
            ) => Some(*width),
            _ => None,
        }
    }

    /// The fields of a header type.
    pub fn fields_of_type(&self, name: &Name) -> Option<&'a [Field]>
        ensures { option_copied result ≡ found (header_type_in name.now) (before_of self.now) }
    {
        match self.declared(name) {
            Some(Decl::Header { fields, .. }) => Some(fields.as_slice()),
            _ => None,
        }
    }

    /// The width of a register's cells.
    pub fn register_width(&self, name: &Name) -> Option<u8>
        ensures { result ≡ register_width_of (before_of self.now) name.now }
    {
        match self.declared(name) {
            Some(
                Decl::Register {
                    name: _,
                    width,
                    cells: _,
                    size: _,
                },
            ) => Some(*width),
            _ => None,
        }
    }

    /// The size of a register, which it has where it is an array.
    pub fn register_size(&self, name: &Name) -> Option<&'a Option<Name>>
        ensures { option_copied result ≡ register_size_of (before_of self.now) name.now }
    {
        match self.declared(name) {
            Some(
                Decl::Register {
                    name: _,
                    width: _,
                    cells: _,
                    size,
                },
            ) => Some(size),
            _ => None,
        }
    }

    /// The cells of a register, and their width.
    pub fn register(&self, name: &Name) -> Option<(&'a Amount, u8)>
        ensures { kept_shown result ≡ found (register_kept name.now) (before_of self.now) }
    {
        match self.declared(name) {
            Some(
                Decl::Register {
                    name: _,
                    width,
                    cells,
                    size: _,
                },
            ) => Some((cells, *width)),
            _ => None,
        }
    }

    /// Whether a name is that of a parser.
    pub fn is_parser(&self, name: &Name) -> bool
        ensures { result ≡ is_some (found (parser_in name.now) (before_of self.now)) }
    {
        match self.declared(name) {
            Some(Decl::Parser { .. }) => true,
            _ => false,
        }
    }

    /// Whether a name is that of a control.
    pub fn is_control(&self, name: &Name) -> bool
        ensures { result ≡ is_some (found (control_in name.now) (before_of self.now)) }
    {
        match self.declared(name) {
            Some(Decl::Control { .. }) => true,
            _ => false,
        }
    }

    /// Whether a name is that of a deparser.
    pub fn is_deparser(&self, name: &Name) -> bool
        ensures { result ≡ is_some (found (deparser_in name.now) (before_of self.now)) }
    {
        match self.declared(name) {
            Some(Decl::Deparser { .. }) => true,
            _ => false,
        }
    }

    /// A part of a name, where these are the parts of the declaration of a number.
    fn part_named<T>(&self, number: usize, parts: &'a [T], name: &Name) -> Option<&'a T>
        ensures { FindsPart self.now number parts.now name.now (option_copied result) }
    {
        match self.names.parts_of(number) {
            Some(names) => thing_named(parts, names, name),
            None => None,
        }
    }

    /// A member of `headers_t`, whose declaration has this number.
    fn member_in(&self, number: usize, header: &Name) -> Option<&'a (Name, Name)>
        ensures { option_copied result ≡ part_at members_in member_name self.now number header.now }
    {
        match self.at(number) {
            Some(Decl::Headers(members)) => self.part_named(number, members.as_slice(), header),
            _ => None,
        }
    }

    /// A field of `meta_t`, whose declaration has this number.
    fn metadata_in(&self, number: usize, name: &Name) -> Option<&'a Field>
        ensures { option_copied result ≡ part_at meta_in field_name self.now number name.now }
    {
        match self.at(number) {
            Some(Decl::Meta(fields)) => self.part_named(number, fields.as_slice(), name),
            _ => None,
        }
    }

    /// A field of a header type, whose declaration has this number.
    fn field_in(&self, number: usize, name: &Name) -> Option<&'a Field>
        ensures { option_copied result ≡ part_at type_fields field_name self.now number name.now }
    {
        match self.at(number) {
            Some(Decl::Header { name: _, fields }) => {
                self.part_named(number, fields.as_slice(), name)
            }
            _ => None,
        }
    }

    /// Whether `headers_t` is declared.
    pub fn has_headers(&self) -> bool
        ensures { result ≡ has_headers_of (before_of self.now) }
    {
        match self.names.headers() {
            Some(number) => match self.at(number) {
                Some(Decl::Headers(_)) => true,
                _ => false,
            },
            None => false,
        }
    }

    /// Whether `meta_t` is declared.
    pub fn has_metadata(&self) -> bool
        ensures { result ≡ has_meta (before_of self.now) }
    {
        match self.names.metadata() {
            Some(number) => match self.at(number) {
                Some(Decl::Meta(_)) => true,
                _ => false,
            },
            None => false,
        }
    }

    /// A member of `headers_t`: the name of its type, and its own.
    fn member(&self, header: &Name) -> Option<&'a (Name, Name)>
        ensures { option_copied result ≡ member_at self.now header.now }
    {
        match self.names.headers() {
            Some(number) => self.member_in(number, header),
            None => None,
        }
    }

    /// Whether a name is that of a header.
    pub fn is_member(&self, header: &Name) -> bool
        ensures { result ≡ is_member_of (before_of self.now) header.now }
    {
        self.member(header).is_some()
    }

    /// A field of a header type.
    fn type_field(&self, name: &Name, field: &Name) -> Option<&'a Field>
        ensures { option_copied result ≡ field_of self.now name.now field.now }
    {
        match self.names.number_of(name) {
            Some(number) => self.field_in(number, field),
            None => None,
        }
    }

    /// The width of a field of a header type.
    fn type_field_width(&self, name: &Name, field: &Name) -> Option<u8>
        ensures { result ≡ type_field self.now name.now field.now }
    {
        self.type_field(name, field).map(|field| field.width)
    }

    /// The width of a header's field.
    pub fn header_field_width(&self, header: &Name, field: &Name) -> Option<u8>
        ensures { result ≡ header_field self.now header.now field.now }
    {
        match self.member(header) {
            Some(member) => self.type_field_width(&member.0, field),
            None => None,
        }
    }

    /// A field of the metadata.
    pub fn metadata_field(&self, name: &Name) -> Option<&'a Field>
        ensures { option_copied result ≡ meta_field (before_of self.now) name.now }
    {
        match self.names.metadata() {
            Some(number) => self.metadata_in(number, name),
            None => None,
        }
    }

    /// The actions and tables of a control, whose declaration has this number.
    fn locals_in(&self, number: usize) -> Option<LocalNames<'a>>
        ensures { locals_shown result ≡ locals_at self.now number }
    {
        match self.at(number) {
            Some(Decl::Control { locals, .. }) => match self.names.parts_of(number) {
                Some(names) => Some(LocalNames::new(locals.as_slice(), names)),
                None => None,
            },
            _ => None,
        }
    }

    /// An action of a control, whose declaration has this number.
    fn action_in(&self, number: usize, name: &Name) -> Option<&'a Action>
        ensures { action_shown result ≡ action_at self.now name.now number }
    {
        match self.locals_in(number) {
            Some(locals) => locals.action(name),
            None => None,
        }
    }

    /// A table of a control, whose declaration has this number.
    fn table_in(&self, number: usize, name: &Name) -> Option<&'a Table>
        ensures { table_shown result ≡ table_at self.now name.now number }
    {
        match self.locals_in(number) {
            Some(locals) => locals.table(name),
            None => None,
        }
    }

    /// The action of a name. A program that is typed has one control at most, so that one table is asked.
    pub fn action(&self, name: &Name) -> Option<&'a Action>
        ensures { action_shown result ≡ action_of (before_of self.now) name.now }
    {
        let numbers = self.names.controls();
        for number in numbers {
            match self.action_in(*number, name) {
                Some(action) => return Some(action),
                None => {}
            }
        }
        None
    }

    /// The table of a name.
    pub fn table(&self, name: &Name) -> Option<&'a Table>
        ensures { table_shown result ≡ table_of (before_of self.now) name.now }
    {
        let numbers = self.names.controls();
        for number in numbers {
            match self.table_in(*number, name) {
                Some(table) => return Some(table),
                None => {}
            }
        }
        None
    }

    /// A state of a parser, whose declaration has this number.
    fn state_in(&self, number: usize, name: &Name) -> Option<&'a State>
        ensures { state_shown result ≡ state_at self.now name.now number }
    {
        match self.at(number) {
            Some(Decl::Parser { name: _, states }) => {
                self.part_named(number, states.as_slice(), name)
            }
            _ => None,
        }
    }

    /// A state of the parser of a name.
    fn parser_state(&self, parser: &Name, name: &Name) -> Option<&'a State>
        ensures { state_shown result ≡ parser_state (before_of self.now) parser.now name.now }
    {
        match self.names.number_of(parser) {
            Some(number) => self.state_in(number, name),
            None => None,
        }
    }

    /// The name of the parser that `main` names.
    fn main_parser(&self) -> Option<&'a Name>
        ensures { option_copied result ≡ main_parser (before_of self.now) }
    {
        match self.names.main() {
            Some(number) => match self.at(number) {
                Some(
                    Decl::Main {
                        parser,
                        control: _,
                        deparser: _,
                    },
                ) => Some(parser),
                _ => None,
            },
            None => None,
        }
    }

    /// A state, by its name, of the parser that `main` names.
    pub fn state(&self, name: &Name) -> Option<&'a State>
        ensures { state_shown result ≡ state_of (before_of self.now) name.now }
    {
        match self.main_parser() {
            Some(parser) => self.parser_state(parser, name),
            None => None,
        }
    }
}
