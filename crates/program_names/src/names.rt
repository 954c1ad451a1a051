//! The names that the declarations of a program declare, and those of their parts.

ghost use Rattle.std.specs.Prelude.{◌≡◌, ◌<◌, [], ◌++◌, true, is_some, vec_len, vec_capacity, OnOk, OnErr};
ghost use Rattle.std.specs.Option.{option_copied};
ghost use Rattle.elastic_ast.specs.Seen.{seen_decl};
ghost use Rattle.elastic_ast.specs.Typing.AskedOfNames.{top_name};
ghost use Rattle.elastic_ast.specs.Packets.MainParts.{main_in};
ghost use Rattle.elastic_ast.specs.Typing.LookUps.{members_in, meta_in};
ghost use Rattle.program_names.specs.Distinct.{are_new};
ghost use Rattle.program_names.specs.TopNames.{KeepsNames, numbers_with, AreNames, AreControls, HasNext, IsNumberGiving, IsNumberOf, IsTableAt, control_numbers, part_names, option_list, number_after};

use crate::name_places::NamePlaces;
use elastic_ast::Decl;
use elx_bits::Name;
use std::alloc::{AllocError, Global};

/// Tables of the names of some declarations: the number of the declaration of each name, the names of the parts of each
/// declaration, and the numbers of `headers_t`, `meta_t`, `main` and the controls.
#[derive(Drop)]
pub struct Names {
    top: NamePlaces,
    numbers: Vec<usize>,
    parts: Vec<NamePlaces>,
    controls: Vec<usize>,
    headers: Option<usize>,
    metadata: Option<usize>,
    main: Option<usize>,
}

/// The name that a declaration puts into the scope of the program.
pub fn name_of(decl: &Decl) -> Option<&Name>
    ensures { option_list (option_copied result) ≡ top_name (seen_decl decl.now) }
{
    match decl {
        Decl::Symbol(name) => Some(name),
        Decl::Const {
            name,
            width: _,
            value: _,
        } => Some(name),
        Decl::Header { name, fields: _ } => Some(name),
        Decl::Register {
            name,
            width: _,
            cells: _,
            size: _,
        } => Some(name),
        Decl::Parser { name, states: _ } => Some(name),
        Decl::Control {
            name,
            locals: _,
            body: _,
        } => Some(name),
        Decl::Deparser { name, emits: _ } => Some(name),
        _ => None,
    }
}

/// The number of the first declaration of a kind, where this is the number of one of that kind.
fn first_number(known: Option<usize>, here: bool, number: usize) -> Option<usize>
    ensures { result ≡ number_after known here number }
{
    match known {
        Some(first) => Some(first),
        None => { if here { Some(number) } else { None } }
    }
}

/// Whether a declaration is that of `headers_t`.
fn is_headers(decl: &Decl) -> bool
    ensures { result ≡ is_some (members_in (seen_decl decl.now)) }
{
    matches!(decl, Decl::Headers(_))
}

/// Whether a declaration is that of `meta_t`.
fn is_metadata(decl: &Decl) -> bool
    ensures { result ≡ is_some (meta_in (seen_decl decl.now)) }
{
    matches!(decl, Decl::Meta(_))
}

/// Whether a declaration is that of `main`.
fn is_main(decl: &Decl) -> bool
    ensures { result ≡ is_some (main_in (seen_decl decl.now)) }
{
    matches!(decl, Decl::Main { .. })
}

/// Adds the number of a declaration, if it is that of a control. There must be room for it.
fn add_control(controls: &mut Vec<usize>, decl: &Decl, number: usize)
    requires { vec_len controls.old < vec_capacity controls.old }
    ensures { controls.new.items ≡ controls.old.items ++ control_numbers decl.now number }
{
    match decl {
        Decl::Control { .. } => controls.push_reserved(number),
        _ => {}
    }
}

/// Adds the name of a declaration with the number of it, if it has a name. For want of memory nothing changes.
fn declare(
    top: &mut NamePlaces,
    numbers: &mut Vec<usize>,
    decl: &Decl,
    number: usize,
) -> Result<(), AllocError>
    requires { are_new top.old (top_name (seen_decl decl.now)) ≡ true }
    ensures top { OnOk result (top.new ≡ top.old ++ top_name (seen_decl decl.now)) }
    ensures numbers { OnOk result (numbers.new.items ≡ numbers.old.items ++ numbers_with decl.now number) }
    ensures top_kept { OnErr result (top.new ≡ top.old) }
    ensures numbers_kept { OnErr result (numbers.new.items ≡ numbers.old.items) }
{
    match name_of(decl) {
        Some(name) => {
            numbers.reserve(1)?;
            top.add(name)?;
            numbers.push_reserved(number);
            Ok(())
        }
        None => Ok(()),
    }
}

impl Names {
    /// Those of no declaration. They take no memory.
    pub fn new(alloc: Global) -> Names
        ensures { AreNames result [] }
    {
        Names {
            top: NamePlaces::new(alloc),
            numbers: Vec::new(alloc),
            parts: Vec::new(alloc),
            controls: Vec::new(alloc),
            headers: None,
            metadata: None,
            main: None,
        }
    }

    /// Goes on behind a declaration with a new name, where these are the names of its parts. For want of memory the tables
    /// are those of the declarations before it.
    pub fn push(&mut self, decl: &Decl, parts: NamePlaces) -> Result<(), AllocError>
        requires fresh { are_new self.old.top (top_name (seen_decl decl.now)) ≡ true }
        requires parts { parts ≡ part_names (seen_decl decl.now) }
        ensures next { OnOk result (HasNext self.old self.new decl.now) }
        ensures kept { OnErr result (KeepsNames self.old self.new) }
    {
        let number = self.parts.as_slice().len();
        self.parts.reserve(1)?;
        self.controls.reserve(1)?;
        declare(&mut self.top, &mut self.numbers, decl, number)?;
        self.parts.push_reserved(parts);
        self.headers = first_number(self.headers, is_headers(decl), number);
        self.metadata = first_number(self.metadata, is_metadata(decl), number);
        self.main = first_number(self.main, is_main(decl), number);
        add_control(&mut self.controls, decl, number);
        Ok(())
    }

    /// The number of the declaration of a name.
    pub fn number_of(&self, name: &Name) -> Option<usize>
        ensures { IsNumberOf self.now name.now result }
    {
        match self.top.find(name) {
            Some(place) => self.numbers.get(place).copied(),
            None => None,
        }
    }

    /// The names of the parts of a declaration.
    pub fn parts_of(&self, number: usize) -> Option<&NamePlaces>
        ensures { IsTableAt self.now number result }
    {
        self.parts.get(number)
    }

    /// The number of the declaration of `headers_t`.
    pub fn headers(&self) -> Option<usize>
        ensures { IsNumberGiving members_in self.now result }
    {
        self.headers
    }

    /// The number of the declaration of `meta_t`.
    pub fn metadata(&self) -> Option<usize>
        ensures { IsNumberGiving meta_in self.now result }
    {
        self.metadata
    }

    /// The number of the declaration of `main`.
    pub fn main(&self) -> Option<usize>
        ensures { IsNumberGiving main_in self.now result }
    {
        self.main
    }

    /// The numbers of the declarations of controls. A program that is typed has one at most.
    pub fn controls(&self) -> &[usize]
        ensures { AreControls self.now result.now }
    {
        self.controls.as_slice()
    }
}
