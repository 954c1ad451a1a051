//! The kinds of declarations that may stand once in a program.

ghost use Rattle.std.specs.Prelude.{◌≡◌, []};
ghost use Rattle.elastic_ast.specs.Seen.{seen_decl, seen_decls};
ghost use Rattle.elastic_ast.specs.Typing.Asked.{decl_kind};
ghost use Rattle.width_check.specs.Kinds.{AreKinds, has_all_parts, lacks_kind, with_kind};

use elastic_ast::Decl;

/// Which of these kinds stand among some declarations.
#[derive(Clone, Copy)]
pub struct Kinds {
    utility: bool,
    headers: bool,
    metadata: bool,
    parser: bool,
    control: bool,
    deparser: bool,
    main: bool,
}

impl Kinds {
    /// The kinds of no declaration.
    pub fn new() -> Kinds
        ensures { AreKinds result [] }
    {
        Kinds {
            utility: false,
            headers: false,
            metadata: false,
            parser: false,
            control: false,
            deparser: false,
            main: false,
        }
    }

    /// Whether the kind of a declaration, if it may stand once, isn't among them.
    pub fn lacks(self, decl: &Decl) -> bool
        ensures { result ≡ lacks_kind self (seen_decl decl.now) }
    {
        match decl {
            Decl::Maximize(_) => !self.utility,
            Decl::Headers(_) => !self.headers,
            Decl::Meta(_) => !self.metadata,
            Decl::Parser { .. } => !self.parser,
            Decl::Control { .. } => !self.control,
            Decl::Deparser { .. } => !self.deparser,
            Decl::Main { .. } => !self.main,
            _ => true,
        }
    }

    /// The kinds with that of one declaration more.
    pub fn with(self, decl: &Decl) -> Kinds
        ensures { result ≡ with_kind (decl_kind (seen_decl decl.now)) self }
    {
        match decl {
            Decl::Maximize(_) => Kinds {
                utility: true,
                ..self
            },
            Decl::Headers(_) => Kinds {
                headers: true,
                ..self
            },
            Decl::Meta(_) => Kinds {
                metadata: true,
                ..self
            },
            Decl::Parser { .. } => Kinds {
                parser: true,
                ..self
            },
            Decl::Control { .. } => Kinds {
                control: true,
                ..self
            },
            Decl::Deparser { .. } => Kinds {
                deparser: true,
                ..self
            },
            Decl::Main { .. } => Kinds { main: true, ..self },
            _ => self,
        }
    }

    /// The kinds of some declarations.
    pub fn of(decls: &[Decl]) -> Kinds
        ensures { AreKinds result (seen_decls decls.now) }
    {
        let mut kinds = Kinds::new();
        for decl in decls {
            kinds = kinds.with(decl);
        }
        kinds
    }

    /// Whether `main` is among them.
    pub fn has_main(self) -> bool
        ensures { result ≡ self.main }
    {
        self.main
    }

    /// Whether all is among them that `main` needs.
    pub fn has_parts(self) -> bool
        ensures { result ≡ has_all_parts self }
    {
        self.headers && self.metadata && self.parser && self.control && self.deparser
    }
}
