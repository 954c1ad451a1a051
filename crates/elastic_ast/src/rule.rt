/// A rule of types that a program can break.
#[derive(Clone, Copy, Debug, PartialEq, Eq)]
pub enum Rule {
    /// A name isn't declared earlier as the kind of thing that its place asks for.
    UnknownName,
    /// A name is declared twice in one scope, a fixed name is declared, or what stands once stands twice.
    Twice,
    /// A width isn't 1 to 128, or two widths differ that must be one.
    Width,
    /// An operand needs a width and has none.
    NoWidth,
    /// A number isn't below 2 to its width.
    LiteralTooWide,
    /// A boolean stands where bits are needed, or bits where a boolean is.
    NotBool,
    /// A name stands for a constant and isn't one.
    NotConst,
    /// An array or an indexed action is used with another index than its own.
    BadIndex,
    /// A constant number of cells or a constant modulus isn't 1 to 1000000000.
    BadAmount,
    /// A number in `assume` or `maximize` is above 1000000000, or there are too many terms or keys, or keys don't rise.
    BadTerm,
    /// A slice isn't `low <= high < width`.
    BadSlice,
    /// A header's bits are no whole number of bytes.
    OddHeader,
    /// A loop stands in a loop.
    NestedLoop,
    /// Two units name one register, or one unit names two.
    RegisterTwice,
    /// No unit names a register.
    RegisterUnused,
    /// An action of a table names a register.
    RegisterInTable,
    /// An exact key's set isn't one number, the number of sets isn't that of the keys, or a `select` is over what has no width.
    BadKey,
    /// A table's entries, size or actions don't fit one another.
    BadEntries,
    /// A call has another number of arguments than its action.
    BadCall,
    /// A state of the parser can reach itself, or there is no state `start`.
    ParserLoop,
    /// A declared name has `__` in it.
    ReservedName,
    /// The parts of a pipeline are declared without `main`, or `main` without its parts.
    NoMain,
}
