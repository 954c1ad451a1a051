/// What a stage of the target has a limit of.
#[derive(Clone, Copy, Debug, PartialEq, Eq)]
pub enum Resource {
    /// Registers.
    Stateful,
    /// Locations that are assigned.
    Stateless,
    /// Bits of registers.
    Memory,
    /// Bits of tables whose keys are all exact.
    TableBits,
    /// Bits of the other tables.
    TernaryBits,
}
