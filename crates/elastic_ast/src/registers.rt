//! The registers of a running program.

ghost use Rattle.std.specs.Prelude.{◌≡◌, ◌≢◌, ◌⊎◌, ◌≤◌, ℕ, List, [], ◌∷◌, ◌++◌, length, slice_get, slice_set, IfSome, OnOk, OnErr, Option, Some, None, option_map, if◌then◌else◌};
ghost use Rattle.elastic_ast.specs.Containers.BitWords.{word};
ghost use Rattle.elastic_ast.specs.Containers.KeyHash.{hash_of};
ghost use Rattle.elastic_ast.specs.Containers.RegisterLists.{register_at, cell_at, with_cell_if, is_of_width, same_key, with_register, told_entry, entry_at};
ghost use Rattle.elx_bits.specs.Words.{BitWord};

use crate::chains::Chains;
use crate::key_hash::{HASH_START, hash_bytes, hash_number};
use elx_bits::{Bits, Name};
use std::alloc::{AllocError, Global};
use std::marker::Model;

/// A register: an array of values of one width.
#[derive(Drop)]
struct Held {
    name: Name,
    index: Option<u32>,
    width: u8,
    cells: Vec<u128>,
}

impl Held {
    /// Whether it has this name and index.
    fn is(&self, name: &Name, index: Option<u32>) -> bool
        ensures { result ≡ same_key (name.now, index) (self.now.name, self.now.index) }
    {
        self.index == index && self.name.as_slice() == name.as_slice()
    }
}

/// The registers of a program. A contract sees them as the list of names, indices, widths and values. An index is None
/// for what isn't an element of an array.
#[derive(Drop)]
pub struct Registers {
    alloc: Global,
    list: Vec<Held>,
    chains: Chains,
}

impl Model for Registers {
    ghost use Rattle.std.specs.Prelude.{List};
    ghost use Rattle.elastic_ast.specs.Containers.RegisterLists.{Register};

    ghost Value = { List Register };

    ghost use Rattle.elastic_ast.specs.Containers.KeptRegisters.{registers_of, Kept};

    ghost view = { λ registers. registers_of registers.list.items };

    ghost invariant = { λ registers. Kept registers.chains (registers_of registers.list.items) };
}

impl Registers {
    /// No registers. It takes no memory.
    pub fn new(alloc: Global) -> Registers
        ensures { result ≡ [] }
    {
        Registers {
            alloc,
            list: Vec::new(alloc),
            chains: Chains::new(alloc),
        }
    }

    /// Appends a register whose cells are all 0. For want of memory the registers stay.
    pub fn put(
        &mut self,
        name: Name,
        index: Option<u32>,
        width: u8,
        cells: u32,
    ) -> Result<(), AllocError>
        requires positive { 1 ≤ width }
        requires within { width ≤ 128 }
        requires absent { register_at self.old name index ≡ None }
        ensures ok { OnOk result (self.new ≡ with_register self.old name index width cells) }
        ensures err { OnErr result (self.new ≡ self.old) }
    {
        let cells = vec![in self.alloc; 0u128; cells as usize]?;
        self.list.reserve(1)?;
        self.chains.push(key_hash(&name, index))?;
        self.list.push_reserved(Held {
            name,
            index,
            width,
            cells,
        });
        Ok(())
    }

    /// How many registers there are.
    pub fn len(&self) -> usize
        ensures { result ≡ length self.now }
    {
        self.list.len()
    }

    /// The place of the register with this name and index.
    pub fn find(&self, name: &Name, index: Option<u32>) -> Option<usize>
        ensures { result ≡ register_at self.now name.now index }
    {
        let list = self.list.as_slice();
        self.chains
            .find(key_hash(name, index), |place| list[place].is(name, index))
    }

    /// The name, the index, the width and the number of cells of the register at a place, which is the only one with this
    /// name and index.
    pub fn entry(&self, place: usize) -> Option<(&Name, Option<u32>, u8, u32)>
        ensures entry { option_map told_entry result ≡ entry_at self.now place }
        ensures width { IfSome result (λ e. (1 ≤ e.2) × (e.2 ≤ 128)) }
        ensures only { IfSome result (λ e. register_at self.now e.0.now e.1 ≡ Some place) }
    {
        if place >= self.list.len() {
            return None;
        }
        let held = &self.list[place];
        Some((&held.name, held.index, held.width, held.cells.len() as u32))
    }

    /// The value of a cell.
    pub fn load(&self, place: usize, cell: u32) -> Option<Bits>
        ensures { option_map word result ≡ cell_at self.now place cell }
    {
        let cell = cell as usize;
        if place >= self.list.len() {
            return None;
        }
        let held = &self.list[place];
        if cell >= held.cells.len() {
            return None;
        }
        Some(Bits {
            width: held.width,
            value: held.cells[cell],
        })
    }

    /// Writes a value into a cell. Where the cell isn't there or has another width nothing changes, and the answer is
    /// false.
    pub fn store(&mut self, place: usize, cell: u32, value: Bits) -> bool
        ensures there { result ≡ is_of_width (cell_at self.old place cell) value.width }
        ensures now { self.new ≡ with_cell_if result self.old place cell value.value }
    {
        let cell = cell as usize;
        if place >= self.list.len() {
            return false;
        }
        let held = &mut self.list[place];
        if held.width != value.width || cell >= held.cells.len() {
            return false;
        }
        held.cells[cell] = value.value;
        true
    }
}

/// The hash of a name and an index.
fn key_hash(name: &Name, index: Option<u32>) -> u64
    ensures { result ≡ hash_of (name.now, index) }
{
    let number = match index {
        None => 0,
        Some(index) => u64::from(index) + 1,
    };
    hash_number(hash_bytes(HASH_START, name.as_slice()), number)
}
