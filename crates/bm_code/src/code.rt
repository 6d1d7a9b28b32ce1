// A program for the machine.

use bm_isa::Instr;
use c_types::{Sequence, TyId, TypeTable};
use lu_base::{Bytes8, Name};

/// A function.
#[derive(Drop)]
pub struct MachineFunction {
    /// The number of its name; that of no name for a hidden function.
    pub name: u32,
    /// The number of its signature.
    pub signature: u32,
    /// How many locals it has, its parameters included.
    pub locals: u32,
    /// How many words its operand stack may have.
    pub height: u32,
    pub code: Sequence<Instr>,
}

/// A global variable.
#[derive(Drop)]
pub struct MachineGlobal {
    /// The number of its name.
    pub name: u32,
    pub ty: TyId,
    /// Its initial bytes.
    pub bytes: Bytes8,
}

/// An allocation in the program's text.
#[derive(Drop)]
pub struct MachineSite {
    /// The number of the function in which it stands.
    pub function: u32,
    /// How many allocations stand before it in that function.
    pub ordinal: u32,
    /// The type of the elements that it allocates.
    pub elem: TyId,
}

/// A program. Names, types, functions, globals and sites go by their numbers in these lists.
#[derive(Drop)]
pub struct MachineCode {
    pub names: Sequence<Name>,
    pub types: TypeTable,
    pub functions: Sequence<MachineFunction>,
    pub globals: Sequence<MachineGlobal>,
    pub sites: Sequence<MachineSite>,
    /// How many hidden functions there are, which stand last.
    pub filters: u32,
}
