// What code is made for, and how it grows.

ghost use Rattle.std.specs.Prelude.{◌≡◌, ◌+◌, ◌++◌, ◌∷◌, [], length, slice_get, IfOk, OnOk};
ghost use Rattle.cg_expr.specs.Pieces as pieces;
ghost use Rattle.cg_expr.specs.Code.{address_in};

use bm_isa::Instr;
use c_types::{Ty, TyId, TypeTable};
use lu_base::Memory;
use src_tree::program::Program;

/// A program, and the addresses of its globals.
#[derive(Clone, Copy)]
pub struct Target<'a> {
    pub program: &'a Program,
    pub starts: &'a [u32],
}

/// The bytes of a pointer.
pub fn pointer_size(types: &TypeTable) -> u32
    ensures { result ≡ pieces.pointer_size types.now }
{
    types.pointer()
}

/// The type of a number; none where there is no such type.
pub fn type_of(types: &TypeTable, number: TyId) -> Option<Ty>
    ensures { result ≡ slice_get types.now.types number }
{
    types.parts().find_type(number)
}

/// The bytes of a type; 0 where there is no such type.
pub fn size_of(types: &TypeTable, number: TyId) -> u32
    ensures { result ≡ pieces.type_size types.now number }
{
    types.size_of(number)
}

/// The address of a global; 0 where there is no such one.
pub fn start_of(starts: &[u32], global: u32) -> u32
    ensures { result ≡ address_in starts.now global }
{
    match starts.get(global as usize) {
        Some(address) => *address,
        None => 0,
    }
}

/// One more instruction. After an error the code is to be dropped.
pub fn put(code: &mut Vec<Instr>, instr: Instr) -> Result<(), Memory>
    ensures { OnOk result (code.new.items ≡ code.old.items ++ instr ∷ []) }
{
    code.push(instr)?;
    Ok(())
}

/// More instructions. After an error the code is to be dropped.
pub fn put_all(code: &mut Vec<Instr>, instrs: &[Instr]) -> Result<(), Memory>
    ensures { OnOk result (code.new.items ≡ code.old.items ++ instrs.now) }
{
    code.extend_from_slice(instrs)?;
    Ok(())
}

/// A sum of sizes; `Memory` where it is 2^32 or more, since no code is so long.
pub fn sum(a: u32, b: u32) -> Result<u32, Memory>
    ensures { IfOk result (λ n. n ≡ a + b) }
{
    a.checked_add(b).ok_or(Memory)
}

/// The place so many instructions behind the code; `Memory` as for `sum`.
pub fn behind(code: &[Instr], further: u32) -> Result<u32, Memory>
    ensures { IfOk result (λ n. n ≡ length code.now + further) }
{
    match u32::try_from(code.len()) {
        Ok(n) => sum(n, further),
        Err(_) => Err(Memory),
    }
}
