// Steps from a whole to its parts.

ghost use Rattle.std.specs.Prelude.{◌≡◌, ◌-◌, ◌++◌, OnOk};
ghost use Rattle.c_types.specs.declared.path.Step.{Step};
ghost use Rattle.src_meaning.specs.ValidTypes.{ty};
ghost use Rattle.src_meaning.specs.Expression as expression;
ghost use Rattle.cg_expr.specs.Pieces as spec;
ghost use Rattle.cg_expr.specs.Code.{to_member};

use crate::operators::element_size;
use crate::target::{put, put_all, size_of, type_of};
use bm_isa::Instr;
use c_types::{Step, Ty, TyId, TypeTable};
use lu_base::Memory;

/// The number of elements of an array type; 0 where the type is no array.
pub fn length_of(types: &TypeTable, number: TyId) -> u32
    ensures { result ≡ expression.length_of types.now number }
{
    match type_of(types, number) {
        Some(Ty::Array(_, count)) => count,
        Some(Ty::Int(_)) | Some(Ty::VoidPointer) | Some(Ty::Function(_)) => 0,
        Some(Ty::Struct(_)) | Some(Ty::Union(_)) | Some(Ty::Pointer(_)) => 0,
        None => 0,
    }
}

/// Where the part begins to which a step leads, in bytes; 0 where the type has no such part.
#[tactic(auto, using(crate::proofs::Offsets::step_offset_is))]
fn step_offset(types: &TypeTable, number: TyId, step: Step) -> u32
    ensures { result ≡ spec.step_offset types.now (ty types.now number) step }
{
    types.offset_of(number, &[step])
}

/// From a struct of a type to its field.
pub fn put_field_last(
    code: &mut Vec<Instr>,
    types: &TypeTable,
    number: TyId,
    field: u32,
) -> Result<(), Memory>
    ensures { OnOk result (code.new.items ≡ code.old.items ++ spec.field_last types.now number field) }
{
    let offset = step_offset(types, number, Step::Field(field));
    put(code, Instr::Field { offset })
}

/// From a union of a type to its member, which is read or assigned.
pub fn put_to_member(
    code: &mut Vec<Instr>,
    assigns: bool,
    types: &TypeTable,
    number: TyId,
    member: u32,
) -> Result<(), Memory>
    ensures { OnOk result (code.new.items
        ≡ code.old.items ++ to_member assigns types.now number member) }
{
    let offset = step_offset(types, number, Step::Member(member));
    let first = if assigns {
        let size = size_of(types, number).saturating_sub(offset);
        Instr::WriteUnion {
            member,
            offset,
            size,
        }
    } else {
        Instr::ReadUnion { member }
    };
    put_all(code, &[first, Instr::Field { offset }])
}

/// From a pointer to its place of a type.
pub fn put_check(code: &mut Vec<Instr>, number: TyId) -> Result<(), Memory>
    ensures { OnOk result (code.new.items ≡ code.old.items ++ spec.deref_last number) }
{
    put(
        code,
        Instr::CheckPointer {
            type_number: number,
        },
    )
}

/// From a pointer and an index to the element of a type.
pub fn put_item_last(
    code: &mut Vec<Instr>,
    types: &TypeTable,
    pointer: TyId,
    number: TyId,
) -> Result<(), Memory>
    ensures { OnOk result (code.new.items
        ≡ code.old.items ++ spec.item_last types.now pointer number) }
{
    let size = element_size(types, pointer);
    put(code, Instr::AddPointer { size })?;
    put_check(code, number)
}

/// From an array and an index to the element of a type.
pub fn put_element_last(
    code: &mut Vec<Instr>,
    types: &TypeTable,
    array: TyId,
    number: TyId,
) -> Result<(), Memory>
    ensures { OnOk result (code.new.items
        ≡ code.old.items ++ spec.element_last types.now array number) }
{
    let count = length_of(types, array);
    let size = size_of(types, number);
    put(code, Instr::Index { count, size })
}

/// The same, where the index may also be the number of elements.
pub fn put_element_end_last(
    code: &mut Vec<Instr>,
    types: &TypeTable,
    array: TyId,
    number: TyId,
) -> Result<(), Memory>
    ensures { OnOk result (code.new.items
        ≡ code.old.items ++ spec.element_end_last types.now array number) }
{
    let count = length_of(types, array);
    let size = size_of(types, number);
    put(code, Instr::IndexEnd { count, size })
}
