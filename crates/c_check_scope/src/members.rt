// The fields of structs and members of unions by name.

ghost use Rattle.std.specs.Prelude.{◌≡◌, ◌<◌, ◌^◌, length, nat_eq, position};
ghost use Rattle.c_types.specs.Refusal.{IsBuilt};
ghost use Rattle.c_check_scope.specs.Members.{part_at, part_named, part_of};

use c_types::{FieldDef, Parts, Ty, TyId};

/// A field of a struct, or a member of a union.
#[derive(Clone, Copy, Debug, PartialEq, Eq)]
pub struct Part {
    pub in_union: bool,
    /// Its number in its struct or union.
    pub index: u32,
    pub ty: TyId,
}

fn index_named(fields: &[FieldDef], name: usize) -> Option<usize>
    ensures { result ≡ position (λ f. nat_eq f.name name) fields.now }
{
    fields.iter().position(|field| field.name as usize == name)
}

fn part_at(in_union: bool, fields: &[FieldDef], index: usize) -> Option<Part>
    requires { length fields.now < 2 ^ 32 }
    ensures { result ≡ part_at in_union fields.now index }
{
    match fields.get(index) {
        None => None,
        Some(field) => Some(Part {
            in_union,
            index: index as u32,
            ty: field.ty,
        }),
    }
}

#[tactic(auto, unfolding(crate::specs::Members::part_named))]
fn part_named(in_union: bool, fields: &[FieldDef], name: usize) -> Option<Part>
    requires { length fields.now < 2 ^ 32 }
    ensures { result ≡ part_named in_union fields.now name }
{
    match index_named(fields, name) {
        None => None,
        Some(index) => part_at(in_union, fields, index),
    }
}

/// The field or member that a type has by the name of this number; none where the type is no struct or union, or has
/// no such field.
#[tactic(auto, unfolding(crate::specs::Members::part_of))]
pub fn part_of(parts: &Parts, ty: Ty, name: usize) -> Option<Part>
    requires { IsBuilt parts.now }
    ensures { result ≡ part_of parts.now ty name }
{
    match ty {
        Ty::Struct(number) => part_named(false, parts.fields_of(number), name),
        Ty::Union(number) => part_named(true, parts.members_of(number), name),
        _ => None,
    }
}
