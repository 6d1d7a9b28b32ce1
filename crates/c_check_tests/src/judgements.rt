// Judgements at a table of types.

use c_check_scope::members::{Part, part_of};
use c_check_scope::types::Types;
use c_types::{
    FieldDef, IntKind, Parts, Sequence, Signature, TagDef, Ty, TypeTable, well_numbered,
};
use std::alloc::{AllocError, Global};
use std::test::Fail;

const INT: Ty = Ty::Int(IntKind::Int);

/// The types int, a struct of two ints, int * and that struct *.
fn parts(alloc: Global) -> Result<Parts, AllocError> {
    let fields = vec![in alloc; FieldDef { name: 4, ty: 0 }, FieldDef { name: 7, ty: 0 }]?;
    let mut structs = Vec::new(alloc);
    structs.push(TagDef {
        tag: 1,
        fields: Sequence::from_vec(fields),
    })?;
    let types = vec![in alloc; INT, Ty::Struct(0), Ty::Pointer(0), Ty::Pointer(1)]?;
    let signatures: Vec<Signature> = Vec::new(alloc);
    Ok(Parts {
        pointer: 4,
        types: Sequence::from_vec(types),
        structs: Sequence::from_vec(structs),
        unions: Sequence::from_vec(Vec::new(alloc)),
        signatures: Sequence::from_vec(signatures),
    })
}

#[test]
fn types_and_fields_are_found(rt: HostRuntime) -> Result<(), Fail> {
    let alloc = rt.alloc();
    let parts = parts(alloc)?;
    if !well_numbered(&parts) {
        return Err(Fail::new("not well numbered"));
    }
    let table = match TypeTable::build(alloc, parts) {
        Ok(table) => table,
        Err(_) => return Err(Fail::new("no table")),
    };
    let types = Types::new(alloc, &table)?;
    assert_eq!(rt; types.number_of(Ty::Pointer(1)), 3);
    assert_eq!(rt; types.number_of(INT), 0);
    let found = part_of(types.parts(), Ty::Struct(0), 7);
    assert!(rt;
        found
            == Some(Part {
                in_union: false,
                index: 1,
                ty: 0
            })
    );
    assert!(rt; part_of(types.parts(), Ty::Struct(0), 5) == None);
    Ok(())
}
