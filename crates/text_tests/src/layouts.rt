// Layouts against C's rules, worked by hand: pointers of 4 and of 8 bytes, and each alignment as the size.

use c_types::{
    BuildError, FieldDef, IntKind, Parts, Path, Sequence, Signature, Step, TagDef, Ty, TypeTable,
    well_numbered,
};
use std::alloc::{AllocError, Global};
use std::process::Abort;
use std::test::Fail;

const CHAR: Ty = Ty::Int(IntKind::Char);

const SHORT: Ty = Ty::Int(IntKind::Short);

const INT: Ty = Ty::Int(IntKind::Int);

const LONG_LONG: Ty = Ty::Int(IntKind::LongLong);

/// A struct or union whose fields have these types, and their numbers as names.
fn tag(alloc: Global, tag: u32, types: &[u32]) -> Result<TagDef, AllocError> {
    let mut fields = Vec::new(alloc);
    for (name, ty) in types.iter().enumerate() {
        fields.push(FieldDef {
            name: (name % 1000) as u32,
            ty: *ty,
        })?;
    }
    Ok(TagDef {
        tag,
        fields: Sequence::from_vec(fields),
    })
}

/// Structs or unions with the tags `first`, `first + 1` and so on.
fn tags(alloc: Global, first: u8, all: &[&[u32]]) -> Result<Sequence<TagDef>, AllocError> {
    let mut made = Vec::new(alloc);
    let mut next = first as u32;
    for types in all {
        made.push(tag(alloc, next, types)?)?;
        next = next.wrapping_add(1);
    }
    Ok(Sequence::from_vec(made))
}

/// One signature, `void f(void)`.
fn signatures(alloc: Global) -> Result<Sequence<Signature>, AllocError> {
    let mut made = Vec::new(alloc);
    made.push(Signature {
        result: None,
        params: Sequence::from_vec(Vec::new(alloc)),
    })?;
    Ok(Sequence::from_vec(made))
}

fn parts(
    alloc: Global,
    types: &[Ty],
    structs: &[&[u32]],
    unions: &[&[u32]],
) -> Result<Parts, AllocError> {
    Ok(Parts {
        pointer: 4,
        types: Sequence::from_vec(Vec::from_slice(alloc, types)?),
        structs: tags(alloc, 0, structs)?,
        unions: tags(alloc, 100, unions)?,
        signatures: signatures(alloc)?,
    })
}

/// What `build` answers, or None where the parts are not well numbered.
fn built(alloc: Global, parts: Parts) -> Option<Result<TypeTable, BuildError>> {
    if well_numbered(&parts) {
        Some(TypeTable::build(alloc, parts))
    } else {
        None
    }
}

/// The refusal of a table.
fn refusal(alloc: Global, parts: Parts) -> Option<BuildError> {
    match built(alloc, parts) {
        Some(Err(error)) => Some(error),
        _ => None,
    }
}

/// Structs and unions in each other, and arrays of the greatest size.
fn many(alloc: Global) -> Result<Parts, AllocError> {
    let types = [
        CHAR,
        LONG_LONG,
        SHORT,
        INT,
        Ty::Struct(0),
        Ty::Struct(1),
        Ty::Struct(2),
        Ty::Array(6, 3),
        Ty::Struct(3),
        Ty::Union(0),
        Ty::Union(1),
        Ty::Union(2),
        Ty::Pointer(5),
        Ty::VoidPointer,
        Ty::Array(5, 5),
        Ty::Array(0, 1_048_576),
        Ty::Array(1, 131_072),
        Ty::Function(0),
    ];
    parts(
        alloc,
        &types,
        &[&[0, 1, 2], &[0, 4, 3], &[0], &[2, 7]],
        &[&[3, 0], &[0, 1], &[5, 2]],
    )
}

fn built_or_fail(alloc: Global, parts: Parts) -> Result<TypeTable, Fail> {
    let table = built(alloc, parts).ok_or("not well numbered")?;
    Ok(table.ok().ok_or("refused")?)
}

#[test]
fn sizes_and_alignments(rt: HostRuntime) -> Result<(), Fail> {
    let table = built_or_fail(rt.alloc(), many(rt.alloc())?)?;
    let want = [
        (1, 1),
        (8, 8),
        (2, 2),
        (4, 4),
        (24, 8),
        (40, 8),
        (1, 1),
        (3, 1),
        (6, 2),
        (8, 4),
        (16, 8),
        (48, 8),
        (4, 4),
        (4, 4),
        (200, 8),
        (1_048_576, 1),
        (1_048_576, 8),
        (4, 4),
    ];
    let mut number = 0u32;
    for (size, align) in want {
        assert_eq!(rt; table.size_of(number), size, "size of {number}");
        assert_eq!(rt; table.align_of(number), align, "alignment of {number}");
        number = number.wrapping_add(1);
    }
    Ok(())
}

fn check_path(
    rt: &impl Abort,
    table: &TypeTable,
    number: u32,
    path: &[Step],
    offset: u32,
    ty: u32,
) {
    assert_eq!(rt; table.offset_of(number, path), offset);
    assert_eq!(rt; table.type_at(number, path), ty);
}

#[test]
fn offsets_of_paths(rt: HostRuntime) -> Result<(), Fail> {
    let table = built_or_fail(rt.alloc(), many(rt.alloc())?)?;
    check_path(&rt, &table, 5, &[], 0, 5);
    check_path(&rt, &table, 5, &[Step::Field(1), Step::Field(2)], 24, 2);
    check_path(
        &rt,
        &table,
        11,
        &[Step::Member(0), Step::Field(1), Step::Field(1)],
        24,
        1,
    );
    check_path(&rt, &table, 14, &[Step::Index(3), Step::Field(2)], 152, 3);
    check_path(
        &rt,
        &table,
        8,
        &[Step::Field(1), Step::Index(2), Step::Field(0)],
        4,
        0,
    );
    check_path(&rt, &table, 9, &[Step::Member(1)], 4, 0);
    check_path(&rt, &table, 10, &[Step::Member(0)], 8, 0);
    Ok(())
}

/// The place of type `want` at an offset in elements of type `elem`.
fn place(
    alloc: Global,
    table: &TypeTable,
    elem: u32,
    count: u32,
    offset: u32,
    want: u32,
) -> Option<Path> {
    if elem as usize >= table.parts().types.as_slice().len() {
        return None;
    }
    match table.place_at(alloc, elem, count, offset, want) {
        Ok(Some(path)) => Some(path),
        _ => None,
    }
}

fn fits(table: &TypeTable, elem: u32, count: u32, offset: u32, want: u32) -> bool {
    (elem as usize) < table.parts().types.as_slice().len() && table.fits(elem, count, offset, want)
}

#[test]
fn places_at_offsets(rt: HostRuntime) -> Result<(), Fail> {
    let table = built_or_fail(rt.alloc(), many(rt.alloc())?)?;
    let path = place(rt.alloc(), &table, 5, 2, 64, 2).ok_or("no place")?;
    assert_eq!(rt;
        path.as_slice(),
        [Step::Index(1), Step::Field(1), Step::Field(2)].as_slice()
    );
    let path = place(rt.alloc(), &table, 8, 1, 4, 6).ok_or("no place")?;
    assert_eq!(rt;
        path.as_slice(),
        [Step::Index(0), Step::Field(1), Step::Index(2)].as_slice()
    );
    let path = place(rt.alloc(), &table, 11, 1, 0, 11).ok_or("no place")?;
    assert_eq!(rt; path.as_slice(), [Step::Index(0)].as_slice());
    assert!(rt; fits(&table, 5, 2, 64, 2));
    for (elem, count, offset, want) in [(5, 2, 1, 0), (5, 2, 80, 0), (11, 1, 8, 5), (5, 2, 64, 3)] {
        assert!(rt;
            place(rt.alloc(), &table, elem, count, offset, want).is_none(),
            "at {offset}"
        );
        assert!(rt; !fits(&table, elem, count, offset, want), "at {offset}");
    }
    Ok(())
}

/// `struct proc { int used; int pid; struct proc *next; }`, of which there are 64.
#[test]
fn pid_of_the_second_process(rt: HostRuntime) -> Result<(), Fail> {
    let types = [INT, Ty::Struct(0), Ty::Pointer(1)];
    let table = built_or_fail(rt.alloc(), parts(rt.alloc(), &types, &[&[0, 0, 2]], &[])?)?;
    let path = place(rt.alloc(), &table, 1, 64, 16, 0).ok_or("no place")?;
    assert_eq!(rt;
        path.as_slice(),
        [Step::Index(1), Step::Field(1)].as_slice()
    );
    Ok(())
}

/// Sizes and alignments of `struct { char c; void *p; }`, of a union of the two and of a function pointer, and where the
/// pointer stands, in tables of both kinds.
#[test]
fn pointers_of_both_sizes(rt: HostRuntime) -> Result<(), Fail> {
    let alloc = rt.alloc();
    let types = [
        CHAR,
        Ty::VoidPointer,
        Ty::Struct(0),
        Ty::Union(0),
        Ty::Function(0),
    ];
    for (pointer, want) in [
        (4u32, [(1, 1), (4, 4), (8, 4), (8, 4), (4, 4)]),
        (8, [(1, 1), (8, 8), (16, 8), (16, 8), (8, 8)]),
    ] {
        let mut lists = parts(alloc, &types, &[&[0, 1]], &[&[0, 1]])?;
        lists.pointer = pointer;
        let table = built_or_fail(alloc, lists)?;
        assert_eq!(rt; table.pointer(), pointer);
        assert_eq!(rt; table.offset_of(2, &[Step::Field(1)]), pointer);
        assert_eq!(rt; table.offset_of(3, &[Step::Member(0)]), pointer);
        let mut number = 0u32;
        for (size, align) in want {
            assert_eq!(rt; table.size_of(number), size, "size of {number}");
            assert_eq!(rt; table.align_of(number), align, "alignment of {number}");
            number = number.wrapping_add(1);
        }
    }
    Ok(())
}

/// No other size of a pointer.
#[test]
fn no_other_pointers(rt: HostRuntime) -> Result<(), Fail> {
    let alloc = rt.alloc();
    for pointer in [0, 1, 2, 5, 16] {
        let mut lists = parts(alloc, &[CHAR], &[], &[])?;
        lists.pointer = pointer;
        assert!(rt; !well_numbered(&lists), "{pointer}");
    }
    Ok(())
}

/// Structs `struct_tags` and unions `union_tags` of one int each.
fn tagged(alloc: Global, struct_tags: &[u32], union_tags: &[u32]) -> Result<Parts, AllocError> {
    let mut structs = Vec::new(alloc);
    for number in struct_tags {
        structs.push(tag(alloc, *number, &[0])?)?;
    }
    let mut unions = Vec::new(alloc);
    for number in union_tags {
        unions.push(tag(alloc, *number, &[0])?)?;
    }
    Ok(Parts {
        pointer: 4,
        types: Sequence::from_vec(Vec::from_slice(alloc, &[INT])?),
        structs: Sequence::from_vec(structs),
        unions: Sequence::from_vec(unions),
        signatures: signatures(alloc)?,
    })
}

#[test]
fn refuses_duplicates(rt: HostRuntime) -> Result<(), Fail> {
    let alloc = rt.alloc();
    let equal_types = parts(alloc, &[CHAR, INT, SHORT, CHAR, INT], &[], &[])?;
    assert_eq!(rt; refusal(alloc, equal_types), Some(BuildError::Duplicate(3)));
    assert_eq!(rt;
        refusal(alloc, tagged(alloc, &[7, 7], &[])?),
        Some(BuildError::Duplicate(2))
    );
    assert_eq!(rt;
        refusal(alloc, tagged(alloc, &[7, 8], &[9, 8])?),
        Some(BuildError::Duplicate(4))
    );
    assert!(rt; refusal(alloc, tagged(alloc, &[7, 8], &[9])?).is_none());
    Ok(())
}

#[test]
fn refuses_what_has_no_field(rt: HostRuntime) -> Result<(), Fail> {
    let alloc = rt.alloc();
    let empty_struct = parts(alloc, &[INT], &[&[0], &[]], &[&[]])?;
    assert_eq!(rt; refusal(alloc, empty_struct), Some(BuildError::Empty(2)));
    let empty_union = parts(alloc, &[INT], &[&[0]], &[&[0], &[]])?;
    assert_eq!(rt; refusal(alloc, empty_union), Some(BuildError::Empty(3)));
    Ok(())
}

#[test]
fn refuses_cycles(rt: HostRuntime) -> Result<(), Fail> {
    let alloc = rt.alloc();
    let holds_a_cycle = parts(
        alloc,
        &[INT, Ty::Struct(0), Ty::Struct(1), Ty::Array(2, 4)],
        &[&[2], &[0, 3]],
        &[],
    )?;
    assert_eq!(rt; refusal(alloc, holds_a_cycle), Some(BuildError::Cycle(2)));
    let points_to_itself = parts(alloc, &[INT, Ty::Array(2, 3), Ty::Pointer(1)], &[], &[])?;
    assert_eq!(rt;
        refusal(alloc, points_to_itself),
        Some(BuildError::Cycle(2))
    );
    let through_a_struct = parts(
        alloc,
        &[INT, Ty::Struct(0), Ty::Pointer(1)],
        &[&[0, 2]],
        &[],
    )?;
    assert!(rt; refusal(alloc, through_a_struct).is_none());
    Ok(())
}

#[test]
fn refuses_what_is_too_big(rt: HostRuntime) -> Result<(), Fail> {
    let alloc = rt.alloc();
    let no_length = parts(alloc, &[CHAR, Ty::Array(0, 0)], &[], &[])?;
    assert_eq!(rt; refusal(alloc, no_length), Some(BuildError::TooBig(1)));
    let too_long = parts(alloc, &[CHAR, Ty::Array(0, 1_048_577)], &[], &[])?;
    assert_eq!(rt; refusal(alloc, too_long), Some(BuildError::TooBig(1)));
    let one_byte_more = parts(
        alloc,
        &[CHAR, Ty::Struct(0), Ty::Array(0, 1_048_576)],
        &[&[2, 0]],
        &[],
    )?;
    assert_eq!(rt; refusal(alloc, one_byte_more), Some(BuildError::TooBig(1)));
    let none_of_many = parts(
        alloc,
        &[
            Ty::Struct(0),
            Ty::Array(2, 0),
            Ty::Struct(1),
            CHAR,
            Ty::Array(3, 1_048_576),
        ],
        &[&[1], &[4, 3]],
        &[],
    )?;
    assert_eq!(rt; refusal(alloc, none_of_many), Some(BuildError::TooBig(1)));
    Ok(())
}

#[test]
fn a_copy_has_the_same_layout(rt: HostRuntime) -> Result<(), Fail> {
    let table = built_or_fail(rt.alloc(), many(rt.alloc())?)?;
    let copy = table.copy(rt.alloc())?;
    assert_eq!(rt;
        copy.parts().types.as_slice(),
        table.parts().types.as_slice()
    );
    assert_eq!(rt; copy.size_of(11), 48);
    Ok(())
}
