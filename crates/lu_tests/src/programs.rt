use c_types::{IntKind, Parts, Sequence, Ty, TypeTable, well_numbered};
use lu_base::{Bytes8, Name};
use sqlite_items::Items;
use src_model::initial_store;
use src_tree::expr::{ExprKind, TypedExpr};
use src_tree::program::{Function, Global as GlobalVariable, Init, Program, Site};
use src_tree::stmt::{Rhs, TypedStmt};
use std::alloc::Global;
use std::test::Fail;

fn types(alloc: Global) -> Result<TypeTable, Fail> {
    let parts = Parts {
        pointer: 4,
        types: Sequence::from_vec(vec![in alloc; Ty::Int(IntKind::Int)]?),
        structs: Sequence::from_vec(Vec::new(alloc)),
        unions: Sequence::from_vec(Vec::new(alloc)),
        signatures: Sequence::from_vec(Vec::new(alloc)),
    };
    if !well_numbered(&parts) {
        return Err("not well numbered".into());
    }
    Ok(TypeTable::build(alloc, parts).ok().ok_or("refused")?)
}

// int f(void) { return 7; }
fn functions(alloc: Global) -> Result<Items<Function>, Fail> {
    let seven = TypedExpr {
        ty: 0,
        kind: ExprKind::Number(7),
    };
    let mut body = Items::new(alloc);
    body.push(TypedStmt::Return(Some(Rhs::Value(seven))))?;
    let mut functions = Items::new(alloc);
    functions.push(Function {
        name: 1,
        params: Items::new(alloc),
        ret: Some(0),
        locals: Items::new(alloc),
        body,
    })?;
    Ok(functions)
}

/// An int of this name with bytes as its initialiser, a function `f`, and a site in it that allocates an int.
pub fn program(alloc: Global, global: Name) -> Result<Program, Fail> {
    let mut names = Items::new(alloc);
    names.push(global)?;
    names.push(Name::from_ascii(alloc, b"f")?)?;
    let mut globals = Items::new(alloc);
    globals.push(GlobalVariable {
        name: 0,
        ty: 0,
        init: Init::Text(Bytes8::new(b"ab".to_vec(alloc)?)),
    })?;
    let mut sites = Items::new(alloc);
    sites.push(Site {
        function: 0,
        ordinal: 0,
        elem: 0,
    })?;
    Ok(Program {
        names,
        types: types(alloc)?,
        globals,
        functions: functions(alloc)?,
        sites,
    })
}

#[test]
fn a_program_is_copied(rt: HostRuntime) -> Result<(), Fail> {
    let alloc = rt.alloc();
    let copy = program(alloc, Name::from_ascii(alloc, b"a")?)?.copy(alloc)?;
    assert_eq!(rt; copy.names.len(), 2);
    assert_eq!(rt; copy.globals.len(), 1);
    assert_eq!(rt; copy.functions.len(), 1);
    assert_eq!(rt; copy.sites.len(), 1);
    Ok(())
}

#[test]
fn the_store_at_the_start_has_each_global(rt: HostRuntime) -> Result<(), Fail> {
    let alloc = rt.alloc();
    let store = initial_store(alloc, &program(alloc, Name::from_ascii(alloc, b"a")?)?)?;
    assert_eq!(rt; store.objects.len(), 1);
    Ok(())
}
