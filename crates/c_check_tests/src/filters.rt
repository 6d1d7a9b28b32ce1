// An expression in the scope of a program.

use c_ast::expr::Expr;
use c_ast::types::{BaseType, TagKind, TypeName};
use c_check::checking::check_expr;
use c_check_scope::error::CheckError;
use c_types::{
    FieldDef, IntKind, Parts, Sequence, Signature, TagDef, Ty, TypeTable, well_numbered,
};
use lu_base::Name;
use sqlite_items::Items;
use src_tree::program::{Function, Global as Variable, Init, Program};
use std::alloc::{AllocError, Global};
use std::test::Fail;

/// `struct node { int count; }`, `int`, `unsigned int` and functions `void (void)`.
fn parts(alloc: Global) -> Result<Parts, AllocError> {
    let types = [
        Ty::Int(IntKind::Int),
        Ty::Int(IntKind::UInt),
        Ty::Struct(0),
        Ty::Function(0),
    ];
    let fields = Sequence::from_vec(vec![in alloc; FieldDef { name: 1, ty: 0 }]?);
    let mut structs = Vec::new(alloc);
    structs.push(TagDef { tag: 0, fields })?;
    let mut signatures = Vec::new(alloc);
    signatures.push(Signature {
        result: None,
        params: Sequence::from_vec(Vec::new(alloc)),
    })?;
    Ok(Parts {
        pointer: 4,
        types: Sequence::from_vec(Vec::from_slice(alloc, types.as_slice())?),
        structs: Sequence::from_vec(structs),
        unions: Sequence::from_vec(Vec::new(alloc)),
        signatures: Sequence::from_vec(signatures),
    })
}

fn types(alloc: Global) -> Result<TypeTable, Fail> {
    let parts = parts(alloc)?;
    if !well_numbered(&parts) {
        return Err(Fail::new("not well numbered"));
    }
    match TypeTable::build(alloc, parts) {
        Ok(table) => Ok(table),
        Err(_) => Err(Fail::new("no table")),
    }
}

fn named(alloc: Global, name: &str) -> Result<Name, AllocError> {
    Ok(Name::new(String::from_str(alloc, name)?))
}

fn names(alloc: Global) -> Result<Items<Name>, AllocError> {
    let mut names = Items::new(alloc);
    for name in ["node", "count", "run"] {
        names.push(named(alloc, name)?)?;
    }
    Ok(names)
}

/// `int count;`
fn globals(alloc: Global) -> Result<Items<Variable>, AllocError> {
    let mut globals = Items::new(alloc);
    globals.push(Variable {
        name: 1,
        ty: 0,
        init: Init::Zero,
    })?;
    Ok(globals)
}

/// `void run(void) { }`
fn functions(alloc: Global) -> Result<Items<Function>, AllocError> {
    let mut functions = Items::new(alloc);
    functions.push(Function {
        name: 2,
        params: Items::new(alloc),
        ret: None,
        locals: Items::new(alloc),
        body: Items::new(alloc),
    })?;
    Ok(functions)
}

fn program(alloc: Global) -> Result<Program, Fail> {
    let types = types(alloc)?;
    let names = names(alloc)?;
    let globals = globals(alloc)?;
    let functions = functions(alloc)?;
    Ok(Program {
        names,
        types,
        globals,
        functions,
        sites: Items::new(alloc),
    })
}

/// The number of the type of an expression, or the code of the rule that it breaks.
fn judged(alloc: Global, program: &Program, e: &Expr) -> Result<Result<u32, u32>, Fail> {
    match check_expr(alloc, program, e) {
        Ok(e) => Ok(Ok(e.ty)),
        Err(CheckError::Rule { decl: 1, code }) => Ok(Err(code)),
        Err(_) => Err(Fail::new("another error")),
    }
}

#[test]
fn names_have_types_or_codes(rt: HostRuntime) -> Result<(), Fail> {
    let alloc = rt.alloc();
    let program = program(alloc)?;
    for (name, wanted) in [
        ("count", Ok(0)),
        ("run", Ok(3)),
        ("node", Err(11)),
        ("other", Err(11)),
        ("malloc", Err(20)),
    ] {
        let e = Expr::Name(named(alloc, name)?);
        assert!(rt; judged(alloc, &program, &e)? == wanted, "{name}");
    }
    Ok(())
}

#[test]
fn tags_name_types(rt: HostRuntime) -> Result<(), Fail> {
    let alloc = rt.alloc();
    let program = program(alloc)?;
    for (name, wanted) in [("node", Ok(1)), ("count", Err(3))] {
        let base = BaseType::Tagged(TagKind::Struct, named(alloc, name)?);
        let e = Expr::SizeOf(TypeName { base, stars: 0 });
        assert!(rt; judged(alloc, &program, &e)? == wanted, "{name}");
    }
    Ok(())
}
