// Temporaries: where they stand, and when there is no room. Addresses are never used twice.

use crate::servers::{booted, code_of, dump_of};
use bm_mem::VecBytes;
use c_types::TyId;
use cg_program::code::Code;
use cg_server::Server;
use src_tree::program::Program;
use std::alloc::Global;
use std::process::Abort;
use std::test::Fail;

/// The type of the program's last global.
fn last_type(program: &Program) -> Result<TyId, Fail> {
    match program.globals.as_slice().last() {
        Some(global) => Ok(global.ty),
        None => Err("there is no global".into()),
    }
}

/// Makes a temporary of the type of the last global.
fn place(server: &mut Server<'_, VecBytes>, value: &[u8]) -> Result<Option<u32>, Fail> {
    let program = server.code().program();
    let types = &program.types;
    let elem = last_type(program)?;
    let is_type = (elem as usize) < types.parts().types.as_slice().len();
    let is_whole = value.len() == types.size_of(elem) as usize;
    if !is_type || !is_whole || !server.idle() {
        return Err("no temporary can be made".into());
    }
    Ok(server.place_temp(elem, value)?)
}

/// Takes a temporary away.
fn free(server: &mut Server<'_, VecBytes>, address: u32) -> Result<(), Fail> {
    if !server.idle() {
        return Err("a call runs".into());
    }
    server.free_temp(address);
    Ok(())
}

const NUMBER: &str = "int n = 5;
void init(void) { }
void on_message(void) { }
";

const WITH_TEMPORARY: &str = "dump nm 4
object 00001000 m_in 32 -
object 00001030 m_out 32 -
object 00001060 n 4 05
object 000010a0 temp:1 4 000007
";

const WITHOUT_TEMPORARY: &str = "dump nm 3
object 00001000 m_in 32 -
object 00001030 m_out 32 -
object 00001060 n 4 05
";

fn come_and_go(
    rt: &impl Abort,
    alloc: Global,
    server: &mut Server<'_, VecBytes>,
) -> Result<(), Fail> {
    assert_eq!(rt; place(server, &[1, 2, 3, 4])?, Some(0x1080));
    free(server, 0x1080)?;
    assert_eq!(rt; place(server, &[0, 0, 7, 0])?, Some(0x10a0));
    free(server, 0x1060)?;
    free(server, 0x1080)?;
    free(server, 0x10a2)?;
    assert_eq!(rt;
        dump_of(alloc, server, "nm")?.as_slice(),
        WITH_TEMPORARY.as_bytes()
    );
    free(server, 0x10a0)?;
    assert_eq!(rt;
        dump_of(alloc, server, "nm")?.as_slice(),
        WITHOUT_TEMPORARY.as_bytes()
    );
    assert_eq!(rt; server.objects().len(), 5);
    Ok(())
}

fn boot_and_place(rt: &impl Abort, alloc: Global, code: &Code) -> Result<(), Fail> {
    let mut server = booted(alloc, code)?;
    come_and_go(rt, alloc, &mut server)
}

#[test]
fn temporaries_come_and_go(rt: HostRuntime) -> Result<(), Fail> {
    let code = code_of(rt.alloc(), NUMBER)?;
    boot_and_place(&rt, rt.alloc(), &code)
}

/// One byte of the heap is left. Behind its 4,194,303 bytes at 0x10a0 the next address is 0x4010b0.
const ONE_LEFT: &str = "char *p;
char c;
void init(void) { p = calloc(4194303, sizeof(char)); }
void on_message(void) { }
";

fn fill_the_heap(rt: &impl Abort, server: &mut Server<'_, VecBytes>) -> Result<(), Fail> {
    assert_eq!(rt; place(server, &[1])?, Some(0x4010b0));
    assert_eq!(rt; place(server, &[1])?, None);
    assert_eq!(rt; server.objects().len(), 6);
    free(server, 0x4010b0)?;
    assert_eq!(rt; place(server, &[1])?, Some(0x4010d0));
    Ok(())
}

fn boot_and_fill(rt: &impl Abort, alloc: Global, code: &Code) -> Result<(), Fail> {
    let mut server = booted(alloc, code)?;
    fill_the_heap(rt, &mut server)
}

#[test]
fn the_heap_bounds_temporaries(rt: HostRuntime) -> Result<(), Fail> {
    let code = code_of(rt.alloc(), ONE_LEFT)?;
    boot_and_fill(&rt, rt.alloc(), &code)
}
