ghost use Rattle.c_types.specs.Words.{Tells};
ghost use Rattle.lu_pair.specs.Tags.{HasFewEntries};

use crate::programs::program;
use lu_base::Name;
use lu_image::{Pairing, Rename, Renames, Table};
use lu_pair::pair;
use src_tree::program::Program;
use std::alloc::Global;
use std::test::Fail;

fn rename(alloc: Global) -> Result<Renames, Fail> {
    let rename = Rename {
        table: Table::Global,
        old: Name::from_ascii(alloc, b"a")?,
        new: Name::from_ascii(alloc, b"b")?,
    };
    Ok(Renames::new(alloc, vec![in alloc; rename]?)?.ok_or("a name twice")?)
}

// Whether each list of a program's globals, functions and sites is shorter than there are numbers of 32 bits.
fn has_few_entries(program: &Program) -> bool
    ensures { Tells result (HasFewEntries program.now) }
{
    program.globals.as_slice().len() <= u32::MAX as usize
        && program.functions.as_slice().len() <= u32::MAX as usize
        && program.sites.as_slice().len() <= u32::MAX as usize
}

fn paired(alloc: Global, old: &Program, new: &Program, renames: &Renames) -> Result<Pairing, Fail> {
    if !has_few_entries(old) || !has_few_entries(new) {
        return Err("too many entries".into());
    }
    Ok(pair(alloc, old, new, renames).ok().ok_or("refused")?)
}

#[test]
fn a_rename_pairs_a_global_and_names_pair_the_rest(rt: HostRuntime) -> Result<(), Fail> {
    let alloc = rt.alloc();
    let old = program(alloc, Name::from_ascii(alloc, b"a")?)?;
    let new = program(alloc, Name::from_ascii(alloc, b"b")?)?;
    let pairing = paired(alloc, &old, &new, &rename(alloc)?)?;
    assert_eq!(rt; pairing.globals.as_slice(), [Some(0)].as_slice());
    assert_eq!(rt; pairing.functions.as_slice(), [Some(0)].as_slice());
    assert_eq!(rt; pairing.sites.as_slice(), [Some(0)].as_slice());
    Ok(())
}
