// Dumps.

ghost use Rattle.std.specs.Prelude.{◌≡◌, ◌≤◌, ◌++◌, ◌∷◌, [], Some, true, length, slice_get, string_bytes, IfOk, OnOk, OnErr, if◌then◌else◌};
ghost use Rattle.std.specs.Fmt.{decimal};
ghost use Rattle.std.specs.FinMap.{get};
ghost use Rattle.lu_lines.specs.declared.note.Note.TheVariants.{Dump};
ghost use Rattle.bm_code.specs.Mapped.{IsMapped};
ghost use Rattle.cg_server.specs.Dump.{name_at, function_name, global_name, site_name, object_name, object_note, live_notes};

use bm_mem::Bytes;
use bm_objects::{Objects, Row};
use lu_base::{Bytes8, Memory, Name};
use lu_lines::{Note, Notes};
use src_tree::program::Program;
use std::alloc::Global;

/// The name of a number; empty where there is none.
fn name_at(p: &Program, number: u32) -> &str
    ensures { result.now ≡ name_at p.now number }
{
    match p.names.as_slice().get(number as usize) {
        Some(name) => name.as_str(),
        None => "",
    }
}

fn function_name(p: &Program, number: u32) -> &str
    ensures { result.now ≡ function_name p.now number }
{
    match p.functions.as_slice().get(number as usize) {
        Some(function) => name_at(p, function.name),
        None => "",
    }
}

fn global_name(p: &Program, number: usize) -> &str
    ensures { result.now ≡ global_name p.now number }
{
    match p.globals.as_slice().get(number) {
        Some(global) => name_at(p, global.name),
        None => "",
    }
}

/// The name of a site, as `f#k`; `temp` where there is no such site.
fn site_name(alloc: Global, p: &Program, number: u32) -> Result<String, Memory>
    ensures { IfOk result (λ name. string_bytes name ≡ site_name p.now number) }
{
    match p.sites.as_slice().get(number as usize) {
        Some(site) => {
            let function = function_name(p, site.function);
            let ordinal = site.ordinal;
            Ok(format!(in alloc; "{function}#{ordinal}")?)
        }
        None => Ok(String::from_str(alloc, "temp")?),
    }
}

/// The name of the object of a number, which was made at the site.
fn object_name(alloc: Global, p: &Program, number: usize, site: Option<u32>) -> Result<Name, Memory>
    ensures { IfOk result (λ name. name ≡ object_name p.now number site) }
{
    match site {
        None => Ok(Name::new(String::from_str(alloc, global_name(p, number))?)),
        Some(site) => {
            let made_at = site_name(alloc, p, site)?;
            let made_at = made_at.as_str();
            let place = number.saturating_sub(p.globals.as_slice().len());
            Ok(Name::new(format!(in alloc; "{made_at}:{place}")?))
        }
    }
}

/// The bytes of a live object.
fn object_bytes<B: Bytes>(
    alloc: Global,
    memory: &B,
    objects: &Objects,
    number: usize,
    row: Row,
) -> Result<Bytes8, Memory>
    requires mapped { IsMapped (B.content memory.now) objects.now }
    requires at { slice_get objects.now number ≡ Some row }
    requires live { row.live ≡ true }
    ensures { IfOk result (λ bytes. get (B.content memory.now) row.addr ≡ Some bytes) }
{
    let _objects = objects;
    let _number = number;
    let mut bytes = vec![in alloc; 0; row.size as usize]?;
    memory.copy_out(row.addr, &mut bytes);
    Ok(Bytes8::new(bytes))
}

/// Puts the note of an object behind others, where it is live.
fn push_live<B: Bytes>(
    alloc: Global,
    p: &Program,
    memory: &B,
    objects: &Objects,
    number: usize,
    row: Row,
    notes: &mut Vec<Note>,
) -> Result<(), Memory>
    requires mapped { IsMapped (B.content memory.now) objects.now }
    requires at { slice_get objects.now number ≡ Some row }
    ensures { OnOk result (notes.new.items ≡ notes.old.items ++ (if row.live then object_note p.now (B.content memory.now) number row ∷ [] else [])) }
{
    if !row.live {
        return Ok(());
    }
    let name = object_name(alloc, p, number, row.site)?;
    let bytes = object_bytes(alloc, memory, objects, number, row)?;
    notes.push(Note::Object {
        address: row.addr,
        name,
        size: row.size,
        bytes,
    })?;
    Ok(())
}

/// The notes of the live objects.
fn live_notes<B: Bytes>(
    alloc: Global,
    p: &Program,
    memory: &B,
    objects: &Objects,
) -> Result<Vec<Note>, Memory>
    requires { IsMapped (B.content memory.now) objects.now }
    ensures { IfOk result (λ notes. notes.items ≡ live_notes p.now (B.content memory.now) 0 objects.now) }
{
    let mut notes = Vec::new(alloc);
    for number in 0..objects.len() {
        let row = objects.row(number);
        push_live(alloc, p, memory, objects, number, row, &mut notes)?;
    }
    Ok(notes)
}

/// Puts notes behind others, where there is room.
fn push_all(out: &mut Notes, notes: Vec<Note>)
    requires { length notes.items ≤ out.old.spare }
    ensures { out.new.list ≡ out.old.list ++ notes.items }
{
    for note in notes {
        out.push(note);
    }
}

/// Puts the notes of a process's live objects behind others, the note of their count first.
pub(crate) fn push_dump<B: Bytes>(
    alloc: Global,
    name: &Name,
    p: &Program,
    memory: &B,
    objects: &Objects,
    out: &mut Notes,
) -> Result<(), Memory>
    requires { IsMapped (B.content memory.now) objects.now }
    ensures ok { OnOk result (let notes = live_notes p.now (B.content memory.now) 0 objects.now in out.new.list ≡ out.old.list ++ Dump name.now (length notes) ∷ notes) }
    ensures err { OnErr result (out.new.list ≡ out.old.list) }
{
    let notes = live_notes(alloc, p, memory, objects)?;
    let server = name.copy(alloc)?;
    let count = notes.len();
    out.reserve(1 + count)?;
    out.push(Note::Dump {
        server,
        objects: count as u64,
    });
    push_all(out, notes);
    Ok(())
}
