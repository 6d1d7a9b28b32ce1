// Two programs table by table.

ghost use Rattle.std.specs.Prelude.{◌≡◌, ◌<◌, ◌^◌, [], length, IfOk};
ghost use Rattle.lu_image.specs.Pairing.{pair_names, global_pairs, struct_pairs, field_pairs, union_pairs, member_pairs, function_pairs, site_pairs};
ghost use Rattle.lu_image.specs.RenameRefusal.{first_refusal, global_refusal, struct_refusal, field_refusal, union_refusal, member_refusal, function_refusal, site_refusal, refusal_of, or_else, pair};
ghost use Rattle.lu_pair.specs.Refusing.{IsRefusedBy, IsPairedBy};
ghost use Rattle.lu_pair.specs.Tags.{HasFewEntries, HaveFewParts, ArePaired, IsStructTask, IsUnionTask, task_refusal, HaveSiteNames, AreTablePairs};

use crate::names::NameList;
use crate::open::open_names;
use crate::outline::outline_of;
use crate::parts::{all_part_pairs, check_parts, check_tags, tag_pairer, tag_pairs};
use crate::renaming::Renaming;
use crate::sites::{SitePairer, TwoTypes, pair_sites, site_partners};
use crate::texts::{function_names, global_names, site_names};
use c_types::{Sequence, TagDef};
use lu_base::{Memory, Name};
use lu_image::{Dangling, PairError, Pairing, Rename, Renames, Table};
use src_tree::program::Program;
use std::alloc::Global;

/// Pairs entries by their names, unless a rename is refused. `old_open` and `new_open` are the names that renames see.
fn pair_named(
    alloc: Global,
    renaming: &Renaming,
    old: &NameList,
    new: &NameList,
    old_open: &NameList,
    new_open: &NameList,
) -> Result<Vec<Option<u32>>, PairError>
    requires { length new.now < 2 ^ 32 }
    ensures refused { IsRefusedBy (first_refusal old_open.now new_open.now [] renaming.now) result }
    ensures pairs { IfOk result (λ pairs. pairs.items ≡ pair_names renaming.now old.now new.now) }
{
    renaming.check(alloc, old_open, new_open)?;
    Ok(renaming.pair_names(alloc, old.as_slice(), new)?)
}

/// Pairs the globals.
fn pair_globals(
    alloc: Global,
    old: &Program,
    new: &Program,
    renames: &[Rename],
) -> Result<Vec<Option<u32>>, PairError>
    requires { length new.now.globals < 2 ^ 32 }
    ensures refused { IsRefusedBy (global_refusal old.now new.now renames.now) result }
    ensures pairs { IfOk result (λ pairs. pairs.items ≡ global_pairs old.now new.now renames.now) }
{
    let renaming = Renaming::of_table(alloc, Table::Global, renames)?;
    let old_names = global_names(alloc, old)?;
    let new_names = global_names(alloc, new)?;
    let old_open = open_names(alloc, Table::Global, old_names.as_slice())?;
    let new_open = open_names(alloc, Table::Global, new_names.as_slice())?;
    pair_named(
        alloc, &renaming, &old_names, &new_names, &old_open, &new_open,
    )
}

/// Pairs the functions.
fn pair_functions(
    alloc: Global,
    old: &Program,
    new: &Program,
    renames: &[Rename],
) -> Result<Vec<Option<u32>>, PairError>
    requires { length new.now.functions < 2 ^ 32 }
    ensures refused { IsRefusedBy (function_refusal old.now new.now renames.now) result }
    ensures pairs { IfOk result (λ pairs. pairs.items ≡ function_pairs old.now new.now renames.now) }
{
    let renaming = Renaming::of_table(alloc, Table::Function, renames)?;
    let old_names = function_names(alloc, old)?;
    let new_names = function_names(alloc, new)?;
    pair_named(
        alloc, &renaming, &old_names, &new_names, &old_names, &new_names,
    )
}

/// The pairs of structs and of their fields, or of unions and of their members.
#[derive(Drop)]
struct TagPairs {
    tags: Vec<Option<u32>>,
    parts: Vec<Sequence<Option<u32>>>,
}

/// Which structs or unions of two programs are paired, and by which renames.
#[derive(Drop)]
struct TagTask<'a> {
    tags: Table,
    parts: Table,
    renames: &'a [Rename],
    old_texts: &'a [Name],
    new_texts: &'a [Name],
    old: &'a [TagDef],
    new: &'a [TagDef],
}

/// Pairs structs and their fields, or unions and their members.
fn pair_tags(alloc: Global, task: &TagTask) -> Result<TagPairs, PairError>
    requires few { length task.now.new.now < 2 ^ 32 }
    requires few_parts { HaveFewParts task.now.new.now }
    ensures refused { IsRefusedBy (task_refusal task.now) result }
    ensures paired { IfOk result (ArePaired task.now) }
{
    let pairer = tag_pairer(
        alloc,
        task.tags,
        task.renames,
        task.old_texts,
        task.new_texts,
        task.old,
        task.new,
    )?;
    check_tags(alloc, task.tags, &pairer)?;
    let renaming = Renaming::of_table(alloc, task.parts, task.renames)?;
    check_parts(alloc, task.tags, &renaming, &pairer)?;
    Ok(TagPairs {
        tags: tag_pairs(alloc, &pairer)?,
        parts: all_part_pairs(alloc, &renaming, &pairer)?,
    })
}

/// The pairs of structs, unions and functions, by which sites pair.
#[derive(Drop)]
struct Pairs<'a> {
    structs: &'a [Option<u32>],
    unions: &'a [Option<u32>],
    functions: &'a [Option<u32>],
}

/// The names of the functions and of the sites of two programs.
#[derive(Drop)]
struct SiteNames {
    old_functions: NameList,
    new_functions: NameList,
    old: NameList,
    new: NameList,
}

fn names_of_sites(alloc: Global, old: &Program, new: &Program) -> Result<SiteNames, Memory>
    ensures { IfOk result (HaveSiteNames old.now new.now) }
{
    let old_functions = function_names(alloc, old)?;
    let new_functions = function_names(alloc, new)?;
    let old_sites = site_names(alloc, &old_functions, old.sites.as_slice())?;
    let new_sites = site_names(alloc, &new_functions, new.sites.as_slice())?;
    Ok(SiteNames {
        old: NameList::new(alloc, old_sites)?,
        new: NameList::new(alloc, new_sites)?,
        old_functions,
        new_functions,
    })
}

/// Pairs the sites.
fn pair_all_sites(
    alloc: Global,
    old: &Program,
    new: &Program,
    renames: &[Rename],
    pairs: &Pairs,
) -> Result<Vec<Option<u32>>, PairError>
    requires few_functions { length old.now.functions < 2 ^ 32 }
    requires few_sites { length new.now.sites < 2 ^ 32 }
    requires structs { pairs.now.structs.now ≡ struct_pairs old.now new.now renames.now }
    requires unions { pairs.now.unions.now ≡ union_pairs old.now new.now renames.now }
    requires functions { pairs.now.functions.now ≡ function_pairs old.now new.now renames.now }
    ensures refused { IsRefusedBy (site_refusal old.now new.now renames.now) result }
    ensures pairs { IfOk result (λ found. found.items ≡ site_pairs old.now new.now renames.now) }
{
    let renaming = Renaming::of_table(alloc, Table::Site, renames)?;
    let names = names_of_sites(alloc, old, new)?;
    renaming.check(alloc, &names.old, &names.new)?;
    let old_sites = old.sites.as_slice();
    let new_sites = new.sites.as_slice();
    let types = TwoTypes {
        old: old.types.parts(),
        new: new.types.parts(),
        structs: pairs.structs,
        unions: pairs.unions,
    };
    let partners = site_partners(alloc, &types, old_sites, new_sites, pairs.functions)?;
    let pairer = SitePairer {
        renaming: &renaming,
        old_functions: &names.old_functions,
        new_functions: &names.new_functions,
        partners: &partners,
        new: &names.new,
    };
    Ok(pair_sites(alloc, &pairer, old_sites)?)
}

/// The structs of two programs.
fn struct_task<'a>(old: &'a Program, new: &'a Program, renames: &'a [Rename]) -> TagTask<'a>
    ensures task { IsStructTask old.now new.now renames.now result }
    ensures few { length result.new.now < 2 ^ 32 }
    ensures few_parts { HaveFewParts result.new.now }
{
    let old_types = old.types.parts();
    let new_types = new.types.parts();
    TagTask {
        tags: Table::Struct,
        parts: Table::Field,
        renames,
        old_texts: old.names.as_slice(),
        new_texts: new.names.as_slice(),
        old: old_types.structs.as_slice(),
        new: new_types.structs.as_slice(),
    }
}

/// The unions of two programs.
fn union_task<'a>(old: &'a Program, new: &'a Program, renames: &'a [Rename]) -> TagTask<'a>
    ensures task { IsUnionTask old.now new.now renames.now result }
    ensures few { length result.new.now < 2 ^ 32 }
    ensures few_parts { HaveFewParts result.new.now }
{
    let old_types = old.types.parts();
    let new_types = new.types.parts();
    TagTask {
        tags: Table::Union,
        parts: Table::Member,
        renames,
        old_texts: old.names.as_slice(),
        new_texts: new.names.as_slice(),
        old: old_types.unions.as_slice(),
        new: new_types.unions.as_slice(),
    }
}

/// Pairs the structs and their fields.
fn pair_structs(
    alloc: Global,
    old: &Program,
    new: &Program,
    renames: &[Rename],
) -> Result<TagPairs, PairError>
    ensures refused { IsRefusedBy (or_else (struct_refusal old.now new.now renames.now)
        (field_refusal old.now new.now renames.now)) result }
    ensures tags { IfOk result (λ pairs. pairs.tags.items ≡ struct_pairs old.now new.now renames.now) }
    ensures parts { IfOk result (λ pairs. pairs.parts.items ≡ field_pairs old.now new.now renames.now) }
{
    let task = struct_task(old, new, renames);
    pair_tags(alloc, &task)
}

/// Pairs the unions and their members.
fn pair_unions(
    alloc: Global,
    old: &Program,
    new: &Program,
    renames: &[Rename],
) -> Result<TagPairs, PairError>
    ensures refused { IsRefusedBy (or_else (union_refusal old.now new.now renames.now)
        (member_refusal old.now new.now renames.now)) result }
    ensures tags { IfOk result (λ pairs. pairs.tags.items ≡ union_pairs old.now new.now renames.now) }
    ensures parts { IfOk result (λ pairs. pairs.parts.items ≡ member_pairs old.now new.now renames.now) }
{
    let task = union_task(old, new, renames);
    pair_tags(alloc, &task)
}

/// The pairs of each table.
#[derive(Drop)]
struct TablePairs {
    globals: Vec<Option<u32>>,
    structs: TagPairs,
    unions: TagPairs,
    functions: Vec<Option<u32>>,
    sites: Vec<Option<u32>>,
}

/// Pairs each table, in the order in which renames are tried.
fn pair_tables(
    alloc: Global,
    old: &Program,
    new: &Program,
    renames: &[Rename],
) -> Result<TablePairs, PairError>
    requires old_few { HasFewEntries old.now }
    requires new_few { HasFewEntries new.now }
    ensures refused { IsRefusedBy (refusal_of old.now new.now renames.now) result }
    ensures pairs { IfOk result (AreTablePairs old.now new.now renames.now) }
{
    let globals = pair_globals(alloc, old, new, renames)?;
    let structs = pair_structs(alloc, old, new, renames)?;
    let unions = pair_unions(alloc, old, new, renames)?;
    let functions = pair_functions(alloc, old, new, renames)?;
    let pairs = Pairs {
        structs: &structs.tags,
        unions: &unions.tags,
        functions: &functions,
    };
    let sites = pair_all_sites(alloc, old, new, renames, &pairs)?;
    Ok(TablePairs {
        globals,
        structs,
        unions,
        functions,
        sites,
    })
}

/// Pairs two programs by their names and by renames. The pairing has no handler and nothing that is called last, and it
/// refuses pointers to dead objects. Renames are tried by their tables, and within one in the order of the old names'
/// bytes; the first that is refused counts.
///
/// # Errors
///
/// `NoSuch` with the old name, where the old program doesn't have it or it can't be renamed: `m_in`, `m_out`, `message`
/// and the fields of `message` can't. Else `NoSuch` with the new name, where the new program doesn't have it, for a field
/// or a member in the pair of its struct or union, or where it is `m_in`, `m_out` or `message`. Else `Twice` with a new
/// name that an earlier rename gives, for a field or a member one of the same struct or union. `Memory` where an
/// allocation was refused.
pub fn pair(
    alloc: Global,
    old: &Program,
    new: &Program,
    renames: &Renames,
) -> Result<Pairing, PairError>
    requires old_few { HasFewEntries old.now }
    requires new_few { HasFewEntries new.now }
    ensures { IsPairedBy (pair old.now new.now renames.now) result }
{
    let tables = pair_tables(alloc, old, new, renames.as_slice())?;
    let old_outline = outline_of(alloc, old)?;
    let new_outline = outline_of(alloc, new)?;
    Ok(Pairing {
        globals: Sequence::from_vec(tables.globals),
        structs: Sequence::from_vec(tables.structs.tags),
        fields: Sequence::from_vec(tables.structs.parts),
        unions: Sequence::from_vec(tables.unions.tags),
        members: Sequence::from_vec(tables.unions.parts),
        functions: Sequence::from_vec(tables.functions),
        sites: Sequence::from_vec(tables.sites),
        old: old_outline,
        new: new_outline,
        dangling: Dangling::Refuse,
        handlers: Sequence::from_vec(Vec::new(alloc)),
        after: None,
    })
}
