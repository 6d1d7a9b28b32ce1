// The words of the carried pointers in bytes.

ghost use Rattle.std.specs.Prelude.{◌≡◌, ◌+◌, ◌++◌, Some, slice_get, OnOk, IfOk};
ghost use Rattle.c_types.specs.declared.parts.Ty.TheVariants as T;
ghost use Rattle.c_types.specs.Layout.{align_of, next_multiple};
ghost use Rattle.lu_image_store.specs.Versions.{old_types, old_size};
ghost use Rattle.lu_scan.specs.Scan.{words_in, pair_words, fields_words, items_words, struct_pair_words, union_pair_words};
ghost use Rattle.lu_scan.specs.Given.{versions, pairs_between};

use crate::types::{array_in, struct_in, union_in};
use crate::versions::{FieldPairs, PairedPrograms, do_pair, field_at, paired_field, paired_member};
use crate::words::{bytes_from, put_pointer, word_at};
use c_types::{FieldDef, Step, Ty, TyId, TypeTable};
use lu_base::Memory;

/// What is known of a value whose bytes are read.
#[derive(Clone, Copy)]
pub struct Part {
    /// The number of its type in the old program.
    pub ty: TyId,
    /// Whether structs in it are handled that have a handler.
    pub handled: bool,
    /// Its type in the new program, if it has one.
    pub new: Option<Ty>,
}

/// The fields of two structs, and how they pair.
#[derive(Clone, Copy)]
struct PairedFields<'p> {
    old: &'p [FieldDef],
    new: &'p [FieldDef],
    pairs: FieldPairs<'p>,
}

fn sum(a: u32, b: u32) -> Result<u32, Memory>
    ensures { IfOk result (λ sum. sum ≡ a + b) }
{
    a.checked_add(b).ok_or(Memory)
}

/// Where what comes after `end` begins by its alignment.
fn aligned(types: &TypeTable, end: u32, ty: TyId) -> Result<u32, Memory>
    ensures { IfOk result (λ start. start ≡ next_multiple end (align_of types.now ty)) }
{
    let _parts = types.parts();
    let align = types.align_of(ty);
    Ok(sum(end, align - 1)? / align * align)
}

/// Puts the words of a field's value, or of a member's, behind the others, if the field has a pair.
#[cycle(scan)]
fn scan_pair(
    programs: &PairedPrograms,
    depth: usize,
    handled: bool,
    ty: TyId,
    pair: Option<FieldDef>,
    bytes: &[u8],
    words: &mut Vec<u32>,
) -> Result<(), Memory>
    ensures { OnOk result (words.new.items ≡ words.old.items
        ++ pair_words (versions programs.now) (words_in (versions programs.now) depth ty handled)
        bytes.now pair) }
{
    match pair {
        Some(field) => {
            let part = Part {
                ty,
                handled,
                new: programs.new_type(field.ty),
            };
            scan(programs, depth, part, bytes, words)
        }
        None => Ok(()),
    }
}

/// Puts the words of fields behind the others.
#[cycle(scan)]
fn scan_fields(
    programs: &PairedPrograms,
    depth: usize,
    handled: bool,
    fields: &PairedFields,
    bytes: &[u8],
    words: &mut Vec<u32>,
) -> Result<(), Memory>
    ensures { OnOk result (words.new.items ≡ words.old.items
        ++ fields_words (versions programs.now) (λ t. words_in (versions programs.now) depth t handled)
        fields.now.new.now bytes.now fields.now.old.now
        (pairs_between (versions programs.now) fields.now.old.now fields.now.new.now
        fields.now.pairs) 0) }
{
    let types = &programs.pairing.old.types;
    let mut end = 0;
    for number in 0..fields.old.len() {
        let field = fields.old[number];
        let start = aligned(types, end, field.ty)?;
        let pair = paired_field(programs, fields.old, fields.new, &fields.pairs, number);
        scan_pair(
            programs,
            depth,
            handled,
            field.ty,
            pair,
            bytes_from(bytes, start),
            words,
        )?;
        end = sum(start, types.size_of(field.ty))?;
    }
    Ok(())
}

/// Puts the words of a struct behind the others, where it pairs with the new one.
#[cycle(scan)]
fn scan_struct(
    programs: &PairedPrograms,
    depth: usize,
    handled: bool,
    old: u32,
    new: u32,
    bytes: &[u8],
    words: &mut Vec<u32>,
) -> Result<(), Memory>
    ensures { OnOk result (words.new.items ≡ words.old.items
        ++ struct_pair_words (versions programs.now) (words_in (versions programs.now) depth)
        handled old bytes.now new) }
{
    if !do_pair(programs.pairing.structs.as_slice(), old, new) {
        return Ok(());
    }
    let from = programs.pairing.old.types.parts().fields_of(old);
    let to = programs.pairing.new.types.parts();
    match programs.handler_of(old) {
        Some(handler) if handled => {
            let fields = PairedFields {
                old: from,
                new: to.fields_of(handler.form),
                pairs: FieldPairs::ByName,
            };
            scan_fields(programs, depth, false, &fields, bytes, words)
        }
        _ => {
            let fields = PairedFields {
                old: from,
                new: to.fields_of(new),
                pairs: FieldPairs::Numbers(programs.field_pairs(old)),
            };
            scan_fields(programs, depth, handled, &fields, bytes, words)
        }
    }
}

/// Puts the words of a union's active member behind the others, where the union pairs with the new one.
#[cycle(scan)]
fn scan_union(
    programs: &PairedPrograms,
    depth: usize,
    part: Part,
    old: u32,
    new: u32,
    bytes: &[u8],
    words: &mut Vec<u32>,
) -> Result<(), Memory>
    requires { slice_get (old_types (versions programs.now)).types part.ty ≡ Some (T.Union old) }
    ensures { OnOk result (words.new.items ≡ words.old.items
        ++ union_pair_words (versions programs.now)
        (λ t. words_in (versions programs.now) depth t part.handled) old bytes.now new) }
{
    if !do_pair(programs.pairing.unions.as_slice(), old, new) {
        return Ok(());
    }
    let types = &programs.pairing.old.types;
    let number = word_at(bytes);
    let Some(member) = field_at(types.parts().members_of(old), number as usize) else {
        return Ok(());
    };
    let pair = paired_member(programs, old, new, number);
    let start = types.offset_of(part.ty, &[Step::Member(number)]);
    scan_pair(
        programs,
        depth,
        part.handled,
        member.ty,
        pair,
        bytes_from(bytes, start),
        words,
    )
}

/// Puts the words of items behind the others, of which so many stand one behind the other.
#[cycle(scan)]
pub fn scan_items(
    programs: &PairedPrograms,
    depth: usize,
    part: Part,
    count: u32,
    bytes: &[u8],
    words: &mut Vec<u32>,
) -> Result<(), Memory>
    ensures { OnOk result (words.new.items ≡ words.old.items
        ++ items_words (words_in (versions programs.now) depth part.ty part.handled part.new)
        (old_size (versions programs.now) part.ty) count bytes.now) }
{
    let size = programs.pairing.old.types.size_of(part.ty);
    let mut rest = bytes;
    for _item in 0..count {
        scan(programs, depth, part, rest, words)?;
        rest = bytes_from(rest, size);
    }
    Ok(())
}

/// Puts the words of a value's carried pointers behind the others, in order. The value's bytes come first, and its types hold
/// one another at most `depth` deep.
#[cycle(scan)]
pub fn scan(
    programs: &PairedPrograms,
    depth: usize,
    part: Part,
    bytes: &[u8],
    words: &mut Vec<u32>,
) -> Result<(), Memory>
    ensures { OnOk result (words.new.items ≡ words.old.items
        ++ words_in (versions programs.now) depth part.ty part.handled part.new bytes.now) }
{
    if depth == 0 {
        return Ok(());
    }
    let depth = depth - 1;
    match programs.pairing.old.types.parts().find_type(part.ty) {
        None => Ok(()),
        Some(Ty::Int(_)) => Ok(()),
        Some(Ty::Function(_)) => Ok(()),
        Some(Ty::Pointer(_)) => put_pointer(words, part.new, bytes),
        Some(Ty::VoidPointer) => put_pointer(words, part.new, bytes),
        Some(Ty::Struct(old)) => match struct_in(part.new) {
            Some(new) => scan_struct(programs, depth, part.handled, old, new, bytes, words),
            None => Ok(()),
        },
        Some(Ty::Union(old)) => match union_in(part.new) {
            Some(new) => scan_union(programs, depth, part, old, new, bytes, words),
            None => Ok(()),
        },
        Some(Ty::Array(elem, count)) => match array_in(part.new) {
            Some(array) => {
                let item = Part {
                    ty: elem,
                    handled: part.handled,
                    new: programs.new_type(array.elem),
                };
                scan_items(programs, depth, item, array.count.min(count), bytes, words)
            }
            None => Ok(()),
        },
    }
}
