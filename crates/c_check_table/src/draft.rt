// A table of types that is being made.

ghost use Rattle.std.specs.Prelude.{◌≡◌, ◌++◌, ◌∷◌, [], IfOk, OnOk};
ghost use Rattle.c_check_table.specs.Drafts as spec;

use crate::types::TypeList;
use c_check_decl::shaped::Shaped;
use c_check_scope::numbers::as_number;
use c_types::{Parts, Sequence, Shape, Signature, TagDef, Ty, TyId};
use sqlite_items::Items;
use std::alloc::{AllocError, Global};
use std::mem::replace;

/// A table of types that is being made.
#[derive(Drop)]
pub struct Draft {
    /// The bytes of a pointer, which are its alignment too: 4 or 8.
    pub pointer: u32,
    pub types: TypeList,
    /// The size and the alignment of each type. A struct or union has its own from its declaration on.
    pub shapes: Items<Shape>,
    pub signatures: Sequence<Signature>,
    pub structs: Sequence<TagDef>,
    pub unions: Sequence<TagDef>,
}

impl Shaped for Draft {
    ghost use Rattle.c_check_table.specs.Drafts.{shapes};

    ghost shapes = { shapes };

    fn bytes_of(&self, number: TyId) -> u32 {
        self.shape_of(number).size
    }

    fn alignment_of(&self, number: TyId) -> u32 {
        self.shape_of(number).align
    }
}

impl Draft {
    /// With pointers of so many bytes. It takes no memory.
    pub fn new(alloc: Global, pointer: u32) -> Draft
        ensures { result ≡ spec.nothing pointer }
    {
        Draft {
            pointer,
            types: TypeList::new(alloc),
            shapes: Items::new(alloc),
            signatures: Sequence::from_vec(Vec::new(alloc)),
            structs: Sequence::from_vec(Vec::new(alloc)),
            unions: Sequence::from_vec(Vec::new(alloc)),
        }
    }

    /// The size and the alignment of a type, by its number; those of no type where there is none.
    pub fn shape_of(&self, number: TyId) -> Shape
        ensures { result ≡ spec.shapes self.now number }
    {
        match self.shapes.as_slice().get(number as usize) {
            None => Shape { size: 0, align: 1 },
            Some(shape) => *shape,
        }
    }

    /// Adds a type of this size and alignment, if it isn't there, and gives its number. Want of memory where there are
    /// too many.
    #[tactic(auto, unfolding(crate::specs::Drafts::with_type))]
    pub fn add(&mut self, ty: Ty, shape: Shape) -> Result<TyId, AllocError>
        ensures draft { OnOk result (self.new ≡ spec.with_type self.old ty shape) }
        ensures number { IfOk result (λ number. number ≡ spec.place_of self.old.types ty) }
    {
        let (number, is_new) = self.types.add(ty)?;
        if is_new {
            self.shapes.push(shape)?;
        }
        as_number(number)
    }

    /// The size and the alignment of pointers.
    pub fn pointer_shape(&self) -> Shape
        ensures { result ≡ spec.pointer_shape self.now }
    {
        Shape {
            size: self.pointer,
            align: self.pointer,
        }
    }

    fn add_pointers(&mut self, stars: u8, number: TyId) -> Result<(), AllocError>
        ensures { OnOk result (self.new ≡ spec.with_pointers self.old stars number) }
    {
        if stars == 0 {
            return Ok(());
        }
        let shape = self.pointer_shape();
        let pointer = self.add(Ty::Pointer(number), shape)?;
        self.add_pointers(stars - 1, pointer)
    }

    /// Adds a type with the pointer types that have at most so many stars over it, and gives its number.
    #[tactic(auto, unfolding(crate::specs::Drafts::with_stars))]
    pub fn add_with_pointers(&mut self, stars: u8, ty: Ty, shape: Shape) -> Result<TyId, AllocError>
        ensures draft { OnOk result (self.new ≡ spec.with_stars self.old stars ty shape) }
        ensures number { IfOk result (λ number. number ≡ spec.place_of self.old.types ty) }
    {
        let number = self.add(ty, shape)?;
        self.add_pointers(stars, number)?;
        Ok(number)
    }
}

/// Adds an item at the end of a list.
pub fn push<T: Drop>(list: &mut Sequence<T>, alloc: Global, item: T) -> Result<(), AllocError>
    ensures { OnOk result (list.new ≡ list.old ++ (item ∷ [])) }
{
    let mut items = replace(list, Sequence::from_vec(Vec::new(alloc))).into_vec();
    items.push(item)?;
    *list = Sequence::from_vec(items);
    Ok(())
}

/// The lists of the table.
pub fn parts_of(alloc: Global, draft: Draft) -> Result<Parts, AllocError>
    ensures { IfOk result (λ parts. parts ≡ spec.parts_of draft) }
{
    let types = draft.types.copy(alloc)?;
    Ok(Parts {
        pointer: draft.pointer,
        types,
        structs: draft.structs,
        unions: draft.unions,
        signatures: draft.signatures,
    })
}
