// Names with what they are the tags and functions of.

ghost use Rattle.std.specs.Prelude.{◌≡◌, ◌<◌, IfOk, OnOk, None, length};
ghost use Rattle.c_check_scope.specs.Names.{number_named, place_of};
ghost use Rattle.c_check_table.specs.Outlines as spec;

use c_ast::types::TagKind;
use c_check_scope::names::Names;
use c_check_scope::numbers::next;
use c_check_scope::scope::Tag;
use lu_base::Name;
use sqlite_items::Items;
use std::alloc::{AllocError, Global};

/// What a text declares, by name: the lists have one entry for each name, by first appearance.
#[derive(Drop)]
pub struct Outline {
    pub names: Names,
    /// The same names.
    pub texts: Items<Name>,
    /// The struct or union of which the name is the tag, by its first declaration.
    pub tags: Items<Option<Tag>>,
    /// The place in the text of the first prototype or definition of a function of the name.
    pub headings: Items<Option<u32>>,
    /// The place of its first definition.
    pub definitions: Items<Option<u32>>,
    /// How many structs there are.
    pub structs: u32,
    pub unions: u32,
}

#[tactic(auto, unfolding(crate::specs::Outlines::first_of))]
fn add_first(places: &mut Items<Option<u32>>, number: usize, place: u32)
    ensures { places.new ≡ spec.first_of places.old number place }
{
    if let Some(None) = places.get(number) {
        places.set(number, Some(place));
    }
}

impl Outline {
    /// An outline without a name. It takes no memory.
    pub fn new(alloc: Global) -> Outline
        ensures { result ≡ spec.nothing }
    {
        Outline {
            names: Names::new(alloc),
            texts: Items::new(alloc),
            tags: Items::new(alloc),
            headings: Items::new(alloc),
            definitions: Items::new(alloc),
            structs: 0,
            unions: 0,
        }
    }

    #[tactic(auto, using(crate::proofs::NamePlaces::with_name_new))]
    fn push_name(&mut self, alloc: Global, name: &Name) -> Result<usize, AllocError>
        requires { number_named self.old.names name.now ≡ None }
        ensures outline { OnOk result (self.new ≡ spec.one_more self.old name.now) }
        ensures number { IfOk result (λ number. number ≡ place_of self.old.names name.now) }
    {
        let text = Name::new(String::from_str(alloc, name.as_str())?);
        let number = self.names.add(alloc, name)?;
        self.texts.push(text)?;
        self.tags.push(None)?;
        self.headings.push(None)?;
        self.definitions.push(None)?;
        Ok(number)
    }

    /// Adds a name at the end, if it isn't among them, and gives its number.
    #[tactic(auto, using(crate::proofs::NamePlaces::place_of_found), unfolding(crate::specs::Outlines::named))]
    pub fn add_name(&mut self, alloc: Global, name: &Name) -> Result<usize, AllocError>
        ensures outline { OnOk result (self.new ≡ spec.named self.old name.now) }
        ensures number { IfOk result (λ number. number ≡ place_of self.old.names name.now) }
    {
        match self.names.number_of(name) {
            Some(number) => Ok(number),
            None => self.push_name(alloc, name),
        }
    }

    /// How many structs or unions there are.
    fn count(&self, kind: TagKind) -> u32
        ensures { result ≡ spec.count self.now kind }
    {
        match kind {
            TagKind::Struct => self.structs,
            TagKind::Union => self.unions,
        }
    }

    fn push_tag(
        &mut self,
        kind: TagKind,
        is_declared: bool,
        number: usize,
    ) -> Result<(), AllocError>
        requires { number < length self.old.tags }
        ensures { OnOk result (self.new ≡ spec.next_tag self.old kind is_declared number) }
    {
        let count = self.count(kind);
        let more = next(count)?;
        self.tags.set(
            number,
            Some(Tag {
                kind,
                number: count,
                is_declared,
            }),
        );
        match kind {
            TagKind::Struct => self.structs = more,
            TagKind::Union => self.unions = more,
        }
        Ok(())
    }

    /// Makes the name of a number a tag, unless it is one. Want of memory where there are too many.
    #[tactic(auto, unfolding(crate::specs::Outlines::tagged))]
    fn tag(&mut self, kind: TagKind, is_declared: bool, number: usize) -> Result<(), AllocError>
        ensures { OnOk result (self.new ≡ spec.tagged self.old kind is_declared number) }
    {
        match self.tags.get(number) {
            Some(None) => self.push_tag(kind, is_declared, number),
            _ => Ok(()),
        }
    }

    /// Adds a tag.
    #[tactic(auto, unfolding(crate::specs::Outlines::with_tag))]
    pub fn add_tag(
        &mut self,
        alloc: Global,
        kind: TagKind,
        is_declared: bool,
        name: &Name,
    ) -> Result<(), AllocError>
        ensures { OnOk result (self.new ≡ spec.with_tag self.old kind is_declared name.now) }
    {
        let number = self.add_name(alloc, name)?;
        self.tag(kind, is_declared, number)
    }

    /// Adds a prototype or definition at a place of the text, and gives the number of its name.
    #[tactic(auto, unfolding(crate::specs::Outlines::headed, crate::specs::Outlines::with_heading))]
    pub fn add_heading(
        &mut self,
        alloc: Global,
        name: &Name,
        place: u32,
    ) -> Result<usize, AllocError>
        ensures outline { OnOk result (self.new ≡ spec.with_heading self.old name.now place) }
        ensures number { IfOk result (λ number. number ≡ place_of self.old.names name.now) }
    {
        let number = self.add_name(alloc, name)?;
        add_first(&mut self.headings, number, place);
        Ok(number)
    }

    /// Adds a definition at a place of the text.
    #[tactic(auto, unfolding(crate::specs::Outlines::defined, crate::specs::Outlines::with_definition))]
    pub fn add_definition(
        &mut self,
        alloc: Global,
        name: &Name,
        place: u32,
    ) -> Result<(), AllocError>
        ensures { OnOk result (self.new ≡ spec.with_definition self.old name.now place) }
    {
        let number = self.add_heading(alloc, name, place)?;
        add_first(&mut self.definitions, number, place);
        Ok(())
    }
}
