// What is declared where an expression stands.

ghost use Rattle.std.specs.Prelude.{◌≡◌};
ghost use Rattle.c_check_scope.specs.Names.{local_of, global_of, meaning_of, tag_of, part_named, with_meaning};

use crate::members::{Part, part_of};
use crate::names::Names;
use crate::types::Types;
use c_ast::types::TagKind;
use c_types::{Ty, TyId};
use lu_base::Name;
use sqlite_items::Items;

/// A function that every program has without a declaration.
#[derive(Clone, Copy, Debug, PartialEq, Eq)]
pub enum BuiltIn {
    Send,
    Malloc,
    Calloc,
    Free,
    Panic,
}

/// What a name is declared as.
#[derive(Clone, Copy, Debug, PartialEq, Eq)]
pub enum Meaning {
    /// A global, with its number and the number of its type.
    Global(u32, TyId),
    /// A parameter or local, with its number and the number of its type.
    Local(u32, TyId),
    /// A function, with its number and that of its signature.
    Function(u32, u32),
    BuiltIn(BuiltIn),
}

/// What a tag is in the text.
#[derive(Clone, Copy, Debug, PartialEq, Eq)]
pub struct Tag {
    pub kind: TagKind,
    /// Its number among the structs or unions.
    pub number: u32,
    /// Whether its declaration stands earlier.
    pub is_declared: bool,
}

/// What is declared where an expression stands.
#[derive(Drop)]
pub struct Scope {
    /// The types of the program.
    pub types: Types,
    /// The names of the text. The others are by their numbers.
    pub names: Names,
    /// What each name is declared as outside functions, if it is a variable or function.
    pub meanings: Items<Option<Meaning>>,
    /// The struct or union of which each name is the tag, if any.
    pub tags: Items<Option<Tag>>,
    /// The names of the parameters and locals that are declared so far in the function whose text this is.
    pub locals: Names,
    /// What each of these is declared as.
    pub variables: Items<Meaning>,
}

impl Scope {
    #[tactic(auto, unfolding(crate::specs::Names::local_of))]
    fn local_of(&self, name: &Name) -> Option<Meaning>
        ensures { result ≡ local_of self.now name.now }
    {
        match self.locals.number_of(name) {
            None => None,
            Some(number) => match self.variables.as_slice().get(number) {
                None => None,
                Some(meaning) => Some(*meaning),
            },
        }
    }

    /// The global, function or built-in of a name.
    #[tactic(auto, unfolding(crate::specs::Names::global_of))]
    pub fn global_of(&self, name: &Name) -> Option<Meaning>
        ensures { result ≡ global_of self.now name.now }
    {
        match self.names.number_of(name) {
            None => None,
            Some(number) => match self.meanings.as_slice().get(number) {
                None => None,
                Some(meaning) => *meaning,
            },
        }
    }

    /// What a name is declared as.
    #[tactic(auto, unfolding(crate::specs::Names::meaning_of))]
    pub fn meaning_of(&self, name: &Name) -> Option<Meaning>
        ensures { result ≡ meaning_of self.now name.now }
    {
        match self.local_of(name) {
            Some(meaning) => Some(meaning),
            None => self.global_of(name),
        }
    }

    /// The struct or union of a tag.
    #[tactic(auto, unfolding(crate::specs::Names::tag_of))]
    pub fn tag_of(&self, name: &Name) -> Option<Tag>
        ensures { result ≡ tag_of self.now name.now }
    {
        match self.names.number_of(name) {
            None => None,
            Some(number) => match self.tags.as_slice().get(number) {
                None => None,
                Some(tag) => *tag,
            },
        }
    }

    /// The field or member that a type has by a name.
    #[tactic(auto, unfolding(crate::specs::Names::part_named))]
    pub fn part_named(&self, ty: Ty, name: &Name) -> Option<Part>
        ensures { result ≡ part_named self.now ty name.now }
    {
        match self.names.number_of(name) {
            None => None,
            Some(number) => part_of(self.types.parts(), ty, number),
        }
    }
}

/// The name of this number means this from here on, if there is such a name.
#[tactic(auto, using(crate::proofs::Past::set_past))]
pub fn set_meaning(meanings: &mut Items<Option<Meaning>>, number: usize, meaning: Meaning)
    ensures { meanings.new ≡ with_meaning meanings.old number meaning }
{
    if number < meanings.len() {
        meanings.set(number, Some(meaning));
    }
}
