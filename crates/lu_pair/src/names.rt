// Lists of names in which a name is found fast.

ghost use Rattle.std.specs.Prelude.{◌≡◌, ℕ, List, Some, None, if◌then◌else◌, IfOk, OnOk};
ghost use Rattle.std.specs.Option.{option_copied};
ghost use Rattle.std.specs.Str.{bytes_eq};
ghost use Rattle.indexmap.specs.IndexMap.{get_by_text};
ghost use Rattle.lu_image.specs.Names.{find, entry_at};
ghost use Rattle.lu_pair.specs.Places.{HasPlaces, or_place};

use indexmap::IndexMap;
use lu_base::{Memory, Name};
use std::alloc::Global;
use std::marker::Model;

/// The names of some entries in order, and the place of the first entry of each name.
#[derive(Drop)]
pub struct NameList {
    names: Vec<Option<Name>>,
    places: IndexMap<String, usize>,
}

impl Model for NameList {
    ghost use Rattle.lu_image.specs.Names.{Names};
    ghost use Rattle.lu_pair.specs.Places.{HasPlaces};

    ghost Value = { Names };

    ghost view = { λ x. x.names.items };

    ghost invariant = { λ x. HasPlaces x.places x.names.items };
}

/// Keeps the place of a name, unless the name has one.
fn note(
    alloc: Global,
    places: &mut IndexMap<String, usize>,
    name: &Name,
    place: usize,
) -> Result<(), Memory>
    ensures { OnOk result ((q : List ℕ) → get_by_text places.new q
        ≡ or_place (get_by_text places.old q) (if bytes_eq q name.now then Some place else None)) }
{
    if places.get(name.as_str()).is_none() {
        let text = String::from_str(alloc, name.as_str())?;
        places.insert(text, place)?;
    }
    Ok(())
}

fn places_of(alloc: Global, names: &[Option<Name>]) -> Result<IndexMap<String, usize>, Memory>
    ensures { IfOk result (λ places. HasPlaces places names.now) }
{
    let mut places = IndexMap::new(alloc);
    for (place, name) in names.iter().enumerate() {
        if let Some(name) = name {
            note(alloc, &mut places, name, place)?;
        }
    }
    Ok(places)
}

impl NameList {
    /// These names.
    pub fn new(alloc: Global, names: Vec<Option<Name>>) -> Result<NameList, Memory>
        ensures { IfOk result (λ list. list ≡ names.items) }
    {
        let places = places_of(alloc, &names)?;
        Ok(NameList { names, places })
    }

    /// The place of the first entry of a name.
    pub fn find(&self, name: &Name) -> Option<usize>
        ensures { result ≡ find name.now self.now }
    {
        match self.places.get(name.as_str()) {
            None => None,
            Some(place) => Some(*place),
        }
    }

    /// The name at a place, if there is one.
    pub fn get(&self, place: usize) -> Option<&Name>
        ensures { option_copied result ≡ entry_at self.now place }
    {
        match self.names.as_slice().get(place) {
            Some(Some(name)) => Some(name),
            _ => None,
        }
    }

    pub fn as_slice(&self) -> &[Option<Name>]
        ensures { result.now ≡ self.now }
    {
        self.names.as_slice()
    }
}
