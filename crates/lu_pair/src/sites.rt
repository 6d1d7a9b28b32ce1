// The allocations of two programs.

ghost use Rattle.std.specs.Prelude.{◌≡◌, ◌<◌, ◌^◌, length, map, IfOk};
ghost use Rattle.lu_spec.specs.Then.{then_option};
ghost use Rattle.lu_image.specs.Pairing.{site_elements, all_correspond, partner_if};
ghost use Rattle.lu_pair.specs.Sites.{AreElements, elements_in, same_types, partners_from, site_pair};

use crate::names::NameList;
use crate::renaming::Renaming;
use crate::texts::site_name;
use c_types::{Parts, TyId};
use lu_base::Memory;
use lu_image::corresponds;
use src_tree::program::Site;
use std::alloc::Global;
use std::collections::HashMap;

/// The types of two programs, and which structs and unions pair.
#[derive(Drop)]
pub struct TwoTypes<'a> {
    pub old: &'a Parts,
    pub new: &'a Parts,
    pub structs: &'a [Option<u32>],
    pub unions: &'a [Option<u32>],
}

/// For each function that has sites, the types that they allocate, in the order of the text.
fn elements_of(alloc: Global, sites: &[Site]) -> Result<HashMap<u32, Vec<TyId>>, Memory>
    ensures { IfOk result (λ elements. AreElements elements sites.now) }
{
    let mut elements: HashMap<u32, Vec<TyId>> = HashMap::new(alloc);
    for site in sites {
        elements.entry(site.function)?.or_default().push(site.elem)?;
    }
    Ok(elements)
}

fn elements_at(elements: &HashMap<u32, Vec<TyId>>, function: u32) -> &[TyId]
    ensures { result.now ≡ elements_in elements.now function }
{
    match elements.get(&function) {
        None => &[],
        Some(list) => list.as_slice(),
    }
}

/// Whether types correspond in order, and are as many.
fn all_correspond(types: &TwoTypes, old: &[TyId], new: &[TyId]) -> bool
    ensures { result ≡ all_correspond (same_types types.now) old.now new.now }
{
    if old.len() != new.len() {
        return false;
    }
    for (place, ty) in old.iter().enumerate() {
        if !corresponds(
            types.old,
            types.new,
            types.structs,
            types.unions,
            *ty,
            new[place],
        ) {
            return false;
        }
    }
    true
}

/// The pair of a function, if the types that both allocate correspond in order and are as many.
fn partner(
    types: &TwoTypes,
    old: &HashMap<u32, Vec<TyId>>,
    new: &HashMap<u32, Vec<TyId>>,
    function: u32,
    pair: Option<u32>,
) -> Option<u32>
    ensures { result ≡ then_option pair
        (partner_if (same_types types.now) (elements_in old.now) (elements_in new.now) function) }
{
    match pair {
        None => None,
        Some(pair) => {
            if all_correspond(types, elements_at(old, function), elements_at(new, pair)) {
                Some(pair)
            } else {
                None
            }
        }
    }
}

/// The partners of all functions, from their pairs.
fn partners(
    alloc: Global,
    types: &TwoTypes,
    old: &HashMap<u32, Vec<TyId>>,
    new: &HashMap<u32, Vec<TyId>>,
    pairs: &[Option<u32>],
) -> Result<Vec<Option<u32>>, Memory>
    requires { length pairs.now < 2 ^ 32 }
    ensures { IfOk result (λ list. list.items
        ≡ partners_from (partner_if (same_types types.now) (elements_in old.now) (elements_in new.now)) 0 pairs.now) }
{
    let mut list = Vec::new(alloc);
    for (function, pair) in pairs.iter().enumerate() {
        list.push(partner(types, old, new, function as u32, *pair))?;
    }
    Ok(list)
}

/// The functions with which those of the old program share their sites.
pub fn site_partners(
    alloc: Global,
    types: &TwoTypes,
    old: &[Site],
    new: &[Site],
    pairs: &[Option<u32>],
) -> Result<Vec<Option<u32>>, Memory>
    requires { length pairs.now < 2 ^ 32 }
    ensures { IfOk result (λ list. list.items
        ≡ partners_from (partner_if (same_types types.now) (site_elements old.now) (site_elements new.now)) 0 pairs.now) }
{
    let old = elements_of(alloc, old)?;
    let new = elements_of(alloc, new)?;
    partners(alloc, types, &old, &new, pairs)
}

/// The functions of two programs by their names, those with which the old ones share their sites, and the new sites.
#[derive(Drop)]
pub struct SitePairer<'a> {
    pub renaming: &'a Renaming,
    pub old_functions: &'a NameList,
    pub new_functions: &'a NameList,
    pub partners: &'a [Option<u32>],
    pub new: &'a NameList,
}

/// The pair of a site.
fn pair_site(alloc: Global, p: &SitePairer, site: &Site) -> Result<Option<u32>, Memory>
    requires { length p.now.new.now < 2 ^ 32 }
    ensures { IfOk result (λ pair. pair ≡ site_pair p.now site.now) }
{
    let own = site_name(
        alloc,
        p.old_functions.get(site.function as usize),
        site.ordinal,
    )?;
    let wanted = match p.partners.get(site.function as usize) {
        Some(Some(pair)) => site_name(alloc, p.new_functions.get(*pair as usize), site.ordinal)?,
        _ => None,
    };
    Ok(p.renaming.pair_by(p.new, &own, &wanted))
}

/// The pairs of all sites.
pub fn pair_sites(alloc: Global, p: &SitePairer, sites: &[Site]) -> Result<Vec<Option<u32>>, Memory>
    requires { length p.now.new.now < 2 ^ 32 }
    ensures { IfOk result (λ pairs. pairs.items ≡ map (site_pair p.now) sites.now) }
{
    let mut pairs = Vec::new(alloc);
    for site in sites {
        pairs.push(pair_site(alloc, p, site)?)?;
    }
    Ok(pairs)
}
