// What the updates of a plan stand for.

ghost use Rattle.std.specs.Prelude.{◌≡◌, ◌+◌, ◌<◌, ◌≤◌, length, position, IsTrue};
ghost use Rattle.std.specs.List.{list_all};
ghost use Rattle.plan_file.specs.Kept.{KeepsForms, keeps_rename};
ghost use Rattle.plan_file.specs.Renames.{are_in_order};
ghost use Rattle.src_meaning.specs.Valid.{IsValid};
ghost use Rattle.lu_load.specs.Updates.{brings, begins_with, bringing, version_place, FilterAnswers, PairingAnswers, BetweenAnswers, UpdateAnswers, UpdatesAnswers};

use crate::LoadError;
use crate::error::{of_filter, of_pairing};
use cg_program::code::Code;
use lu_base::Sequence;
use lu_filter::read_filter;
use lu_image::Pairing;
use lu_resolve::resolve;
use plan_file::{Plan, Server, Update};
use src_tree::expr::TypedExpr;
use src_tree::program::Program;
use std::alloc::Global;

/// What an update of a plan stands for between two codes of its setup.
#[derive(Drop)]
pub struct UpdateSetup {
    /// The place among the setup's codes of the one that it replaces.
    pub old: usize,
    /// The place of the one that it brings.
    pub new: usize,
    /// The typed expression of its filter.
    pub filter: TypedExpr,
    /// What belongs together in the two programs, with its rule on pointers to dead objects, its handlers and its last call.
    pub pairing: Pairing,
}

/// What an update stands for between two programs.
#[derive(Drop)]
pub struct Resolution {
    pub filter: TypedExpr,
    pub pairing: Pairing,
}

/// Whether it is the version that a server begins with.
fn begins_with(servers: &[Server], server: usize, version: u32) -> bool
    ensures { result ≡ begins_with servers.now server version }
{
    match servers.get(server) {
        None => false,
        Some(own) => own.version == version,
    }
}

/// The first update that brings the version of a server.
fn position_of(updates: &[Update], server: usize, version: u32) -> Option<usize>
    ensures { result ≡ position (brings server version) updates.now }
{
    updates
        .iter()
        .position(|update| update.server == server && update.to == version)
}

/// How many updates come before the first that brings the version of a server.
fn bringing(updates: &[Update], server: usize, version: u32) -> usize
    ensures { result ≡ bringing updates.now server version }
{
    match position_of(updates, server, version) {
        Some(place) => place,
        None => updates.len(),
    }
}

/// The place of a version of a server among the sources of a plan.
fn version_place(plan: &Plan, server: usize, version: u32) -> usize
    requires servers { length plan.now.server ≤ 16 }
    requires updates { length plan.now.update ≤ 64 }
    ensures { result ≡ version_place plan.now server version }
{
    let servers = plan.server.as_slice();
    if begins_with(servers, server, version) {
        server
    } else {
        servers.len() + bringing(plan.update.as_slice(), server, version)
    }
}

fn filter_of(alloc: Global, update: &Update, old: &Program) -> Result<TypedExpr, LoadError>
    ensures { FilterAnswers old.now update.now result }
{
    match read_filter(alloc, old, update.filter.as_str()) {
        Ok(filter) => Ok(filter),
        Err(error) => Err(of_filter(alloc, &update.name, error)),
    }
}

fn pairing_of(
    alloc: Global,
    update: &Update,
    old: &Program,
    new: &Program,
) -> Result<Pairing, LoadError>
    requires old_valid { IsValid old.now }
    requires new_valid { IsValid new.now }
    requires forms { IsTrue (list_all keeps_rename update.now.rename) }
    requires order { IsTrue (are_in_order update.now.rename) }
    ensures { PairingAnswers old.now new.now update.now result }
{
    match resolve(alloc, update, old, new) {
        Ok(pairing) => Ok(pairing),
        Err(error) => Err(of_pairing(alloc, &update.name, error)),
    }
}

/// What an update stands for between the program that it replaces and the one that it brings.
fn resolution_of(
    alloc: Global,
    update: &Update,
    old: &Program,
    new: &Program,
) -> Result<Resolution, LoadError>
    requires old_valid { IsValid old.now }
    requires new_valid { IsValid new.now }
    requires forms { IsTrue (list_all keeps_rename update.now.rename) }
    requires order { IsTrue (are_in_order update.now.rename) }
    ensures { BetweenAnswers old.now new.now update.now result }
{
    let filter = filter_of(alloc, update, old)?;
    let pairing = pairing_of(alloc, update, old, new)?;
    Ok(Resolution { filter, pairing })
}

/// What the update of that number stands for, where the plan's sources have these codes.
fn load_update(
    alloc: Global,
    plan: &Plan,
    codes: &[Code],
    number: usize,
) -> Result<UpdateSetup, LoadError>
    requires forms { KeepsForms plan.now }
    requires each { length codes.now ≡ length plan.now.server + length plan.now.update }
    requires known { number < length plan.now.update }
    ensures { UpdateAnswers plan.now codes.now number result }
{
    let update = &plan.update.as_slice()[number];
    let old = version_place(plan, update.server, update.from);
    let new = plan.server.as_slice().len() + number;
    let found = resolution_of(alloc, update, codes[old].program(), codes[new].program())?;
    Ok(UpdateSetup {
        old,
        new,
        filter: found.filter,
        pairing: found.pairing,
    })
}

/// What each update of a plan stands for, where the plan's sources have these codes.
pub fn load_updates(
    alloc: Global,
    plan: &Plan,
    codes: &[Code],
) -> Result<Sequence<UpdateSetup>, LoadError>
    requires forms { KeepsForms plan.now }
    requires each { length codes.now ≡ length plan.now.server + length plan.now.update }
    ensures { UpdatesAnswers plan.now codes.now result }
{
    let mut updates = Sequence::from_vec(Vec::new(alloc));
    for number in 0..plan.update.as_slice().len() {
        let update = load_update(alloc, plan, codes, number)?;
        updates.push(update)?;
    }
    Ok(updates)
}
