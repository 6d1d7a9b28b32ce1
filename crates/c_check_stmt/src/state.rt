// What is known where a statement stands.

ghost use Rattle.std.specs.Prelude.{◌≡◌, IfOk};
ghost use Rattle.c_check_stmt.specs.Rights as spec;

use c_check_scope::numbers::as_number;
use c_check_scope::scope::Scope;
use c_types::TyId;
use sqlite_items::Items;
use std::alloc::AllocError;

/// What holds in the whole body of a function.
#[derive(Clone, Copy)]
pub struct Frame {
    /// The type of its result; none for `void`.
    pub result: Option<TyId>,
    /// The number of the site of its first allocation.
    pub first_site: u32,
}

/// What is known behind a part of a function's body.
#[derive(Drop)]
pub struct State {
    pub scope: Scope,
    /// The types of the locals so far, without the parameters.
    pub locals: Items<TyId>,
    /// The types of the elements of each allocation so far.
    pub sites: Items<TyId>,
}

/// The number of the site of the next allocation.
#[tactic(auto, unfolding(crate::specs::Rights::next_site))]
pub fn next_site(frame: Frame, state: &State) -> Result<u32, AllocError>
    ensures { IfOk result (λ site. site ≡ spec.next_site frame state.now) }
{
    let count = as_number(state.sites.len())?;
    match frame.first_site.checked_add(count) {
        Some(site) => Ok(site),
        None => Err(AllocError),
    }
}
