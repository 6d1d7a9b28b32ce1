// What a body is.

use c_check_scope::checked::Checked;
use c_check_scope::scope::Scope;
use c_types::TyId;
use sqlite_items::Items;
use src_tree::stmt::TypedStmt;

/// The body of a function.
#[derive(Drop)]
pub struct Body {
    /// The types of its locals, without the parameters.
    pub locals: Items<TyId>,
    /// The types of the elements of its allocations, in the order of their sites.
    pub sites: Items<TyId>,
    pub statements: Items<TypedStmt>,
}

/// A body, or the rules that it breaks, with the scope outside functions.
#[derive(Drop)]
pub struct Judged {
    pub scope: Scope,
    pub body: Checked<Body>,
}
