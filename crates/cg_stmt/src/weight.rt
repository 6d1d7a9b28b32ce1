// Whether a function is too long.

ghost use Rattle.std.specs.Prelude.{◌≡◌, ◌-◌, ◌<◌, ◌↔◌, IsTrue};
ghost use Rattle.std.specs.Option.{option_map_or};
ghost use Rattle.src_meaning.specs.Weight as spec;

use src_tree::expr::{ExprKind, PlaceKind, TypedExpr, TypedPlace};
use src_tree::program::Function;
use src_tree::stmt::{Call, Callee, Rhs, TypedStmt};

/// The greatest weight of a function.
pub const GREATEST_WEIGHT: u32 = 16384;

/// What is left after one construct.
fn after_one(left: u32) -> u32
    ensures { result ≡ left - 1 }
{
    left.saturating_sub(1)
}

/// What is left after an expression.
#[cycle(after_expression)]
#[tactic(auto, using(crate::proofs::Weights::expression_facts))]
fn after_expression(left: u32, e: &TypedExpr) -> u32
    ensures { result ≡ left - spec.expr_weight e.now.kind }
{
    match &e.kind {
        ExprKind::Number(_) | ExprKind::SizeOf(_) => after_one(left),
        ExprKind::Local(_) | ExprKind::Function(_) => after_one(left),
        ExprKind::Load(place) => after_place(left, place.get()),
        ExprKind::Decay(place) => after_place(left, place.get()),
        ExprKind::AddressOf(place) => after_place(after_one(left), place.get()),
        ExprKind::Convert(inner) => after_expression(left, inner.get()),
        ExprKind::Cast(inner) => after_expression(after_one(left), inner.get()),
        ExprKind::Unary(_, inner) => after_expression(after_one(left), inner.get()),
        ExprKind::Binary(_, a, b) => {
            let left = after_expression(after_one(left), a.get());
            after_expression(left, b.get())
        }
        ExprKind::Logical(_, a, b) => {
            let left = after_expression(after_one(left), a.get());
            after_expression(left, b.get())
        }
        ExprKind::Conditional(c, a, b) => {
            let left = after_expression(after_one(left), c.get());
            after_expression(after_expression(left, a.get()), b.get())
        }
    }
}

/// What is left after a place.
#[cycle(after_expression)]
#[tactic(auto, using(crate::proofs::Weights::expression_facts))]
fn after_place(left: u32, place: &TypedPlace) -> u32
    ensures { result ≡ left - spec.place_weight place.now.kind }
{
    match &place.kind {
        PlaceKind::Global(_) => after_one(left),
        PlaceKind::Deref(e) => after_expression(after_one(left), e.get()),
        PlaceKind::Arrow(e) => after_expression(left, e.get()),
        PlaceKind::Item(pointer, index) => {
            let left = after_expression(after_one(left), pointer.get());
            after_expression(left, index.get())
        }
        PlaceKind::Element(array, index) => {
            after_expression(after_place(after_one(left), array.get()), index.get())
        }
        PlaceKind::Field(whole, _) => after_place(after_one(left), whole.get()),
        PlaceKind::Member(whole, _) => after_place(after_one(left), whole.get()),
    }
}

fn after_callee(left: u32, callee: &Callee) -> u32
    ensures { result ≡ left - spec.callee_weight callee.now }
{
    match callee {
        Callee::Pointer(e) => after_expression(left, e),
        Callee::Malloc(_) | Callee::Calloc(_) => after_one(left),
        Callee::Function(_) | Callee::Send | Callee::Free | Callee::Panic => left,
    }
}

#[tactic(auto, using(crate::proofs::Weights::list_facts))]
fn after_arguments(left: u32, args: &[TypedExpr]) -> u32
    ensures { result ≡ left - spec.exprs_weight args.now }
{
    let mut rest = left;
    for e in args {
        rest = after_expression(rest, e);
    }
    rest
}

fn after_call(left: u32, call: &Call) -> u32
    ensures { result ≡ left - spec.call_weight call.now }
{
    after_arguments(
        after_callee(after_one(left), &call.callee),
        call.args.as_slice(),
    )
}

fn after_right_side(left: u32, rhs: &Rhs) -> u32
    ensures { result ≡ left - spec.rhs_weight rhs.now }
{
    match rhs {
        Rhs::Value(e) => after_expression(left, e),
        Rhs::Call(call, _) => after_call(left, call),
    }
}

fn after_optional(left: u32, rhs: &Option<Rhs>) -> u32
    ensures { result ≡ left - option_map_or spec.rhs_weight rhs.now 0 }
{
    match rhs {
        None => left,
        Some(rhs) => after_right_side(left, rhs),
    }
}

fn after_condition(left: u32, e: &Option<TypedExpr>) -> u32
    ensures { result ≡ left - spec.condition_weight e.now }
{
    match e {
        None => left,
        Some(e) => after_expression(left, e),
    }
}

/// What is left after a statement.
#[cycle(after_statement)]
#[tactic(auto, using(crate::proofs::Weights::statement_facts))]
fn after_statement(left: u32, statement: &TypedStmt) -> u32
    ensures { result ≡ left - spec.statement_weight statement.now }
{
    let left = after_one(left);
    match statement {
        TypedStmt::Block(body) => after_statements(left, body.as_slice()),
        TypedStmt::Declare(_, rhs) => after_optional(left, rhs),
        TypedStmt::Return(rhs) => after_optional(left, rhs),
        TypedStmt::SetLocal(_, rhs) => after_right_side(after_one(left), rhs),
        TypedStmt::Assign(place, rhs) => after_right_side(after_place(left, place), rhs),
        TypedStmt::Call(call) => after_call(left, call),
        TypedStmt::If(test, then, otherwise) => {
            let left = after_statement(after_expression(left, test), then.get());
            after_statements(left, otherwise.as_slice())
        }
        TypedStmt::While(test, body) => {
            after_statement(after_expression(left, test), body.get())
        }
        TypedStmt::For(first, test, step, body) => {
            let left = after_condition(after_statements(left, first.as_slice()), test);
            after_statement(after_statements(left, step.as_slice()), body.get())
        }
        TypedStmt::Empty | TypedStmt::Break | TypedStmt::Continue => left,
    }
}

/// What is left after statements.
#[cycle(after_statement)]
#[tactic(auto, using(crate::proofs::Weights::statement_facts))]
fn after_statements(left: u32, statements: &[TypedStmt]) -> u32
    ensures { result ≡ left - spec.body_weight statements.now }
{
    let mut rest = left;
    for statement in statements {
        rest = after_statement(rest, statement);
    }
    rest
}

/// Whether a function's weight passes the greatest. The count stops there.
pub fn is_too_long(function: &Function) -> bool
    ensures { IsTrue result ↔ (GREATEST_WEIGHT < spec.weight function.now) }
{
    after_statements(GREATEST_WEIGHT + 1, function.body.as_slice()) == 0
}
