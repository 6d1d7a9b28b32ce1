// The bounds on depth and chains, counted as in a text with the fewest parentheses.

ghost use Rattle.std.specs.Prelude.{◌≡◌, ◌-◌};
ghost use Rattle.src_meaning.specs.ValidDepth as spec;

use src_meaning::validity::Spot;
use src_tree::expr::{BinaryOperator, ExprKind, LogicalOperator, PlaceKind, TypedExpr, TypedPlace};

/// The operators of a chain of one level, and the steps of a postfix.
const GREATEST_CHAIN: u32 = 64;
/// The ranks of a postfix, a unary, the condition of a `?:`, and a whole expression.
pub const POSTFIX: u32 = 0;

pub const UNARY: u32 = 1;

const CONDITION: u32 = 11;

const WHOLE: u32 = 12;

fn binary_rank(operator: BinaryOperator) -> u32
    ensures { result ≡ spec.binary_rank operator }
{
    match operator {
        BinaryOperator::Multiply | BinaryOperator::Divide | BinaryOperator::Remainder => 2,
        BinaryOperator::Add | BinaryOperator::Subtract => 3,
        BinaryOperator::PointerAdd | BinaryOperator::AddPointer => 3,
        BinaryOperator::PointerSubtract | BinaryOperator::PointerDifference => 3,
        BinaryOperator::ShiftLeft | BinaryOperator::ShiftRight => 4,
        BinaryOperator::Less | BinaryOperator::LessEqual => 5,
        BinaryOperator::Greater | BinaryOperator::GreaterEqual => 5,
        BinaryOperator::Equal | BinaryOperator::NotEqual => 6,
        BinaryOperator::BitAnd => 7,
        BinaryOperator::BitXor => 8,
        BinaryOperator::BitOr => 9,
    }
}

fn logical_rank(operator: LogicalOperator) -> u32
    ensures { result ≡ spec.logical_rank operator }
{
    match operator {
        LogicalOperator::And => 10,
        LogicalOperator::Or => 11,
    }
}

/// A place in the text at which a chain begins.
pub fn chain_start(rank: u32, room: u32) -> Spot
    ensures { result ≡ spec.spot rank room }
{
    Spot {
        rank,
        room,
        left: GREATEST_CHAIN,
    }
}

/// A whole expression in a construct with this room.
pub fn whole(room: u32) -> Spot
    ensures { result ≡ spec.spot spec.whole_rank (room - 1) }
{
    chain_start(WHOLE, room.saturating_sub(1))
}

fn has_room(spot: Spot) -> bool
    ensures { result ≡ spec.has_room spot }
{
    1 < spot.room
}

fn needs_parentheses(spot: Spot, rank: u32) -> bool
    ensures { result ≡ spec.needs_parentheses rank spot }
{
    spot.rank < rank || spot.rank == rank && spot.left == 0
}

fn room_for(spot: Spot, rank: u32) -> u32
    ensures { result ≡ spec.room_for rank spot }
{
    if needs_parentheses(spot, rank) {
        spot.room.saturating_sub(2)
    } else {
        spot.room
    }
}

fn left_for(spot: Spot, rank: u32) -> u32
    ensures { result ≡ spec.left_for rank spot }
{
    if spot.rank == rank && 0 < spot.left {
        spot.left
    } else {
        GREATEST_CHAIN
    }
}

fn operand(spot: Spot) -> Spot
    ensures { result ≡ spec.operand_spot spot }
{
    chain_start(UNARY, room_for(spot, UNARY).saturating_sub(1))
}

fn chain(spot: Spot, rank: u32) -> Spot
    ensures { result ≡ spec.chain_spot rank spot }
{
    Spot {
        rank,
        room: room_for(spot, rank),
        left: left_for(spot, rank).saturating_sub(1),
    }
}

fn right(spot: Spot, rank: u32) -> Spot
    ensures { result ≡ spec.right_spot rank spot }
{
    chain_start(rank.saturating_sub(1), room_for(spot, rank))
}

fn between_brackets(spot: Spot) -> Spot
    ensures { result ≡ spec.index_spot spot }
{
    chain_start(WHOLE, room_for(spot, POSTFIX).saturating_sub(2))
}

fn condition(spot: Spot) -> Spot
    ensures { result ≡ spec.condition_spot spot }
{
    chain_start(CONDITION, room_for(spot, WHOLE))
}

fn branch(spot: Spot) -> Spot
    ensures { result ≡ spec.branch_spot spot }
{
    chain_start(WHOLE, room_for(spot, WHOLE).saturating_sub(1))
}

fn arrow(spot: Spot) -> Spot
    ensures { result ≡ spec.arrow_spot spot }
{
    Spot {
        rank: POSTFIX,
        room: spot.room,
        left: if spot.rank == POSTFIX {
            spot.left
        } else {
            GREATEST_CHAIN
        },
    }
}

/// Whether the expression keeps the bounds where it stands.
#[cycle(keeps_bounds)]
#[tactic(auto, using(src_meaning::proofs::ValidBounds::bounds_facts))]
pub fn keeps_bounds(spot: Spot, e: &TypedExpr) -> bool
    ensures { result ≡ spec.keeps_bounds spot e.now.kind }
{
    match &e.kind {
        ExprKind::Load(place) => place_keeps_bounds(spot, place.get()),
        ExprKind::Decay(place) => place_keeps_bounds(spot, place.get()),
        ExprKind::Convert(inner) => keeps_bounds(spot, inner.get()),
        ExprKind::AddressOf(place) => place_keeps_bounds(operand(spot), place.get()),
        ExprKind::Cast(inner) => keeps_bounds(operand(spot), inner.get()),
        ExprKind::Unary(_, inner) => keeps_bounds(operand(spot), inner.get()),
        ExprKind::Binary(operator, a, b) => {
            let rank = binary_rank(*operator);
            keeps_bounds(chain(spot, rank), a.get()) && keeps_bounds(right(spot, rank), b.get())
        }
        ExprKind::Logical(operator, a, b) => {
            let rank = logical_rank(*operator);
            keeps_bounds(chain(spot, rank), a.get()) && keeps_bounds(right(spot, rank), b.get())
        }
        ExprKind::Conditional(c, a, b) => {
            keeps_bounds(condition(spot), c.get())
                && keeps_bounds(branch(spot), a.get())
                && keeps_bounds(branch(spot), b.get())
        }
        _ => has_room(spot),
    }
}

/// Whether the place keeps the bounds where it stands.
#[cycle(keeps_bounds)]
#[tactic(auto, using(src_meaning::proofs::ValidBounds::bounds_facts))]
pub fn place_keeps_bounds(spot: Spot, place: &TypedPlace) -> bool
    ensures { result ≡ spec.place_keeps_bounds spot place.now.kind }
{
    match &place.kind {
        PlaceKind::Global(_) => has_room(spot),
        PlaceKind::Deref(e) => keeps_bounds(operand(spot), e.get()),
        PlaceKind::Arrow(e) => keeps_bounds(arrow(spot), e.get()),
        PlaceKind::Item(pointer, index) => {
            keeps_bounds(chain(spot, POSTFIX), pointer.get())
                && keeps_bounds(between_brackets(spot), index.get())
        }
        PlaceKind::Element(array, index) => {
            place_keeps_bounds(chain(spot, POSTFIX), array.get())
                && keeps_bounds(between_brackets(spot), index.get())
        }
        PlaceKind::Field(whole, _) => { place_keeps_bounds(chain(spot, POSTFIX), whole.get()) }
        PlaceKind::Member(whole, _) => { place_keeps_bounds(chain(spot, POSTFIX), whole.get()) }
    }
}
