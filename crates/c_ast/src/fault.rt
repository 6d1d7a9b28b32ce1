/// Why tokens can't be read.
#[derive(Clone, Copy, Debug, PartialEq, Eq, Drop)]
pub enum Fault {
    /// A token fits no continuation, or the text ends too early.
    Syntax,
    /// A limit is passed first: depth 64, 64 operators of one chain, 64 steps of one postfix, 8 stars of one type.
    TooDeep,
}
