// What an expression stands for whose value the text alone decides.

/// The value of an expression that the text alone decides.
#[derive(Clone, Copy, Debug, PartialEq, Eq)]
pub enum Constant {
    /// An integer of any integer type.
    Int(i128),
    /// The null pointer, of any object or function pointer type.
    Null,
    /// The address of a global, by its number.
    Start(u32),
    /// A function, by its number.
    Function(u32),
}
