// The instructions, as the machine reads them.

/// An instruction of the machine, whose stack holds words of 64 bits.
/// The numbers are kept as they are read: the machine refuses one that names nothing.
#[derive(Clone, Copy, Debug, PartialEq, Eq)]
pub enum Instr {
    /// Pushes a word.
    Const { value: u64 },
    /// Pushes the local with that number.
    GetLocal { local: u32 },
    /// Pops a word into the local with that number.
    SetLocal { local: u32 },
    /// Drops the top.
    Pop,
    /// Pushes the top again.
    Duplicate,
    /// Adds, modulo 2^64.
    Add,
    /// Subtracts the top from the word below it, modulo 2^64.
    Subtract,
    /// Multiplies, modulo 2^64.
    Multiply,
    /// Divides signed words. The least by -1 gives itself.
    DivideSigned,
    /// Divides unsigned words.
    DivideUnsigned,
    /// The remainder of signed words. The least by -1 gives 0.
    RemainderSigned,
    /// The remainder of unsigned words.
    RemainderUnsigned,
    /// Each bit that both words have.
    And,
    /// Each bit that one of the words has.
    Or,
    /// Each bit that just one of the words has.
    Xor,
    /// Shifts left by fewer bits than `width`, which is 32 or 64.
    ShiftLeft { width: u32 },
    /// Shifts right by fewer bits than `width` and fills with the sign.
    ShiftRightSigned { width: u32 },
    /// Shifts right by fewer bits than `width` and fills with zeros.
    ShiftRightUnsigned { width: u32 },
    /// Cuts a word to the integer type with that number, and extends it by its sign or by zeros.
    Normalize { int_type: u32 },
    /// Pushes 1 where both words are equal, else 0.
    Equal,
    /// Pushes 1 where the word below is less, both signed, else 0.
    LessSigned,
    /// Pushes 1 where the word below is less, both unsigned, else 0.
    LessUnsigned,
    /// Pushes 1 where the word is 0, else 0.
    Not,
    /// Goes on at the instruction with that index.
    Jump { target: u32 },
    /// Goes on at the instruction with that index where the word is 0.
    JumpIfZero { target: u32 },
    /// Moves a pointer up by a count of elements of `size` bytes.
    AddPointer { size: u32 },
    /// Moves a pointer down by a count of elements of `size` bytes.
    SubtractPointer { size: u32 },
    /// How many elements of `size` bytes lie between two pointers.
    PointerDifference { size: u32 },
    /// Pushes 1 where the pointer below is less, else 0.
    PointerLess,
    /// Traps unless the pointer leads to a live place of the type with that number.
    CheckPointer { type_number: u32 },
    /// Moves an address up by `offset` bytes.
    Field { offset: u32 },
    /// Moves an address up by an index below `count` of elements of `size` bytes.
    Index { count: u32, size: u32 },
    /// As `Index`, where the index may also be `count`.
    IndexEnd { count: u32, size: u32 },
    /// Pushes the scalar of the kind with that number that stands at an address.
    Load { kind: u32 },
    /// Stores a scalar of the kind with that number at an address.
    Store { kind: u32 },
    /// Copies `size` bytes from one address to another, as they stood before.
    CopyBytes { size: u32 },
    /// Traps unless the member with that number is the active one of the union at the address.
    ReadUnion { member: u32 },
    /// Makes the member with that number the active one, with `size` zero bytes from `offset` on, unless it is active already.
    WriteUnion { member: u32, offset: u32, size: u32 },
    /// Calls the function with that number.
    Call { function: u32 },
    /// Calls the function whose word stands below that many arguments.
    CallIndirect { arguments: u32 },
    /// Returns without a value.
    Return,
    /// Returns the top.
    ReturnValue,
    /// Exchanges the two words at the top.
    Swap,
    /// Allocates a count of elements of the type that the site with that number has.
    Allocate { site: u32 },
    /// Frees an object.
    Free,
    /// Sends the outgoing message, and pushes the answer.
    SendMessage,
    /// Stops with the number at the top.
    Panic,
}

/// The operands of an instruction, in the order in which they are encoded.
#[derive(Clone, Copy, Debug, PartialEq, Eq)]
pub enum Operands {
    Nothing,
    One(u32),
    Two(u32, u32),
    Three(u32, u32, u32),
    Word(u64),
}
