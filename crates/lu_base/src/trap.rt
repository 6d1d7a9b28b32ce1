/// Why a server died.
#[derive(Clone, Copy, Debug, PartialEq, Eq)]
pub enum Trap {
    /// A division or remainder by zero.
    DivZero,
    /// A shift count outside 0..width-1.
    BadShift,
    /// An index of an array outside its length.
    BadIndex,
    /// A dereference where no live object has that type.
    BadPointer,
    /// Pointer arithmetic that leaves the object.
    PtrRange,
    /// An order or difference of pointers to two objects.
    PtrOrder,
    /// A read through a union's member that isn't active.
    UnionMember,
    /// A call of a null function pointer.
    BadCall,
    /// A `free` of what isn't the start of a live heap object.
    BadFree,
    /// The 129th frame.
    Depth,
    /// More ticks than a call has.
    Budget,
    /// `panic` with this number.
    Panic(i32),
    /// Machine code that no compiler made.
    BadCode,
}
