// The typing rules.

ghost use Rattle.std.specs.Prelude.{◌≡◌};
ghost use Rattle.c_check_scope.specs.Rules.{code};

/// A typing rule, named by how it is broken.
#[derive(Clone, Copy, Debug, PartialEq, Eq)]
pub enum Rule {
    /// A tag, or the name of a global or function, is taken.
    NameTaken,
    /// A struct or union has no field, or a field name twice.
    Fields,
    /// A tag by value isn't declared earlier as that kind, or a tag under `*` nowhere in the text.
    UnknownTag,
    /// `void` stands elsewhere than as a result, under `*`, or as the whole of parameters.
    VoidValue,
    /// An array length is outside 1..1,048,576.
    ArrayLength,
    /// A type's size, or the sum of the globals' sizes so far, passes 1,048,576.
    Size,
    /// A local, a parameter, or a result other than `void`, isn't a scalar.
    NotScalar,
    /// A local or parameter has the name of another one of its function, of its function, of a global or function
    /// declared earlier, or of a built-in.
    LocalTaken,
    /// An initialiser doesn't fit.
    Initialiser,
    /// A prototype has no definition later in the text, or one of another type.
    Undefined,
    /// An identifier isn't declared earlier.
    Undeclared,
    /// The left side of `=` or the operand of `&` isn't a place, or is an array.
    NotPlace,
    /// `&` on a local or parameter, or `&` on or decay of a place inside a union.
    NoAddress,
    /// `.` or `->` on no struct or union, or a pointer to one, or an unknown field.
    NoField,
    /// `*` or `[ ]` on neither an array nor a pointer to an object type.
    NoPointer,
    /// Operand types don't fit the operator.
    Operands,
    /// A right side, argument or return value doesn't convert.
    Conversion,
    /// A condition isn't a scalar.
    Condition,
    /// The callee is neither a function's name nor of function pointer type, or the number of arguments differs.
    Callee,
    /// A built-in is used where it may not stand, or a size to allocate isn't a `sizeof` form.
    BuiltIn,
    /// `break` or `continue` outside a loop.
    OutsideLoop,
    /// A void call as a right side.
    VoidResult,
    /// A value returned from a void function, or none from another.
    Returned,
    /// A struct or union as a right side lies inside a union.
    InsideUnion,
    /// A cast that the language leaves out.
    Cast,
    /// `init` or `on_message` isn't defined with type `void (void)`.
    EntryPoint,
    /// More than 64 parameters, or 256 locals with parameters.
    TooManyLocals,
    /// A count of the program passes 4,096.
    TooMany,
}

impl Rule {
    /// The number of the rule, 1 to 27.
    #[tactic(auto, unfolding(crate::specs::Rules::code))]
    pub fn code(self) -> u32
        ensures { result ≡ code self }
    {
        match self {
            Rule::NameTaken => 1,
            Rule::Fields => 2,
            Rule::UnknownTag => 3,
            Rule::VoidValue => 4,
            Rule::ArrayLength => 5,
            Rule::Size => 6,
            Rule::NotScalar => 7,
            Rule::LocalTaken => 8,
            Rule::Initialiser => 9,
            Rule::Undefined => 10,
            Rule::Undeclared => 11,
            Rule::NotPlace => 12,
            Rule::NoAddress => 13,
            Rule::NoField => 14,
            Rule::NoPointer => 15,
            Rule::Operands => 16,
            Rule::Conversion => 17,
            Rule::Condition => 18,
            Rule::Callee => 19,
            Rule::BuiltIn => 20,
            Rule::OutsideLoop => 21,
            Rule::VoidResult => 22,
            Rule::Returned => 22,
            Rule::InsideUnion => 23,
            Rule::Cast => 24,
            Rule::EntryPoint => 25,
            Rule::TooManyLocals => 26,
            Rule::TooMany => 27,
        }
    }
}
