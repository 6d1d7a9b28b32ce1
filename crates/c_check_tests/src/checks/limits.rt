// Counts at the greatest number that is allowed, and one more.

use crate::checks::verdicts::{HANDLERS, verdict};
use std::alloc::Global;
use std::test::Fail;

/// `count` pieces, each with its number between `before` and `after`.
fn push_numbered(
    alloc: Global,
    text: &mut String,
    count: u32,
    before: &str,
    after: &str,
) -> Result<(), Fail> {
    for number in 0..count {
        text.push_str(before)?;
        text.push_str(format!(in alloc; "{number}")?.as_str())?;
        text.push_str(after)?;
    }
    Ok(())
}

/// What stands before the numbered pieces of a text, before and after each number, and behind the pieces.
struct Form {
    first: &'static str,
    before: &'static str,
    after: &'static str,
    last: &'static str,
}

/// The declaration and the code that are named for a text of this form, handlers and all.
fn counted(alloc: Global, form: &Form, count: u32) -> Result<(usize, u32), Fail> {
    let mut text = String::from_str(alloc, form.first)?;
    push_numbered(alloc, &mut text, count, form.before, form.after)?;
    text.push_str(form.last)?;
    text.push_str(HANDLERS)?;
    verdict(alloc, text.as_str())
}

const FIELDS: Form = Form {
    first: "struct s { ",
    before: "int x",
    after: "; ",
    last: "};",
};

const MEMBERS: Form = Form {
    first: "union u { ",
    before: "int x",
    after: "; ",
    last: "};",
};

const GLOBALS: Form = Form {
    first: "",
    before: "int g",
    after: "; ",
    last: "",
};

const STRUCTS: Form = Form {
    first: "",
    before: "struct s",
    after: " { int x; }; ",
    last: "",
};

const UNIONS: Form = Form {
    first: "",
    before: "union u",
    after: " { int x; }; ",
    last: "",
};

const FUNCTIONS: Form = Form {
    first: "",
    before: "void f",
    after: "(void) { } ",
    last: "",
};

const SITES: Form = Form {
    first: "void f(int *p0) { ",
    before: "p0 = calloc(",
    after: ", sizeof(int)); ",
    last: "}",
};

#[test]
fn fields_are_counted(rt: HostRuntime) -> Result<(), Fail> {
    assert_eq!(rt; counted(rt.alloc(), &FIELDS, 4096)?, (0, 0));
    assert_eq!(rt; counted(rt.alloc(), &FIELDS, 4097)?, (1, 27));
    assert_eq!(rt; counted(rt.alloc(), &MEMBERS, 4097)?, (1, 27));
    Ok(())
}

#[test]
fn structs_are_counted(rt: HostRuntime) -> Result<(), Fail> {
    // `struct message` is one more.
    assert_eq!(rt; counted(rt.alloc(), &STRUCTS, 4095)?, (0, 0));
    assert_eq!(rt; counted(rt.alloc(), &STRUCTS, 4096)?, (4096, 27));
    Ok(())
}

#[test]
fn unions_are_counted(rt: HostRuntime) -> Result<(), Fail> {
    assert_eq!(rt; counted(rt.alloc(), &UNIONS, 4096)?, (0, 0));
    assert_eq!(rt; counted(rt.alloc(), &UNIONS, 4097)?, (4097, 27));
    Ok(())
}

#[test]
fn globals_are_counted(rt: HostRuntime) -> Result<(), Fail> {
    // `m_in` and `m_out` are two more.
    assert_eq!(rt; counted(rt.alloc(), &GLOBALS, 4094)?, (0, 0));
    assert_eq!(rt; counted(rt.alloc(), &GLOBALS, 4095)?, (4095, 27));
    Ok(())
}

#[test]
fn functions_are_counted(rt: HostRuntime) -> Result<(), Fail> {
    // The handlers are the last two.
    assert_eq!(rt; counted(rt.alloc(), &FUNCTIONS, 4094)?, (0, 0));
    assert_eq!(rt; counted(rt.alloc(), &FUNCTIONS, 4095)?, (4097, 27));
    Ok(())
}

#[test]
fn sites_are_counted(rt: HostRuntime) -> Result<(), Fail> {
    assert_eq!(rt; counted(rt.alloc(), &SITES, 4096)?, (0, 0));
    assert_eq!(rt; counted(rt.alloc(), &SITES, 4097)?, (1, 27));
    Ok(())
}

const PARAMETERS: Form = Form {
    first: "void f(char c",
    before: ", int a",
    after: "",
    last: ") { }",
};

const TYPE_PARAMETERS: Form = Form {
    first: "void (*f)(char c",
    before: ", int a",
    after: "",
    last: ");",
};

const LOCALS: Form = Form {
    first: "void f(int a, void *b) { { ",
    before: "int x",
    after: "; ",
    last: "} }",
};

#[test]
fn parameters_and_locals_are_counted(rt: HostRuntime) -> Result<(), Fail> {
    for (form, greatest) in [(&PARAMETERS, 63), (&TYPE_PARAMETERS, 63), (&LOCALS, 254)] {
        assert_eq!(rt; counted(rt.alloc(), form, greatest)?, (0, 0));
        assert_eq!(rt; counted(rt.alloc(), form, greatest + 1)?, (1, 26));
    }
    Ok(())
}
