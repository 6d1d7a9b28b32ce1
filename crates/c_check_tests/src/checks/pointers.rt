// Texts whose sizes depend on those of pointers. What is expected comes from the layout: a pointer is aligned to its size.

use crate::checks::verdicts::{HANDLERS, verdict_as};
use std::test::Fail;

/// The size of a pointer, the declaration and the code of the refusal, and the text, with both handlers behind it.
const TEXTS: [(u32, usize, u32, &str); 14] = [
    (4, 0, 0, "int *t[200000];"),
    (8, 1, 6, "int *t[200000];"),
    (4, 0, 0, "int *t[262128];"),
    (4, 1, 6, "int *t[262129];"),
    (8, 0, 0, "int *t[131064];"),
    (8, 1, 6, "int *t[131065];"),
    (
        4,
        0,
        0,
        "struct s { char c; void (*f)(void); }; struct s t[131064];",
    ),
    (
        4,
        2,
        6,
        "struct s { char c; void (*f)(void); }; struct s t[131065];",
    ),
    (
        8,
        0,
        0,
        "struct s { char c; void (*f)(void); }; struct s t[65532];",
    ),
    (
        8,
        2,
        6,
        "struct s { char c; void (*f)(void); }; struct s t[65533];",
    ),
    (4, 1, 9, "int n = 1 / (sizeof(int *) - 4);"),
    (4, 0, 0, "int n = 1 / (sizeof(int *) - 8);"),
    (8, 0, 0, "int n = 1 / (sizeof(int *) - 4);"),
    (8, 1, 9, "int n = 1 / (sizeof(void *) - 8);"),
];

#[test]
fn sizes_go_by_those_of_pointers(rt: HostRuntime) -> Result<(), Fail> {
    for (pointer, decl, code, text) in TEXTS {
        let whole = format!(in rt.alloc(); "{text}{HANDLERS}")?;
        let (found_decl, found_code) = verdict_as(rt.alloc(), whole.as_str(), pointer)?;
        let found = format!(in rt.alloc(); "{pointer} {found_decl} {found_code} {text}")?;
        let wanted = format!(in rt.alloc(); "{pointer} {decl} {code} {text}")?;
        assert_eq!(rt; found.as_str(), wanted.as_str());
    }
    Ok(())
}
