//! Where in a text a byte stands.

ghost use Rattle.std.specs.Prelude.{◌≡◌};
ghost use Rattle.c_ast.specs.Lexical.{line_behind, column_behind};

/// The line behind these bytes, counted from 1.
pub fn line_behind(before: &[u8]) -> usize
    ensures { result ≡ Rattle.c_ast.specs.Lexical.line_behind before.now }
{
    before.iter().filter(|b| **b == b'\n').count() + 1
}

/// The column in bytes behind these bytes, counted from 1.
pub fn column_behind(before: &[u8]) -> usize
    ensures { result ≡ Rattle.c_ast.specs.Lexical.column_behind before.now }
{
    let mut column = 1;
    for b in before {
        if *b == b'\n' {
            column = 1;
        } else {
            column += 1;
        }
    }
    column
}
