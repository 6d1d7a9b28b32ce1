// Texts and their tokens, by hand.

use c_ast::token::{NumberKind, Token};
use c_lex::{LexError, lex};
use std::alloc::{AllocError, Global};

fn kind_name(kind: NumberKind) -> &'static str {
    match kind {
        NumberKind::Int => "int",
        NumberKind::UnsignedInt => "unsigned",
        NumberKind::LongLong => "longlong",
        NumberKind::UnsignedLongLong => "ulonglong",
    }
}

fn shown(alloc: Global, token: &Token) -> Result<String, AllocError> {
    match token {
        Token::Identifier(name) => {
            let text = name.as_str();
            format!(in alloc; "`{text}`")
        }
        Token::Keyword(keyword) => format!(in alloc; "{keyword:?}"),
        Token::Reserved(word) => format!(in alloc; "!{word:?}"),
        Token::Number(number) => {
            let value = number.value;
            let kind = kind_name(number.kind);
            format!(in alloc; "{value}:{kind}")
        }
        Token::Character(c) => format!(in alloc; "'{c}"),
        Token::Text(bytes) => {
            let bytes = bytes.as_slice();
            format!(in alloc; "{bytes:?}")
        }
        Token::Mark(mark) => format!(in alloc; "{mark:?}"),
    }
}

fn answer(alloc: Global, text: &[u8]) -> Result<String, AllocError> {
    match lex(alloc, text) {
        Ok(tokens) => {
            let mut all = String::new(alloc);
            for token in &tokens {
                let one = shown(alloc, token)?;
                all.push_str(one.as_str())?;
                all.push(' ')?;
            }
            Ok(all)
        }
        Err(LexError::BadByte { line, col }) => format!(in alloc; "byte {line} {col}"),
        Err(LexError::BadNumber { line, col }) => format!(in alloc; "number {line} {col}"),
        Err(LexError::Memory) => format!(in alloc; "memory"),
    }
}

const NUMBERS: [(&str, &str); 30] = [
    ("0", "0:int "),
    ("2147483647", "2147483647:int "),
    ("2147483648", "2147483648:longlong "),
    ("9223372036854775807", "9223372036854775807:longlong "),
    ("int n = 9223372036854775808;", "number 1 9"),
    ("0x7fffffff", "2147483647:int "),
    ("0x80000000", "2147483648:unsigned "),
    ("0x100000000", "4294967296:longlong "),
    ("0X8000000000000000", "9223372036854775808:ulonglong "),
    ("0x10000000000000000", "number 1 1"),
    ("0u", "0:unsigned "),
    ("4294967295U", "4294967295:unsigned "),
    ("4294967296u", "4294967296:ulonglong "),
    ("18446744073709551615u", "18446744073709551615:ulonglong "),
    ("18446744073709551616u", "number 1 1"),
    ("7ll", "7:longlong "),
    ("9223372036854775808LL", "number 1 1"),
    ("0x8000000000000000ll", "9223372036854775808:ulonglong "),
    ("1ull", "1:ulonglong "),
    ("0xfULL", "15:ulonglong "),
    ("0xFfu", "255:unsigned "),
    ("00", "number 1 1"),
    ("08", "number 1 1"),
    ("0x", "number 1 1"),
    ("0xg", "number 1 1"),
    ("1l", "number 1 1"),
    ("1lu", "number 1 1"),
    ("1uLL", "number 1 1"),
    ("1_", "number 1 1"),
    ("12ab", "number 1 1"),
];

const TEXTS: [(&str, &str); 38] = [
    ("", ""),
    ("int @", "byte 1 5"),
    ("int x;", "Int `x` Semicolon "),
    (
        "void char short int long unsigned struct union",
        "Void Char Short Int Long Unsigned Struct Union ",
    ),
    (
        "if else while for break continue return sizeof",
        "If Else While For Break Continue Return Sizeof ",
    ),
    (
        "auto case const default do double enum extern float",
        "!Auto !Case !Const !Default !Do !Double !Enum !Extern !Float ",
    ),
    (
        "goto inline register restrict signed static switch",
        "!Goto !Inline !Register !Restrict !Signed !Static !Switch ",
    ),
    (
        "typedef volatile _x if_ iF",
        "!Typedef !Volatile `_x` `if_` `iF` ",
    ),
    (
        "{}()[];,.",
        "LeftBrace RightBrace LeftParen RightParen LeftBracket RightBracket Semicolon Comma Dot ",
    ),
    (
        "-> * & + - / % ~ !",
        "Arrow Star Ampersand Plus Minus Slash Percent Tilde Not ",
    ),
    (
        "<< >> < <= > >= == !=",
        "ShiftLeft ShiftRight Less LessEqual Greater GreaterEqual EqualEqual NotEqual ",
    ),
    (
        "^ | && || ? : =",
        "Caret Pipe LogicalAnd LogicalOr Question Colon Assign ",
    ),
    (
        "++ -- += -= *= /=",
        "PlusPlus MinusMinus PlusAssign MinusAssign StarAssign SlashAssign ",
    ),
    (
        "%= &= |= ^= <<= >>=",
        "PercentAssign AmpersandAssign PipeAssign CaretAssign ShiftLeftAssign ShiftRightAssign ",
    ),
    ("a<<=b", "`a` ShiftLeftAssign `b` "),
    ("a+++b", "`a` PlusPlus Plus `b` "),
    ("a--->b", "`a` MinusMinus Arrow `b` "),
    ("x/y", "`x` Slash `y` "),
    ("/* a * b **/x", "`x` "),
    ("/**/", ""),
    ("/*/ x */y", "`y` "),
    ("x /* y", "byte 1 3"),
    ("x /*/", "byte 1 3"),
    ("// x */ y\nz", "`z` "),
    ("//", ""),
    ("a\r\nb\t@", "byte 2 3"),
    ("\n\n  08", "number 3 3"),
    ("'a' '0' '\"'", "'97 '48 '34 "),
    (
        "'\\n' '\\t' '\\r' '\\0' '\\\\' '\\'' '\\\"'",
        "'10 '9 '13 '0 '92 '39 '34 ",
    ),
    ("''", "byte 1 1"),
    ("'ab'", "byte 1 1"),
    ("'a", "byte 1 1"),
    ("'\\x'", "byte 1 1"),
    ("\"\" \"a'\\n\\\"\"", "[] [97, 39, 10, 34] "),
    ("x \"abc", "byte 1 3"),
    ("\"a\nb\"", "byte 1 1"),
    ("\"\\q\"", "byte 1 1"),
    ("a $", "byte 1 3"),
];

#[test]
fn reads_numbers(rt: HostRuntime) -> Result<(), AllocError> {
    for (text, wanted) in NUMBERS {
        let found = answer(rt.alloc(), text.as_bytes())?;
        assert_eq!(rt; found.as_str(), wanted, "{text:?}");
    }
    Ok(())
}

#[test]
fn reads_texts(rt: HostRuntime) -> Result<(), AllocError> {
    for (text, wanted) in TEXTS {
        let found = answer(rt.alloc(), text.as_bytes())?;
        assert_eq!(rt; found.as_str(), wanted, "{text:?}");
    }
    for bytes in [b"\"\x7f\"", b"\"\xff\"", b"'\x80'"] {
        let found = answer(rt.alloc(), bytes.as_slice())?;
        assert_eq!(rt; found.as_str(), "byte 1 1");
    }
    Ok(())
}
