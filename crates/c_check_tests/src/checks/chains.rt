// Chains with as many operators or steps as one may have, in parentheses, and more behind them: such texts keep the limits.

use crate::checks::verdicts::{HANDLERS, verdict};
use std::alloc::{AllocError, Global};
use std::test::Fail;

/// The most operators of one level, or steps of a place, in one chain.
const GREATEST: usize = 64;

/// One of the operators of each level, from the loosest to the tightest, with its right operand.
const OPERATORS: [&str; 10] = [
    " || 0", " && 0", " | 0", " ^ 0", " & 0", " == 0", " < 0", " << 0", " + 0", " * 0",
];

/// A struct that points to others of its kind, and a pointer to one.
const NODE: &str = "struct s { struct s *p; }; struct s *g;";

/// So many times this piece, behind what stands first.
fn repeated(alloc: Global, first: &str, piece: &str, times: usize) -> Result<String, AllocError> {
    let mut text = String::from_str(alloc, first)?;
    for _ in 0..times {
        text.push_str(piece)?;
    }
    Ok(text)
}

/// A full chain in parentheses, and so many of its operators or steps behind it.
fn behind_full(
    alloc: Global,
    first: &str,
    piece: &str,
    times: usize,
) -> Result<String, AllocError> {
    let full = repeated(alloc, first, piece, GREATEST)?;
    let first = format!(in alloc; "({full})")?;
    repeated(alloc, first.as_str(), piece, times)
}

/// The declaration and the code that are named for these declarations with both handlers behind them.
fn judged(alloc: Global, declarations: String) -> Result<(usize, u32), Fail> {
    let mut text = declarations;
    text.push_str(HANDLERS)?;
    verdict(alloc, text.as_str())
}

#[test]
fn operators_may_stand_behind_full_chains(rt: HostRuntime) -> Result<(), Fail> {
    let alloc = rt.alloc();
    for operator in OPERATORS {
        for times in [1, GREATEST] {
            let value = behind_full(alloc, "0", operator, times)?;
            let global = format!(in alloc; "int n = {value};")?;
            assert_eq!(rt; judged(alloc, global)?, (0, 0), "{operator}");
        }
    }
    Ok(())
}

#[test]
fn full_chains_may_stand_in_bodies(rt: HostRuntime) -> Result<(), Fail> {
    let alloc = rt.alloc();
    for operator in OPERATORS {
        let value = behind_full(alloc, "n", operator, 1)?;
        let function = format!(in alloc; "int f(int n) {{ return {value}; }}")?;
        assert_eq!(rt; judged(alloc, function)?, (0, 0), "{operator}");
    }
    Ok(())
}

#[test]
fn steps_may_stand_behind_full_chains(rt: HostRuntime) -> Result<(), Fail> {
    let alloc = rt.alloc();
    for times in [1, GREATEST] {
        let place = behind_full(alloc, "g", "->p", times)?;
        let text = format!(in alloc; "{NODE} void f(void) {{ g = {place}; }}")?;
        assert_eq!(rt; judged(alloc, text)?, (0, 0));
        let text = format!(in alloc; "{NODE} void f(void) {{ {place} = g; }}")?;
        assert_eq!(rt; judged(alloc, text)?, (0, 0));
    }
    Ok(())
}
