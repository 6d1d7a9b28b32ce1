// Jumps, calls and returns.

ghost use Rattle.std.specs.Prelude.{◌≡◌, ◌+◌, ◌<◌, ◌≤◌, ◌^◌, ◌∷◌, ℕ, List, length, drop};
ghost use Rattle.std.specs.Prelude.{IfSome, is_some, slice_get};
ghost use Rattle.std.specs.Option.{option_copied, option_map};
ghost use Rattle.lu_base.specs.declared.limits.TheConstants.{LOCALS, STACK_HEIGHT};
ghost use Rattle.bm_code.specs.declared.operation.Transfer.TheVariants as T;
ghost use Rattle.bm_code.specs.Transfers.{jump, has_room, give_back, transferred};
ghost use Rattle.bm_run.specs.declared.calls.Mode.TheVariants as M;
ghost use Rattle.bm_run.specs.Transferred.{IsTransferred, IsEntering, IsFunction, IsSized};

use crate::calls::{Calls, end, spend, stop_by};
use bm_code::code::{MachineCode, MachineFunction};
use bm_code::operation::Transfer;
use bm_code::stop::Stop;
use c_types::Signature;
use lu_base::Trap;
use lu_base::limits::FRAMES;

/// Goes on at a place of the function without the topmost words.
fn go_to(
    function: &MachineFunction,
    calls: &mut Calls,
    left: &mut u32,
    to: u32,
    words: usize,
) -> Option<Stop>
    requires running { calls.old.mode ≡ M.Running }
    requires words { words ≤ length calls.old.frame.stack }
    ensures { IsTransferred (λ p f callers. jump function.now p f callers to (drop words f.stack)) calls.old left.old result calls.new left.new }
{
    let _function = function;
    let place = to as usize;
    if place > calls.frame.place {
        calls.frame.stack.cut(words);
        calls.frame.place = place;
        return None;
    }
    if let Some(stop) = spend(calls, left) {
        return Some(stop);
    }
    calls.frame.stack.cut(words);
    calls.frame.place = place;
    None
}

/// Whether so many words, and the result above them, are within the function's height.
fn has_room(function: &MachineFunction, signature: &Signature, rest: usize) -> bool
    ensures { (words : List ℕ) → length words ≡ rest → result ≡ has_room function.now signature.now.result words }
{
    let height = function.height as usize;
    if signature.result.is_some() {
        rest < height
    } else {
        rest <= height
    }
}

/// Enters a function, whose arguments are the topmost words; `below` words under them are dropped.
fn enter(
    function: &MachineFunction,
    calls: &mut Calls,
    left: &mut u32,
    number: u32,
    callee: &MachineFunction,
    signature: &Signature,
    arguments: usize,
    below: usize,
) -> Option<Stop>
    requires running { calls.old.mode ≡ M.Running }
    requires place { calls.old.frame.place + 1 < 2 ^ 64 }
    requires locals { callee.now.locals ≤ LOCALS }
    requires arguments { arguments ≤ LOCALS }
    requires words { arguments + below ≤ length calls.old.frame.stack }
    requires height { function.now.height ≤ STACK_HEIGHT }
    ensures { IsEntering function.now number callee.now signature.now arguments below calls.old left.old result calls.new left.new }
{
    let rest = calls.frame.stack.len() - arguments - below;
    if !has_room(function, signature, rest) {
        return stop_by(calls, Trap::BadCode);
    }
    if calls.callers.len() >= FRAMES - 1 {
        return stop_by(calls, Trap::Depth);
    }
    if let Some(stop) = spend(calls, left) {
        return Some(stop);
    }
    calls
        .callers
        .enter(&mut calls.frame, number, callee.locals, arguments, below);
    None
}

/// Gives a word, or none, back to the caller.
fn give_back(calls: &mut Calls, word: Option<u64>) -> Option<Stop>
    requires running { calls.old.mode ≡ M.Running }
    ensures { (left : ℕ) → IsTransferred (λ p f callers. give_back word p callers) calls.old left result calls.new left }
{
    if !calls.callers.leave(&mut calls.frame) {
        end(calls, None);
        return Some(Stop::Returned(word.unwrap_or(0)));
    }
    if let Some(word) = word {
        calls.frame.stack.push(word);
    }
    None
}

/// The function of a number.
pub fn function_at(code: &MachineCode, number: usize) -> Option<&MachineFunction>
    requires { IsSized code.now }
    ensures is { option_copied result ≡ slice_get code.now.functions number }
    ensures sized { IfSome result (λ d. IsFunction code.now d.now) }
    ensures bound { IfSome result (λ _. number < 2 ^ 32) }
{
    code.functions.as_slice().get(number)
}

fn signature_of<'a>(code: &'a MachineCode, function: &MachineFunction) -> Option<&'a Signature>
    ensures { option_copied result ≡ slice_get code.now.types.signatures function.now.signature }
{
    code.types
        .parts()
        .signatures
        .as_slice()
        .get(function.signature as usize)
}

fn jump(
    code: &MachineCode,
    function: &MachineFunction,
    calls: &mut Calls,
    left: &mut u32,
    to: u32,
) -> Option<Stop>
    requires { calls.old.mode ≡ M.Running }
    ensures { IsTransferred (transferred (T.Jump to) code.now function.now) calls.old left.old result calls.new left.new }
{
    let _code = code;
    if to as usize >= function.code.as_slice().len() {
        return stop_by(calls, Trap::BadCode);
    }
    go_to(function, calls, left, to, 0)
}

fn jump_if_zero(
    code: &MachineCode,
    function: &MachineFunction,
    calls: &mut Calls,
    left: &mut u32,
    to: u32,
) -> Option<Stop>
    requires running { calls.old.mode ≡ M.Running }
    requires place { calls.old.frame.place + 1 < 2 ^ 64 }
    ensures { IsTransferred (transferred (T.JumpIfZero to) code.now function.now) calls.old left.old result calls.new left.new }
{
    let _code = code;
    if to as usize >= function.code.as_slice().len() {
        return stop_by(calls, Trap::BadCode);
    }
    let Some(word) = calls.frame.stack.top() else {
        return stop_by(calls, Trap::BadCode);
    };
    if word == 0 {
        return go_to(function, calls, left, to, 1);
    }
    calls.frame.stack.cut(1);
    calls.frame.place += 1;
    None
}

fn call(
    code: &MachineCode,
    function: &MachineFunction,
    calls: &mut Calls,
    left: &mut u32,
    number: u32,
) -> Option<Stop>
    requires running { calls.old.mode ≡ M.Running }
    requires place { calls.old.frame.place + 1 < 2 ^ 64 }
    requires sized { IsSized code.now }
    requires height { function.now.height ≤ STACK_HEIGHT }
    ensures { IsTransferred (transferred (T.Call number) code.now function.now) calls.old left.old result calls.new left.new }
{
    let Some(callee) = function_at(code, number as usize) else {
        return stop_by(calls, Trap::BadCode);
    };
    let Some(signature) = signature_of(code, callee) else {
        return stop_by(calls, Trap::BadCode);
    };
    let arguments = signature.params.as_slice().len();
    if arguments > calls.frame.stack.len() {
        return stop_by(calls, Trap::BadCode);
    }
    enter(
        function, calls, left, number, callee, signature, arguments, 0,
    )
}

fn call_indirect(
    code: &MachineCode,
    function: &MachineFunction,
    calls: &mut Calls,
    left: &mut u32,
    arguments: u32,
) -> Option<Stop>
    requires running { calls.old.mode ≡ M.Running }
    requires place { calls.old.frame.place + 1 < 2 ^ 64 }
    requires sized { IsSized code.now }
    requires height { function.now.height ≤ STACK_HEIGHT }
    ensures { IsTransferred (transferred (T.CallIndirect arguments) code.now function.now) calls.old left.old result calls.new left.new }
{
    let arguments = arguments as usize;
    let Some(word) = calls.frame.stack.under(arguments) else {
        return stop_by(calls, Trap::BadCode);
    };
    if word == 0 {
        return stop_by(calls, Trap::BadCall);
    }
    let number = (word - 1) as usize;
    let Some(callee) = function_at(code, number) else {
        return stop_by(calls, Trap::BadCode);
    };
    let Some(signature) = signature_of(code, callee) else {
        return stop_by(calls, Trap::BadCode);
    };
    if signature.params.as_slice().len() != arguments {
        return stop_by(calls, Trap::BadCode);
    }
    enter(
        function,
        calls,
        left,
        number as u32,
        callee,
        signature,
        arguments,
        1,
    )
}

/// Whether a function has a result; nothing where it has no signature.
fn has_result(code: &MachineCode, function: &MachineFunction) -> Option<bool>
    ensures { result ≡ option_map (λ s. is_some s.result) (slice_get code.now.types.signatures function.now.signature) }
{
    let signature = signature_of(code, function)?;
    Some(signature.result.is_some())
}

fn return_nothing(code: &MachineCode, function: &MachineFunction, calls: &mut Calls) -> Option<Stop>
    requires { calls.old.mode ≡ M.Running }
    ensures { (left : ℕ) → IsTransferred (transferred T.Return code.now function.now) calls.old left result calls.new left }
{
    match has_result(code, function) {
        Some(false) => give_back(calls, None),
        _ => stop_by(calls, Trap::BadCode),
    }
}

fn return_value(code: &MachineCode, function: &MachineFunction, calls: &mut Calls) -> Option<Stop>
    requires { calls.old.mode ≡ M.Running }
    ensures { (left : ℕ) → IsTransferred (transferred T.ReturnValue code.now function.now) calls.old left result calls.new left }
{
    match has_result(code, function) {
        Some(true) => match calls.frame.stack.top() {
            Some(word) => give_back(calls, Some(word)),
            None => stop_by(calls, Trap::BadCode),
        },
        _ => stop_by(calls, Trap::BadCode),
    }
}

/// Goes on elsewhere.
pub fn step_transfer(
    operation: Transfer,
    code: &MachineCode,
    function: &MachineFunction,
    calls: &mut Calls,
    left: &mut u32,
) -> Option<Stop>
    requires running { calls.old.mode ≡ M.Running }
    requires place { calls.old.frame.place + 1 < 2 ^ 64 }
    requires sized { IsSized code.now }
    requires height { function.now.height ≤ STACK_HEIGHT }
    ensures { IsTransferred (transferred operation code.now function.now) calls.old left.old result calls.new left.new }
{
    match operation {
        Transfer::Jump(to) => jump(code, function, calls, left, to),
        Transfer::JumpIfZero(to) => jump_if_zero(code, function, calls, left, to),
        Transfer::Call(number) => call(code, function, calls, left, number),
        Transfer::CallIndirect(arguments) => call_indirect(code, function, calls, left, arguments),
        Transfer::Return => return_nothing(code, function, calls),
        Transfer::ReturnValue => return_value(code, function, calls),
    }
}
