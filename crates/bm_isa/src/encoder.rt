// From instructions to bytes.

ghost use Rattle.std.specs.Prelude.{◌≡◌, ◌++◌, IfOk, OnOk};
ghost use Rattle.lu_spec.specs.LittleEndian.{little_endian};
ghost use Rattle.bm_isa.specs.Encoding.{code_bytes, operand_bytes, instruction_bytes};

use crate::instr::{Instr, Operands};
use crate::table::parts;
use lu_base::Memory;
use std::alloc::Global;

/// The bytes of some instructions, one after another: the number of each in one byte, and then its operands, each in
/// four bytes, the lowest first, the word of `Const` in eight.
pub fn encode(alloc: Global, code: &[Instr]) -> Result<Vec<u8>, Memory>
    ensures { IfOk result (λ bytes. bytes.items ≡ code_bytes code.now) }
{
    let mut bytes = Vec::new(alloc);
    for instr in code {
        push_instruction(&mut bytes, *instr)?;
    }
    Ok(bytes)
}

#[tactic(auto, unfolding(crate::specs::Encoding::instruction_bytes))]
fn push_instruction(bytes: &mut Vec<u8>, instr: Instr) -> Result<(), Memory>
    ensures { OnOk result (bytes.new.items ≡ bytes.old.items ++ instruction_bytes instr) }
{
    let (number, operands) = parts(instr);
    bytes.push(number)?;
    push_operands(bytes, operands)
}

#[tactic(auto, unfolding(lu_spec::specs::LittleEndian::little_endian))]
fn push_operands(bytes: &mut Vec<u8>, operands: Operands) -> Result<(), Memory>
    ensures { OnOk result (bytes.new.items ≡ bytes.old.items ++ operand_bytes operands) }
{
    match operands {
        Operands::Nothing => Ok(()),
        Operands::One(a) => push_number(bytes, a),
        Operands::Two(a, b) => {
            push_number(bytes, a)?;
            push_number(bytes, b)
        }
        Operands::Three(a, b, c) => {
            push_number(bytes, a)?;
            push_number(bytes, b)?;
            push_number(bytes, c)
        }
        Operands::Word(word) => {
            bytes.extend_from_slice(&word.to_le_bytes())?;
            Ok(())
        }
    }
}

#[tactic(auto, unfolding(lu_spec::specs::LittleEndian::little_endian))]
fn push_number(bytes: &mut Vec<u8>, number: u32) -> Result<(), Memory>
    ensures { OnOk result (bytes.new.items ≡ bytes.old.items ++ little_endian 4 number) }
{
    bytes.extend_from_slice(&number.to_le_bytes())?;
    Ok(())
}
