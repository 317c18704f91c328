// A program over what is lent: the bank gathered, its table written, the registers cleared, its instructions carried out by the
// table. Nothing is asked of the program: what is carried out is what the table says. Where it is what the check saw of the file, and
// all that it needs is lent, that is the block reading (`runner`'s `run`).
#![tactic(auto)]

ghost use Rattle.std.specs.Prelude.{◌≡◌};
ghost use Rattle.table.specs.Prepared.{filled};
ghost use Rattle.registers.specs.Sets.{is_in};
ghost use Rattle.effects.specs.Effect.{state};
ghost use Rattle.lending.specs.Lent.{bank_env, zeroed};
ghost use Rattle.execution.specs.Steps.{reached, by_rows};

use checker::program::Program;
use execution::Stop;
use execution::steps::carry_out;
use lending::{bank_into, clear};
use machine::step::Code;
use preparation::write_table;
use sources::bank::BANK_WORDS;

// Prepares a program, clears the registers and carries it out.
pub fn carry_out_program(
    file: &[u8],
    program: Program,
    immediates: &[u32; 1024],
    inputs: &[u32],
    constants: &[u32],
    registers: &mut [u32],
    work: &mut [u32],
    memory: &mut [u32],
    budget: u32,
) -> Stop
    ensures table { work.new ≡ filled file.now program.start program.instructions work.old }
    ensures came { reached result (state registers.new memory.new) ≡ by_rows file.now work.new (bank_env (is_in program.declared) immediates.now inputs.now constants.now) budget 0 0 (state (zeroed registers.old) memory.old) }
{
    let mut bank = [0u32; BANK_WORDS];
    bank_into(&mut bank, program.declared, immediates, inputs, constants);
    write_table(file, program, work);
    let code = Code {
        file,
        rows: work,
        bank: &bank,
    };
    clear(registers);
    carry_out(&code, registers, memory, budget)
}
