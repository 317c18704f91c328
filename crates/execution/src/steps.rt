// Carrying out a program by the rows of its table, step by step.
ghost use Rattle.std.specs.Prelude.{◌≡◌};
ghost use Rattle.effects.specs.Effect.{state};
ghost use Rattle.sources.specs.Bank.{env_in};
ghost use Rattle.execution.specs.Steps.{reached, by_rows};

use crate::{Report, Stop};
use blocks::MOST_INSTRUCTIONS;
use machine::step::Code;

// Carries out instructions by the table's rows, from the first on, until END or until the budget is spent.
pub fn carry_out(code: &Code, registers: &mut [u32], memory: &mut [u32], budget: u32) -> Stop
    ensures { reached result (state registers.new memory.new) ≡ by_rows code.now.file.now code.now.rows.now (env_in code.now.bank.now) budget 0 0 (state registers.old memory.old) }
{
    let mut n: usize = 0;
    for steps in 0..budget {
        // Right rows lead to no such number.
        if MOST_INSTRUCTIONS <= n {
            return Stop::Halted(Report { steps }, n);
        }
        match code.step(n as u32, registers, memory) {
            Some(next) => n = next,
            None => return Stop::Ended(Report { steps: steps + 1 }),
        }
    }
    Stop::Halted(Report { steps: budget }, n)
}
