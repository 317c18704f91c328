// What is lent to a run, before its first step: the registers cleared, and what is read and never written gathered in one bank.
#![tactic(auto)]

ghost use Rattle.std.specs.Prelude.{◌≡◌};
ghost use Rattle.registers.specs.Sets.{is_in};
ghost use Rattle.sources.specs.Bank.{env_in, declared_in};
ghost use Rattle.lending.specs.Lent.{asked_indirectly, bank_env, zeroed};

use format::files::REGISTER_WORDS;
use registers::sets::Declared;
use sources::bank::{Bank, gather_into};

// Sets the register words to 0, and no word past them.
pub fn clear(registers: &mut [u32])
    ensures { registers.new ≡ zeroed registers.old }
{
    let end = registers.len().min(REGISTER_WORDS);
    registers[..end].fill(0);
}

// The bits of CONST and then those of TEMP: the files that an indirect operand asks of, as the machine asks.
fn declared_words(declared: Declared) -> [u32; 40]
    ensures { declared_in result ≡ asked_indirectly (is_in declared) }
{
    let mut words = [0u32; 40];
    words[..32].copy_from_slice(&declared.consts);
    words[32..].copy_from_slice(&declared.temps);
    words
}

// Gathers into a bank, whatever it held, a program's declared sets and immediates, and the lent inputs and constants. A run lends
// its own bank, since one that is returned would be copied.
pub fn bank_into(
    bank: &mut Bank,
    declared: Declared,
    immediates: &[u32; 1024],
    inputs: &[u32],
    constants: &[u32],
)
    ensures { env_in bank.new ≡ bank_env (is_in declared) immediates.now inputs.now constants.now }
{
    let bits = declared_words(declared);
    gather_into(bank, &bits, immediates, inputs, constants);
}
