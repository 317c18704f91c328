// The parts of the bank: the words of a file's registers, and the bits of what is declared.
ghost use Rattle.std.specs.Prelude.{◌≡◌};
ghost use Rattle.sources.specs.Bank.{part};

use crate::bank::{BANK_WORDS, Bank, CONST_AT, DECLARED_AT, IMM_AT, IN_AT};

pub fn constants(bank: &Bank) -> &[u32]
    ensures { result.now ≡ part bank.now 0 4096 }
{
    &bank[CONST_AT..IN_AT]
}

pub fn inputs(bank: &Bank) -> &[u32]
    ensures { result.now ≡ part bank.now 4096 128 }
{
    &bank[IN_AT..IMM_AT]
}

pub fn immediates(bank: &Bank) -> &[u32]
    ensures { result.now ≡ part bank.now 4224 1024 }
{
    &bank[IMM_AT..DECLARED_AT]
}

pub fn declared(bank: &Bank) -> &[u32]
    ensures { result.now ≡ part bank.now 5248 40 }
{
    &bank[DECLARED_AT..BANK_WORDS]
}
