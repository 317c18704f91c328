// The bank: what a program reads and never writes, in one array: CONST, IN and IMM, four words a register, and then one bit for each
// CONST and each TEMP register that is declared.
ghost use Rattle.std.specs.Prelude.{◌≡◌, ◌+◌, ◌≤◌, length, take};
ghost use Rattle.sources.specs.Operands.{env_with};
ghost use Rattle.sources.specs.Bank.{declared_in, env_in};
ghost use Rattle.sources.specs.Inner.Laid.{laid};

// Where the words of each part begin, and how many there are.
pub const CONST_AT: usize = 0;

const CONST_WORDS: usize = 4096;

pub const IN_AT: usize = 4096;

const IN_WORDS: usize = 128;

pub const IMM_AT: usize = 4224;

const IMM_WORDS: usize = 1024;

pub const DECLARED_AT: usize = 5248;

const DECLARED_WORDS: usize = 40;

pub const BANK_WORDS: usize = 5288;

pub type Bank = [u32; BANK_WORDS];

// Lays words into the bank from a place on, no more than so many.
fn lay(bank: &mut Bank, from: usize, most: usize, words: &[u32])
    requires { (length bank.old ≡ 5288) × (from + most ≤ 5288) }
    ensures { (bank.new ≡ laid bank.old from (take most words.now)) × (length bank.new ≡ 5288) }
{
    let n = words.len().min(most);
    bank[from..from + n].copy_from_slice(&words[..n]);
}

// Gathers what is lent to be read into a bank, whatever it held: no more words of a part than it has registers for. A run lends its
// own bank, since one that is returned would be copied.
pub fn gather_into(
    bank: &mut Bank,
    bits: &[u32; 40],
    immediates: &[u32; 1024],
    inputs: &[u32],
    constants: &[u32],
)
    ensures { env_in bank.new ≡ env_with (declared_in bits.now) immediates.now (take 128 inputs.now) (take 4096 constants.now) }
{
    bank.fill(0);
    lay(bank, CONST_AT, CONST_WORDS, constants);
    lay(bank, IN_AT, IN_WORDS, inputs);
    lay(bank, IMM_AT, IMM_WORDS, immediates);
    lay(bank, DECLARED_AT, DECLARED_WORDS, bits);
}
