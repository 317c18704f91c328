// All sources of an instruction.
ghost use Rattle.std.specs.Prelude.{◌≡◌};
ghost use Rattle.sources.specs.Bank.{env_in};
ghost use Rattle.sources.specs.Operands.{kind_byte, sources_of};
ghost use Rattle.machine.specs.Inner.Parts.{no_sources};

use format::kinds::{first_source, sources_of};
use readers::source_at;
use sources::bank::Bank;
use sources::operands::read;

// Reads all sources of the instruction of this kind whose record these bytes begin with, before anything is written.
pub fn read_sources(
    kind: u8,
    bytes: &[u8],
    bank: &Bank,
    registers: &[u32],
    sources: &mut [[u32; 4]; 4],
)
    requires { (kind ≡ kind_byte bytes.now) × (sources.old ≡ no_sources) }
    ensures { sources.new ≡ sources_of (env_in bank.now) registers.now bytes.now }
{
    let count = sources_of(kind) as usize;
    let first = first_source(kind) as usize;
    for k in 0..count {
        sources[k] = read(source_at(bytes, first + 5 * k), bank, registers);
    }
}
