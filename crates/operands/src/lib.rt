// The operands of an instruction: which it may have, by the field rules, and whether what they name is there. Of crate
// `registers`, specs/Rules.antt and specs/Found.antt say what these are.
#![tactic(auto)]

ghost use Rattle.std.specs.Prelude.{◌≡◌, ◌+◌, Bool};
ghost use Rattle.format.specs.declared.fields.Destination.{Destination};
ghost use Rattle.format.specs.declared.fields.Source.{Source};
ghost use Rattle.format.specs.Kinds.{sources, form_of, first_source};
ghost use Rattle.registers.specs.Rules.{may_negate, memory_kind, destination_file, mask_rule, destination_rule, source_rule};
ghost use Rattle.registers.specs.Rules.{all_sources, all_operands, operand_rules};
ghost use Rattle.registers.specs.Sets.{is_in};
ghost use Rattle.registers.specs.Found.{destination_found, source_found, operands_found};

use format::fields::{Destination, Source, indirection, negates};
use format::files::{ADDR, CONST, IMM, IN, MEM, OUT, TEMP};
use format::kinds::{destinations_of, first_source, sources_of};
use registers::sets;
use registers::sets::Declared;

// Whether instructions of a kind may negate a source.
fn may_negate(kind: u8) -> bool
    ensures { result ≡ may_negate kind }
{
    matches!(kind, 0x12..=0x14 | 0x20..=0x37 | 0x60)
}

// Whether instructions of a kind read or write memory.
fn is_memory_kind(kind: u8) -> bool
    ensures { result ≡ memory_kind kind }
{
    matches!(kind, 0x1e | 0x56..=0x5f | 0x64)
}

// Whether instructions of a kind may write a file: OUT or TEMP, UARL only ADDR, STORE only MEM.
fn may_write(kind: u8, file: u8) -> bool
    ensures { result ≡ destination_file kind file }
{
    match kind {
        0x1a => file == ADDR,
        0x58 => file == MEM,
        _ => matches!(file, OUT | TEMP),
    }
}

// Whether instructions of a kind may have a mask: those with 64-bit results take whole pairs, 64-bit comparisons x and z.
fn may_mask(kind: u8, mask: u8) -> bool
    ensures { result ≡ mask_rule kind mask }
{
    match kind {
        0x1b..=0x1d | 0x40..=0x4c => matches!(mask, 3 | 12 | 15),
        0x4d..=0x52 => matches!(mask, 1 | 4 | 5),
        _ => matches!(mask, 1..=15),
    }
}

#[tactic(auto, unfolding(registers::specs::Rules::destination_rule))]
fn destination_allowed(kind: u8, d: Destination) -> bool
    ensures { result ≡ destination_rule kind d }
{
    may_write(kind, d.file) && may_mask(kind, d.mask)
}

#[tactic(auto, unfolding(registers::specs::Rules::source_rule))]
fn source_allowed(kind: u8, s: Source) -> bool
    ensures { result ≡ source_rule kind s }
{
    matches!(s.file, CONST | IN | TEMP | IMM)
        && s.modifier <= 9
        && (!negates(s) || may_negate(kind))
        && (indirection(s) == 0 || matches!(s.file, CONST | TEMP))
        && (kind != 0x92 || s.file == IMM && s.modifier == 0)
}

// Whether the sources of an instruction of a kind at a place are all as asked, by any rule that `asked` computes.
fn all_sources<F: Fn(Source) -> bool>(kind: u8, file: &[u8], at: u32, asked: F) -> bool
    requires { F.IsAlwaysCallable asked }
    ensures { (rule : Source → Bool) → ((s : Source) (r : Bool) → F.post asked s r → r ≡ rule s)
        → result ≡ all_sources rule file.now (at + first_source kind) (sources (form_of kind)) }
{
    let first = at as usize + first_source(kind) as usize;
    (0..sources_of(kind)).all(|i| asked(readers::source_at(file, first + 5 * i as usize)))
}

// Whether its operands are: the destination, if it has one, and the sources after it.
fn all_operands<D: Fn(Destination) -> bool, S: Fn(Source) -> bool>(
    kind: u8,
    file: &[u8],
    at: u32,
    asked_d: D,
    asked_s: S,
) -> bool
    requires { D.IsAlwaysCallable asked_d × S.IsAlwaysCallable asked_s }
    ensures { (rule_d : Destination → Bool) (rule_s : Source → Bool)
        → ((d : Destination) (r : Bool) → D.post asked_d d r → r ≡ rule_d d)
        → ((s : Source) (r : Bool) → S.post asked_s s r → r ≡ rule_s s)
        → result ≡ all_operands kind rule_d rule_s file.now at }
{
    let no_destination = destinations_of(kind) == 0;
    let destination = readers::destination_at(file, at as usize + 1);
    // Not `||` and `&&`: so there is one return, and one law for it.
    (no_destination | asked_d(destination)) & all_sources(kind, file, at, asked_s)
}

// Whether the operands of an instruction of a kind at a place keep the rules.
pub fn rules_kept(kind: u8, file: &[u8], at: u32) -> bool
    ensures { result ≡ operand_rules kind file.now at }
{
    all_operands(
        kind,
        file,
        at,
        |d| destination_allowed(kind, d),
        |s| source_allowed(kind, s),
    )
}

// Whether what a source names is there: a declared register, one of so many immediates' words, or for an indirect source
// ADDR and some register of its file.
#[tactic(auto, unfolding(registers::specs::Found::source_found))]
fn source_found(d: Declared, words: usize, s: Source) -> bool
    ensures { result ≡ source_found (is_in d) words s }
{
    let file = s.file;
    let index = s.index as usize;
    if indirection(s) != 0 {
        return sets::is_declared(d, ADDR, 0) && sets::is_file_declared(d, file);
    }
    if file == IMM {
        return 4 * index < words;
    }
    sets::is_declared(d, file, index)
}

// Whether the register that a destination names is declared.
fn destination_found(d: Declared, destination: Destination) -> bool
    ensures { result ≡ destination_found (is_in d) destination }
{
    sets::is_declared(d, destination.file, destination.index as usize)
}

// Whether the registers and immediates that an instruction of a kind at a place names are there, and MEM for a memory kind.
#[tactic(auto, unfolding(registers::specs::Found::operands_found))]
pub fn operands_found(kind: u8, d: Declared, words: usize, file: &[u8], at: u32) -> bool
    ensures { result ≡ operands_found kind (is_in d) words file.now at }
{
    let found = all_operands(
        kind,
        file,
        at,
        |to| destination_found(d, to),
        |s| source_found(d, words, s),
    );
    found & (!is_memory_kind(kind) | sets::is_declared(d, MEM, 0))
}
