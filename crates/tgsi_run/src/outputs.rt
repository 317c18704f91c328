// The OUT registers that a program declares, a line each.
use format::files::OUT;
use registers::sets;
use registers::sets::Declared;

const OUT_REGISTERS: usize = 32;

// `OUT i x y z w`
fn declared_lines(rt: &impl Print, declared: Declared, registers: &[u32]) {
    for (i, register) in registers.chunks_exact(4).take(OUT_REGISTERS).enumerate() {
        if let [x, y, z, w] = register
            && sets::is_declared(declared, OUT, i)
        {
            let _ = println!(rt; "OUT {i} {x} {y} {z} {w}");
        }
    }
}

pub fn lines(rt: &impl Print, program: &[u8], registers: &[u32]) {
    let mut immediates = [0u32; 1024];
    if let Ok(kept) = checker::examine(program, &mut immediates) {
        declared_lines(rt, kept.declared, registers);
    }
}
