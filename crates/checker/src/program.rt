// What an accepted program is for a run.
use registers::sets::Declared;

// What a run needs of a program: the declared registers, how many immediates there are, one more than the highest declared IN
// and CONST (0 for none), where the instructions begin, and how many there are.
#[derive(Clone, Copy)]
pub struct Program {
    pub declared: Declared,
    pub immediates: u32,
    pub inputs: u32,
    pub constants: u32,
    pub start: u32,
    pub instructions: u32,
}
