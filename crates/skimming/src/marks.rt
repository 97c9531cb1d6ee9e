// What is open: a byte for each parenthesis.
ghost use Rattle.std.specs.Prelude.{◌≡◌};
ghost use Rattle.skimming.specs.bridge.Marks.{function_mark};

use words::Function;

// The lowest bit of a mark says that the parenthesis may close behind the argument that is read, the next that it may behind the
// one after, and so on. Where nothing is open the mark is 0.
pub const NOTHING: u8 = 0;

pub const PLAIN: u8 = 1;

// How many arguments a function takes.
pub fn function_mark(function: Function) -> u8
    ensures { result ≡ function_mark function }
{
    match function {
        Function::Left | Function::Right | Function::String => 2,
        Function::Mid | Function::Instr => 6,
        _ => 1,
    }
}
