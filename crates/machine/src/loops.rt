// When a loop ends.
ghost use Rattle.std.specs.Prelude.{◌≡◌};
ghost use Rattle.std.specs.Int.Signed.{lt_z};
ghost use Rattle.whole.specs.Whole.{num};
ghost use Rattle.machine.specs.Machine.{passed};

use whole::{Operator, apply};

fn is_less(a: u16, b: u16) -> bool
    ensures { result ≡ lt_z (num a) (num b) }
{
    match apply(Operator::Less, a, b) {
        Ok(word) => word != 0,
        Err(_) => false,
    }
}

// Whether the limit is passed in the step's direction; step 0 never passes.
pub fn passed(word: u16, limit: u16, step: u16) -> bool
    ensures { result ≡ passed word limit step }
{
    if is_less(step, 0) {
        return is_less(word, limit);
    }
    if step == 0 {
        return false;
    }
    is_less(limit, word)
}
