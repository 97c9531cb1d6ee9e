// The arguments of a function, taken one by one as they are worked out.
ghost use Rattle.std.specs.Prelude.{◌≡◌};
ghost use Rattle.functions.specs.bridge.Memory.{count_of, with_argument, want_by, gone_on, taken_as};

use grammar::{Want, is_symbol};
use strings::{Argument, Given};
use variables::Worked;
use whole::Error;
use words::{Function, Place, Scanned, Sign};

// What an argument leads to once it is worked out: the call with all of them, or one more; and the place after it.
#[derive(Clone, Copy)]
pub enum Taken {
    All(Given, Place),
    More(Given, Place),
}

// How many there are.
fn count_of(given: Given) -> usize
    ensures { result ≡ count_of given }
{
    match given {
        Given::None => 0,
        Given::One(_) => 1,
        Given::Two(_, _) => 2,
        Given::Three(_, _, _) => 3,
    }
}

// One more; no function takes a fourth.
fn with_argument(given: Given, argument: Argument) -> Given
    ensures { result ≡ with_argument given argument }
{
    match given {
        Given::None => Given::One(argument),
        Given::One(a) => Given::Two(a, argument),
        Given::Two(a, b) => Given::Three(a, b, argument),
        Given::Three(a, b, c) => Given::Three(a, b, c),
    }
}

// What a function wants of the argument at a place, from 0; of INSTR it goes by whether there are three.
fn want_of(function: Function, three: bool, place: usize) -> Want
    ensures { result ≡ want_by function three place }
{
    let first = place == 0;
    match function {
        Function::Len | Function::Asc | Function::Val => Want::Text,
        Function::Chr | Function::Space | Function::Str => Want::Whole,
        Function::Hex | Function::Abs | Function::Sgn => Want::Whole,
        Function::Left | Function::Right | Function::Mid => if first {
            Want::Text
        } else {
            Want::Whole
        },
        Function::String => if first { Want::Whole } else { Want::Either },
        Function::Instr => if three && first {
            Want::Whole
        } else {
            Want::Text
        },
        Function::Fre => Want::Either,
    }
}

// An argument goes beside the others; a comma goes on to one more.
fn gone_on(given: Given, argument: Argument, ahead: Scanned) -> Taken
    ensures { result ≡ gone_on given argument ahead }
{
    let all = with_argument(given, argument);
    let token = ahead.token;
    let next = ahead.next;
    if is_symbol(Sign::Comma, token) {
        Taken::More(all, next)
    } else {
        Taken::All(all, next)
    }
}

// An argument is tested as soon as it is worked out.
pub fn take_argument(
    function: Function,
    three: bool,
    given: Given,
    worked: Result<Worked, Error>,
) -> Result<Taken, Error>
    ensures { result ≡ taken_as function three given worked }
{
    let worked = worked?;
    match want_of(function, three, count_of(given)) {
        Want::Whole => {
            let Worked::Whole(word, ahead) = worked else {
                return Err(Error::TypeMismatch);
            };
            Ok(gone_on(given, Argument::Whole(word), ahead))
        }
        Want::Text => {
            let Worked::Text(len, ahead) = worked else {
                return Err(Error::TypeMismatch);
            };
            Ok(gone_on(given, Argument::Text(len), ahead))
        }
        Want::Either => match worked {
            Worked::Whole(word, ahead) => Ok(gone_on(given, Argument::Whole(word), ahead)),
            Worked::Text(len, ahead) => Ok(gone_on(given, Argument::Text(len), ahead)),
        },
    }
}
