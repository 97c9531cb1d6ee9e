// The functions that a host links to receive a recipe over the serial line. Each writes only what is lent to it.
ghost use Rattle.serial.specs.Receiving.{begun_of, held, taken, finished};
ghost use Rattle.host.specs.Receipts.{receipt_in, HasBegun, HasTaken, HasFinished};

use crate::answers::verdict_of;
use crate::receipts::{begun_as, first_receipt, loaded_as, receipt_of, words_of};
use serial::{begin, finish, take};

// Begins to receive: a short buffer is refused at once.
#[unsafe(no_mangle)]
pub extern "C" fn quernhem_begin(buffer: &[u8], receipt: &mut [u64; 2], verdict: &mut [u64; 4])
    ensures { HasBegun (begun_of buffer.now) receipt.new verdict.new }
{
    let begun = begin(buffer);
    *receipt = words_of(first_receipt(begun));
    *verdict = verdict_of(begun_as(begun));
}

// Takes a part more of the text, whatever the receipt.
#[unsafe(no_mangle)]
pub extern "C" fn quernhem_take(buffer: &mut [u8], receipt: &mut [u64; 2], part: &[u8])
    ensures { HasTaken (taken (held (receipt_in receipt.old) buffer.old) part.now)
        buffer.new receipt.new }
{
    let before = receipt_of(receipt[0], receipt[1]);
    *receipt = words_of(take(before, buffer, part));
}

// Ends receiving: the answer of loading all that came.
#[unsafe(no_mangle)]
pub extern "C" fn quernhem_finish(buffer: &mut [u8], receipt: &[u64; 2], verdict: &mut [u64; 4])
    ensures { HasFinished (finished (held (receipt_in receipt.now) buffer.old))
        buffer.new verdict.new }
{
    let before = receipt_of(receipt[0], receipt[1]);
    *verdict = verdict_of(loaded_as(finish(before, buffer)));
}
