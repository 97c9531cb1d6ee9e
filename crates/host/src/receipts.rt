// A receipt in words, and what receiving answers as a verdict of the check.
ghost use Rattle.std.specs.Prelude.{◌≡◌};
ghost use Rattle.host.specs.Receipts.{receipt_words, receipt_of, first_receipt, begun_as, loaded_as};

use crate::answers::wide_size;
use checker::Fault;
use loader::RefusedAt;
use serial::Receipt;

// The first word: whether the second is how many bytes are held.
const HOLDS: u64 = 0;

const TOO_MUCH: u64 = 1;

pub(crate) fn words_of(receipt: Receipt) -> [u64; 2]
    ensures { result ≡ receipt_words receipt }
{
    match receipt {
        Some(count) => [HOLDS, wide_size(count)],
        None => [TOO_MUCH, 0],
    }
}

// Any words are a receipt.
#[tactic(auto, unfolding(crate::specs::Receipts::receipt_of))]
pub(crate) fn receipt_of(first: u64, second: u64) -> Receipt
    ensures { result ≡ receipt_of first second }
{
    (first == HOLDS).then_some(second as usize)
}

// The receipt to begin with; where the buffer is refused, that of no bytes.
pub(crate) fn first_receipt(begun: Result<Receipt, RefusedAt>) -> Receipt
    ensures { result ≡ first_receipt begun }
{
    begun.unwrap_or(Some(0))
}

pub(crate) fn begun_as(begun: Result<Receipt, RefusedAt>) -> Result<(), Fault>
    ensures { result ≡ begun_as begun }
{
    begun?;
    Ok(())
}

// What loading answers, and indexing, as the check's verdict.
pub(crate) fn loaded_as(loaded: Result<(), RefusedAt>) -> Result<(), Fault>
    ensures { result ≡ loaded_as loaded }
{
    Ok(loaded?)
}
