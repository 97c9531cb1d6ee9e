// The calls that receive a recipe over the serial line.
ghost use Rattle.serial.specs.Receiving.{begun_of, held, taken, finished};
ghost use Rattle.host.specs.Receipts.{receipt_in, HasBegun, HasTaken, HasFinished};

// Begins to receive: a short buffer is refused at once.
#[unsafe(no_mangle)]
pub extern "C" fn quernhem_begin(buffer: &[u8], receipt: &mut [u64; 2], verdict: &mut [u64; 4])
    ensures { HasBegun (begun_of buffer.now) receipt.new verdict.new }
{
    host::quernhem_begin(buffer, receipt, verdict)
}

// Takes a part more of the text, whatever the receipt.
#[unsafe(no_mangle)]
pub extern "C" fn quernhem_take(buffer: &mut [u8], receipt: &mut [u64; 2], part: &[u8])
    ensures { HasTaken (taken (held (receipt_in receipt.old) buffer.old) part.now)
        buffer.new receipt.new }
{
    host::quernhem_take(buffer, receipt, part)
}

// Ends receiving: the answer of loading all that came.
#[unsafe(no_mangle)]
pub extern "C" fn quernhem_finish(buffer: &mut [u8], receipt: &[u64; 2], verdict: &mut [u64; 4])
    ensures { HasFinished (finished (held (receipt_in receipt.now) buffer.old))
        buffer.new verdict.new }
{
    host::quernhem_finish(buffer, receipt, verdict)
}
