// That what is stated is proved, said in a contract.
ghost use Rattle.sheet_promises.specs.Totals.{CallsTotal, TotalsAlways};

// What is promised of the sheet, each a clause: this answers nothing, and its contract holds only if every one of them is proved.
pub fn totals_hold()
    ensures calls_total { CallsTotal }
    ensures totals_always { TotalsAlways }
{}
