// That what is stated is proved, said in a contract.
ghost use Rattle.serial_promises.specs.Cuttings.{ReceivesAlways, CallsReceive, ShortRefused, ShortUntouched};
ghost use Rattle.serial_promises.specs.Boxes.{BoxesReceiveAlways, BoxesReceive, BoxShortRefused, BoxShortUntouched, BoxBuffersStayAsLong};

// What is promised of a recipe that comes in parts, each a clause: this answers nothing, and its contract holds only if every one of them is proved.
pub fn receipts_hold()
    ensures receives_always { ReceivesAlways }
    ensures calls_receive { CallsReceive }
    ensures short_refused { ShortRefused }
    ensures short_untouched { ShortUntouched }
    ensures boxes_receive_always { BoxesReceiveAlways }
    ensures boxes_receive { BoxesReceive }
    ensures box_short_refused { BoxShortRefused }
    ensures box_short_untouched { BoxShortUntouched }
    ensures box_buffers_stay_as_long { BoxBuffersStayAsLong }
{}
