// That what is stated is proved, said in a contract.
ghost use Rattle.bounds.specs.Bounds.{BoundsAnswerAlways, StepsBounded, BoundedNeverOut, ReportKept};

// What is promised of bounds, each a clause: this answers nothing, and its contract holds only if every one of them is proved.
pub fn bounds_hold()
    ensures bounds_answer_always { BoundsAnswerAlways }
    ensures steps_bounded { StepsBounded }
    ensures bounded_never_out { BoundedNeverOut }
    ensures report_kept { ReportKept }
{}
