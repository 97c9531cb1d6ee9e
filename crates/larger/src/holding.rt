// That what is stated is proved, said in a contract.
ghost use Rattle.larger.specs.Larger.{MoreSpaceSame, BoxMoreSpaceSame};

// What is promised of more string space, each a clause: this answers nothing, and its contract holds only if every one of them is proved.
pub fn more_space_holds()
    ensures more_space_same { MoreSpaceSame }
    ensures box_more_space_same { BoxMoreSpaceSame }
{}
