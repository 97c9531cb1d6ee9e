// That what is stated is proved, said in a contract.
ghost use Rattle.run_laws.specs.Runs.{PartsJoinAgainInRuns, BracketsDoNotMatterInRuns, NotOfAndInRuns, DivisionComesBackInRuns};

// The laws in runs, each a clause: this answers nothing, and its contract holds only if every one of them is proved.
pub fn run_laws_hold()
    ensures parts_join_again_in_runs { PartsJoinAgainInRuns }
    ensures brackets_do_not_matter_in_runs { BracketsDoNotMatterInRuns }
    ensures not_of_and_in_runs { NotOfAndInRuns }
    ensures division_comes_back_in_runs { DivisionComesBackInRuns }
{}
