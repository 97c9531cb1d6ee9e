// That what is stated is proved, said in a contract.
ghost use Rattle.laws.specs.Laws.{PartsJoinAgain, BracketsDoNotMatter, NotOfAnd, DivisionComesBack};

// The laws, each a clause: this answers nothing, and its contract holds only if every one of them is proved.
pub fn laws_hold()
    ensures parts_join_again { PartsJoinAgain }
    ensures brackets_do_not_matter { BracketsDoNotMatter }
    ensures not_of_and { NotOfAnd }
    ensures division_comes_back { DivisionComesBack }
{}
