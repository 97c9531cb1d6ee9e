// That what is stated is proved, said in a contract.
ghost use Rattle.promises.specs.Demands.{AnswersAlways, StopsWithinBudget, RefusesExactly, RefusalsChangeNothing, StaysWithinMemory, AskedPartsLieInside, RunsAsDefined, MadeExactly, FourteenExactly, ChecksExactly, PassedRecipesEndWell, FewAtOnce};
ghost use Rattle.promises.specs.Boxes.{BoxesAnswerAlways, BoxStopsWithinBudget, BoxRefusesExactly, BoxRefusalsChangeNothing, BoxPassedRunsEndWell, BoxAsksWell, BoxAsksAfterRuns};
ghost use Rattle.promises.specs.Impostors.{PassingEverythingFalls};
ghost use Rattle.promises.specs.Unfinished.{FewUnfinished, MostIsReached, LiveIsExact};
ghost use Rattle.promises.specs.Passing.{CheckedRunsEndWell, NextHasRoom};
ghost use Rattle.promises.specs.Sentences.{LettersAreFolded, PrintedItemsAreLetGo, AssignmentHandsOver};
ghost use Rattle.promises.specs.OutOfSteps.{OutOfSteps, OutOfStepsExactly};
ghost use Rattle.promises.specs.Refusals.{LoadsByTable, CallsRefuseByTable, LinesLieInText};
ghost use Rattle.promises.specs.Requests.{FewRequested, MostIsRequested, HighestIsCounted};
ghost use Rattle.promises.specs.Questions.{AskedOverVariables, AnswersAfterRuns, AsksAfterRuns};
ghost use Rattle.promises.specs.Seven.{SevenExactly, LackedRecordsEnd, RecordsWithinLent};
ghost use Rattle.promises.specs.Pairs.{PartnersAreNumbered, NoTwoHaveOne};

// The demands and what else is promised, each a clause: this answers nothing, and its contract holds only if every one of them is proved.
pub fn demands_hold()
    ensures answers_always { AnswersAlways }
    ensures stops_within_budget { StopsWithinBudget }
    ensures refuses_exactly { RefusesExactly }
    ensures refusals_change_nothing { RefusalsChangeNothing }
    ensures stays_within_memory { StaysWithinMemory }
    ensures asked_parts_lie_inside { AskedPartsLieInside }
    ensures runs_as_defined { RunsAsDefined }
    ensures made_exactly { MadeExactly }
    ensures fourteen_exactly { FourteenExactly }
    ensures checks_exactly { ChecksExactly }
    ensures passed_recipes_end_well { PassedRecipesEndWell }
    ensures few_at_once { FewAtOnce }
    ensures boxes_answer_always { BoxesAnswerAlways }
    ensures box_stops_within_budget { BoxStopsWithinBudget }
    ensures box_refuses_exactly { BoxRefusesExactly }
    ensures box_refusals_change_nothing { BoxRefusalsChangeNothing }
    ensures box_passed_runs_end_well { BoxPassedRunsEndWell }
    ensures box_asks_well { BoxAsksWell }
    ensures box_asks_after_runs { BoxAsksAfterRuns }
    ensures passing_everything_falls { PassingEverythingFalls }
    ensures few_unfinished { FewUnfinished }
    ensures most_is_reached { MostIsReached }
    ensures live_is_exact { LiveIsExact }
    ensures checked_runs_end_well { CheckedRunsEndWell }
    ensures next_has_room { NextHasRoom }
    ensures letters_are_folded { LettersAreFolded }
    ensures printed_items_are_let_go { PrintedItemsAreLetGo }
    ensures assignment_hands_over { AssignmentHandsOver }
    ensures out_of_steps { OutOfSteps }
    ensures out_of_steps_exactly { OutOfStepsExactly }
    ensures loads_by_table { LoadsByTable }
    ensures calls_refuse_by_table { CallsRefuseByTable }
    ensures lines_lie_in_text { LinesLieInText }
    ensures few_requested { FewRequested }
    ensures most_is_requested { MostIsRequested }
    ensures highest_is_counted { HighestIsCounted }
    ensures asked_over_variables { AskedOverVariables }
    ensures answers_after_runs { AnswersAfterRuns }
    ensures asks_after_runs { AsksAfterRuns }
    ensures seven_exactly { SevenExactly }
    ensures lacked_records_end { LackedRecordsEnd }
    ensures records_within_lent { RecordsWithinLent }
    ensures partners_are_numbered { PartnersAreNumbered }
    ensures no_two_have_one { NoTwoHaveOne }
{}
