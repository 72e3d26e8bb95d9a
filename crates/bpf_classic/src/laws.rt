//! Laws, as contracts of functions.

ghost use Rattle.bpf_classic.specs.Meaning.{ConversionKeepsAnswers};
ghost use Rattle.bpf_classic.specs.Turns.{MoreTurnsKeepAnswers, AnswersAreKept, NoAnswerIs0, StraightFiltersAnswer};

/// On each context a converted program ends with what its filter answers, within the longest way through it.
pub fn conversion_keeps_answers()
    ensures { ConversionKeepsAnswers }
{}

/// More turns keep an answer.
pub fn more_turns_keep_answers()
    ensures { MoreTurnsKeepAnswers }
{}

/// What a filter answers is kept where its run jumps back no more often than it may; else 0 is answered.
pub fn turns_are_spent()
    ensures kept { AnswersAreKept }
    ensures spent { NoAnswerIs0 }
{}

/// A filter without loops answers, and the turns don't matter.
pub fn straight_filters_answer()
    ensures { StraightFiltersAnswer }
{}
