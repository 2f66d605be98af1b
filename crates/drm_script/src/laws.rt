//! Laws of the readings and the answers of this crate. Each function is its contract; calling it does nothing.

ghost use Rattle.drm_script.specs.Laws.{WordsStandBetweenSpaces, ReadsTheGrammar, ReadsLimitsLines, SkipsCommentsAndBlankLines, RefusesAllOtherLines, AnswersTakeOneLine};

/// The words of a line are what is between its spaces, and nothing else is (own).
pub fn words_stand_between_spaces()
    ensures { WordsStandBetweenSpaces }
{}

/// A line is read as a command exactly if the grammar says so (own).
pub fn reads_the_grammar()
    ensures { ReadsTheGrammar }
{}

/// A line is read as limits exactly if it spells eight numbers that are in their ranges (own).
pub fn reads_limits_lines()
    ensures { ReadsLimitsLines }
{}

/// A line is skipped exactly if it is a comment or has no word (own).
pub fn skips_comments_and_blank_lines()
    ensures { SkipsCommentsAndBlankLines }
{}

/// A line is malformed exactly if it is none of the others (own).
pub fn refuses_all_other_lines()
    ensures { RefusesAllOtherLines }
{}

/// No answer holds a line end but the one that its line ends with (own).
pub fn answers_take_one_line()
    ensures { AnswersTakeOneLine }
{}
