ghost use Rattle.questions.specs.Rows.{QuestionRows};

/// What the worked lines ask.
pub fn worked_question_lines()
    ensures { QuestionRows }
{}
