ghost use Rattle.std.specs.Prelude.{◌≡◌, ◌≢◌, ℕ, List, Some};
ghost use Rattle.reply_text.specs.Answer.{Answer, answer_text};
ghost use Rattle.script_text.specs.Script.{line_input, words_of};
ghost use Rattle.script_text.specs.Script.Input.{Skipped};
ghost use Rattle.questions.specs.Asked.{reply_asked};
ghost use Rattle.questions.specs.Printed.{MayBeAsked};
ghost use Rattle.questions.specs.Question.{question_line};
ghost use Rattle.questions.specs.Question.QuestionLine.{Plain};

/// A printed reply of a read may be asked about as it is.
pub fn what_is_printed_may_be_asked()
    ensures { (answer : Answer) → MayBeAsked answer → reply_asked (words_of (answer_text answer)) ≡ Some answer }
{}

/// A question is a comment, so no command is done for it.
pub fn a_question_is_a_comment()
    ensures { (line : List ℕ) → question_line line ≢ Plain → line_input line ≡ Skipped }
{}
