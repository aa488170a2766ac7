// Laws of answers' text, each a function without a body.
ghost use Rattle.std.specs.Prelude.{◌≡◌, All, List};
ghost use Rattle.reply_text.specs.Answer.{Answer, answer_text, reply_text};
ghost use Rattle.reply_text.specs.Told.{IsWellFormed};

/// Laws: an answer's text tells the answer, and lines of answers tell these answers.
pub fn replies_tell_their_answers()
    ensures one { (a b : Answer) → IsWellFormed a → IsWellFormed b → answer_text a ≡ answer_text b → a ≡ b }
    ensures all { (some others : List Answer) → All IsWellFormed some → All IsWellFormed others
        → reply_text some ≡ reply_text others → some ≡ others }
{}
