//! What holds at each moment of a session.

ghost use Rattle.std.specs.Prelude.{◌≡◌, ℕ, Bool, List, [], ◌∷◌, ◌++◌, length, map};
ghost use Rattle.live_doors.specs.Doors.{Deed, heard, said};
ghost use Rattle.live_session.specs.declared.replies.Manner.{Manner};
ghost use Rattle.live_session.specs.declared.replies.Reply.{Reply};
ghost use Rattle.live_session.specs.Moments.{Begins, IsMoment, IsTold, SaysUpTo, heard_count, said_in};
ghost use Rattle.live_session.specs.Talks.{IsCut, deeds_of, reply_text};

/// At each moment what was said are the texts of the first replies, and of all items that were heard at most one is unanswered.
pub fn each_moment()
    ensures { (way : Manner) (ended : Bool) (lines : List (List ℕ)) (replies : List Reply)
        (now more : List Deed) → Begins way ended lines replies now more
        → IsMoment way lines replies now }
{}

/// Where a reply is said, it is the next one, and with a journal the mark that all entries up to a row's number stand there was
/// made right before.
#[tactic(auto, using(crate::proofs::MomentLaws::kept_before))]
pub fn marked_before_said()
    ensures { (way : Manner) (ended : Bool) (lines : List (List ℕ)) (replies : List Reply)
        (before after : List Deed) (text : List ℕ)
        → Begins way ended lines replies before (said text ∷ after)
        → IsTold way replies before text }
{}

/// Where a line is heard, all items of the lines before it were answered.
#[tactic(auto, using(crate::proofs::MomentLaws::answered_before))]
pub fn answered_before_heard()
    ensures { (way : Manner) (ended : Bool) (lines : List (List ℕ)) (replies : List Reply)
        (before after : List Deed) (line : List ℕ)
        → Begins way ended lines replies before (heard line ∷ after) → length (said_in before)
        ≡ heard_count before }
{}

/// Where a session ends within its last reply, the replies before it were said whole, and of the last one nothing, or a prefix.
#[tactic(auto, using(crate::proofs::MomentLaws::before_last, crate::proofs::MomentLaws::cut_last))]
pub fn cut_within_the_last()
    ensures before { (way : Manner) (ended : Bool) (lines : List (List ℕ)) (replies : List Reply)
        (last : Reply) (before : List Deed)
        → Begins way ended lines (replies ++ last ∷ []) before (deeds_of way last) → said_in before
        ≡ map (reply_text way.clocks) replies }
    ensures cut { (way : Manner) (ended : Bool) (lines : List (List ℕ)) (replies : List Reply)
        (last : Reply) (before part : List Deed)
        → Begins way ended lines (replies ++ last ∷ []) before (deeds_of way last)
        → IsCut way last part → SaysUpTo way replies last (before ++ part) }
{}
