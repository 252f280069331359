//! Laws of what is remembered of the calls. Their functions do nothing: their contracts are the laws.
ghost use Rattle.std.specs.Prelude.{◌≡◌, ℕ, ◌<◌, ◌∷◌, List, IsTrue, replicate};
ghost use Rattle.canon_io.specs.declared.watch.Answer.{Answer};
ghost use Rattle.canon_io.specs.declared.watch.Watch.{Watch};
ghost use Rattle.canon_io.specs.Watch.{fresh, after_all, failed};
ghost use Rattle.canon_io.specs.Runs.{IsFailedRun};

/// A watch has failed exactly where one of the calls failed or 1,000 in a row were interrupted.
pub fn failed_where_a_call_failed()
    ensures said { (answers : List Answer) → IsTrue (failed (after_all fresh answers))
        → IsFailedRun answers }
    ensures seen { (answers : List Answer) → IsFailedRun answers
        → IsTrue (failed (after_all fresh answers)) }
{}

/// Fewer than 1,000 interrupted calls are counted, and 1,000 are a failure.
pub fn interruptions_are_counted()
    ensures fewer { (count : ℕ) → count < 1000
        → after_all fresh (replicate count Answer.Interruption) ≡ Watch.Sound count }
    ensures limit { after_all fresh (replicate 1000 Answer.Interruption) ≡ Watch.Failed }
{}

/// Behind a call that did what it was asked for, the count begins anew.
pub fn normal_answers_begin_anew()
    ensures { (count : ℕ) (answers : List Answer) →
        after_all (Watch.Sound count) (Answer.Normal ∷ answers) ≡ after_all fresh answers }
{}

/// A failure is never forgotten.
pub fn failures_stay()
    ensures { (answers : List Answer) → after_all Watch.Failed answers ≡ Watch.Failed }
{}
