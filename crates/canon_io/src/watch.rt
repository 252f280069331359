//! What is remembered of the calls of a reader or a writer.
ghost use Rattle.std.specs.Prelude.{◌≡◌};

/// What a call of a reader or a writer answered.
#[derive(Clone, Copy, Debug, PartialEq, Eq)]
pub enum Answer {
    /// It did what it was asked for.
    Normal,
    /// It was interrupted, and may be tried again.
    Interruption,
    /// It failed.
    Failure,
}

/// What the calls up to now answered.
#[derive(Clone, Copy, Debug, PartialEq, Eq)]
pub enum Watch {
    /// None failed, and so many of the last calls, one behind the other, were interrupted.
    Sound(u32),
    /// One failed, or 1,000 in a row were interrupted.
    Failed,
}

/// So many interrupted calls in a row are a failure.
const INTERRUPTED_LIMIT: u32 = 1000;

impl Watch {
    ghost use Rattle.canon_io.specs.Watch.{after, failed};

    /// The state behind one more answer.
    pub fn after(self, answer: Answer) -> Watch
        ensures { result ≡ after self answer }
    {
        let Watch::Sound(interrupted) = self else {
            return Watch::Failed;
        };
        match answer {
            Answer::Normal => Watch::Sound(0),
            Answer::Interruption => {
                if interrupted < INTERRUPTED_LIMIT - 1 {
                    Watch::Sound(interrupted + 1)
                } else {
                    Watch::Failed
                }
            }
            Answer::Failure => Watch::Failed,
        }
    }

    /// Whether a call failed.
    pub fn failed(self) -> bool
        ensures { result ≡ failed self }
    {
        match self {
            Watch::Sound(_) => false,
            Watch::Failed => true,
        }
    }
}
