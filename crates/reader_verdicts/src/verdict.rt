//! What becomes of what was read.

ghost use Rattle.reader_verdicts.specs.Verdict.{verdict_kind};
ghost use Rattle.std.specs.Prelude.{◌≡◌};
ghost use Rattle.syn_grammar.specs.Types.{kept_if};
ghost use Rattle.syn_grammar.specs.Verdicts.{raw_if, refused_if, strictly};

/// What becomes of what was read.
#[derive(Clone, Copy)]
pub enum Verdict {
    /// It is kept.
    Keep,
    /// Its tokens are kept.
    AsRaw,
    /// There is none.
    Refuse,
}

/// It is kept if that holds, and else there is none.
pub fn kept_if(holds: bool) -> Verdict
    ensures { verdict_kind result ≡ kept_if holds }
{
    if holds {
        Verdict::Keep
    } else {
        Verdict::Refuse
    }
}

/// Its tokens are kept if that holds, and else it is kept itself.
pub fn raw_if(holds: bool) -> Verdict
    ensures { verdict_kind result ≡ raw_if holds }
{
    if holds { Verdict::AsRaw } else { Verdict::Keep }
}

/// There is none if that holds, and else it is judged so.
pub fn refused_if(holds: bool, verdict: Verdict) -> Verdict
    ensures { verdict_kind result ≡ refused_if holds (verdict_kind verdict) }
{
    if holds { Verdict::Refuse } else { verdict }
}

/// Of the readers of one kind: what is not kept itself is refused.
pub fn strictly(verdict: Verdict) -> Verdict
    ensures { verdict_kind result ≡ strictly (verdict_kind verdict) }
{
    match verdict {
        Verdict::Keep => Verdict::Keep,
        Verdict::AsRaw => Verdict::Refuse,
        Verdict::Refuse => Verdict::Refuse,
    }
}
