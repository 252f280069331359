//! Several values that may be there, as one that is there if each of them is. So what takes a tree apart asks for all
//! of its parts at once, and gives up in one place.

ghost use Rattle.std.specs.Prelude.{◌≡◌, ◌⊎◌, MatchOption, None, Some};

/// Two values, if each is there.
pub fn two<A: Copy, B: Copy>(a: Option<A>, b: Option<B>) -> Option<(A, B)>
    ensures { MatchOption result ((a ≡ None) ⊎ (b ≡ None))
        (λ p. (a ≡ Some p.0) × (b ≡ Some p.1)) }
{
    match (a, b) {
        (Some(first), Some(second)) => Some((first, second)),
        _ => None,
    }
}

/// Three values, if each is there.
pub fn three<A: Copy, B: Copy, C: Copy>(
    a: Option<A>,
    b: Option<B>,
    c: Option<C>,
) -> Option<(A, B, C)>
    ensures { MatchOption result ((a ≡ None) ⊎ (b ≡ None) ⊎ (c ≡ None))
        (λ p. (a ≡ Some p.0) × (b ≡ Some p.1) × (c ≡ Some p.2)) }
{
    match (a, b, c) {
        (Some(first), Some(second), Some(third)) => Some((first, second, third)),
        _ => None,
    }
}

/// Four values, if each is there.
pub fn four<A: Copy, B: Copy, C: Copy, D: Copy>(
    a: Option<A>,
    b: Option<B>,
    c: Option<C>,
    d: Option<D>,
) -> Option<(A, B, C, D)>
    ensures { MatchOption result ((a ≡ None) ⊎ (b ≡ None) ⊎ (c ≡ None) ⊎ (d ≡ None))
        (λ p. (a ≡ Some p.0) × (b ≡ Some p.1) × (c ≡ Some p.2) × (d ≡ Some p.3)) }
{
    match (a, b, c, d) {
        (Some(first), Some(second), Some(third), Some(fourth)) => Some((
            first, second, third, fourth,
        )),
        _ => None,
    }
}

/// Five values, if each is there.
pub fn five<A: Copy, B: Copy, C: Copy, D: Copy, E: Copy>(
    a: Option<A>,
    b: Option<B>,
    c: Option<C>,
    d: Option<D>,
    e: Option<E>,
) -> Option<(A, B, C, D, E)>
    ensures { MatchOption result ((a ≡ None) ⊎ (b ≡ None) ⊎ (c ≡ None) ⊎ (d ≡ None) ⊎ (e ≡ None))
        (λ p. (a ≡ Some p.0) × (b ≡ Some p.1) × (c ≡ Some p.2) × (d ≡ Some p.3) × (e ≡ Some p.4)) }
{
    match (a, b, c, d, e) {
        (Some(first), Some(second), Some(third), Some(fourth), Some(fifth)) => Some((
            first, second, third, fourth, fifth,
        )),
        _ => None,
    }
}

/// Six values, if each is there.
pub fn six<A: Copy, B: Copy, C: Copy, D: Copy, E: Copy, F: Copy>(
    a: Option<A>,
    b: Option<B>,
    c: Option<C>,
    d: Option<D>,
    e: Option<E>,
    f: Option<F>,
) -> Option<(A, B, C, D, E, F)>
    ensures { MatchOption result ((a ≡ None) ⊎ (b ≡ None) ⊎ (c ≡ None) ⊎ (d ≡ None) ⊎ (e ≡ None) ⊎ (f ≡ None))
        (λ p. (a ≡ Some p.0) × (b ≡ Some p.1) × (c ≡ Some p.2) × (d ≡ Some p.3) × (e ≡ Some p.4) × (f ≡ Some p.5)) }
{
    match (a, b, c, d, e, f) {
        (Some(first), Some(second), Some(third), Some(fourth), Some(fifth), Some(sixth)) => Some((
            first, second, third, fourth, fifth, sixth,
        )),
        _ => None,
    }
}

/// Seven values, if each is there.
pub fn seven<A: Copy, B: Copy, C: Copy, D: Copy, E: Copy, F: Copy, G: Copy>(
    a: Option<A>,
    b: Option<B>,
    c: Option<C>,
    d: Option<D>,
    e: Option<E>,
    f: Option<F>,
    g: Option<G>,
) -> Option<(A, B, C, D, E, F, G)>
    ensures { MatchOption result ((a ≡ None) ⊎ (b ≡ None) ⊎ (c ≡ None) ⊎ (d ≡ None) ⊎ (e ≡ None) ⊎ (f ≡ None)
        ⊎ (g ≡ None))
        (λ p. (a ≡ Some p.0) × (b ≡ Some p.1) × (c ≡ Some p.2) × (d ≡ Some p.3) × (e ≡ Some p.4) × (f ≡ Some p.5)
        × (g ≡ Some p.6)) }
{
    match (a, b, c, d, e, f, g) {
        (
            Some(first),
            Some(second),
            Some(third),
            Some(fourth),
            Some(fifth),
            Some(sixth),
            Some(seventh),
        ) => Some((first, second, third, fourth, fifth, sixth, seventh)),
        _ => None,
    }
}
