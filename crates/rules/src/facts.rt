//! Sets of facts as masks: bit `f`, worth 2 to the power `f`, stands for the fact `f`.

ghost use Rattle.std.specs.Prelude.{◌≡◌, ◌↔◌, ◌<◌, ◌≤◌, IsTrue, min};
ghost use Rattle.rules.specs.Sets.{◌⊆◌, ◌∖◌, Meets, inside, shares, below, single as only, size as size_of};

/// A set of facts, of which there are at most 32.
pub type Facts = u32;

/// The facts of `a` that are not in `b`.
pub fn difference(a: Facts, b: Facts) -> Facts
    ensures { result ≡ a ∖ b }
{
    a & !b
}

/// Whether each fact of `a` is in `b`.
pub fn is_subset(a: Facts, b: Facts) -> bool
    ensures test { result ≡ inside a b }
    ensures says { IsTrue result ↔ (a ⊆ b) }
{
    difference(a, b) == 0
}

/// Whether `a` and `b` share a fact.
pub fn meets(a: Facts, b: Facts) -> bool
    ensures test { result ≡ shares a b }
    ensures says { IsTrue result ↔ Meets a b }
{
    a & b != 0
}

/// The set of one fact alone; empty where no set can hold the fact.
pub fn single(fact: u8) -> Facts
    ensures within { fact < 32 → result ≡ only fact }
    ensures past { 32 ≤ fact → result ≡ 0 }
{
    if fact < 32 { 1 << fact } else { 0 }
}

/// How many facts a set has.
pub fn size(a: Facts) -> u8
    ensures { result ≡ size_of a }
{
    a.count_ones() as u8
}

/// The facts below `n`, of which there are 32 at most.
pub fn facts_below(n: u8) -> Facts
    ensures { result ≡ below (min n 32) }
{
    if n >= 32 { u32::MAX } else { (1 << n) - 1 }
}
