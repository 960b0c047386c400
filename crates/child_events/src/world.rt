//! What a script can know of its children.

ghost use Rattle.std.specs.Prelude.{◌≡◌, ◌≤◌, ℕ, List, max};
ghost use Rattle.child_events.specs.declared.event.Event.{Event};
ghost use Rattle.child_events.specs.World.{fresh, grown_all, horizon_of, Knows};

/// Returns the later of two moments.
pub fn later(a: u64, b: u64) -> u64
    ensures { result ≡ max a b }
{
    if a < b { b } else { a }
}

/// States that the world contains exactly what the events say, for each child from 1 to 16. Each
/// moment is raised to the greatest one before it, and the horizon is the greatest moment. It does
/// nothing at run time.
pub fn world_law()
    ensures knows { (es : List Event) (child : ℕ) → 1 ≤ child → child ≤ 16 → Knows (grown_all fresh es) child es }
    ensures horizon { (es : List Event) → (grown_all fresh es).horizon ≡ horizon_of es }
{}
