// Lent memory is blanked.
#![tactic(auto)]

ghost use Rattle.std.specs.Prelude.{◌≡◌, ℕ, ◌<◌, ◌≤◌, length, slice_index_or};

// Blanks every element from a place on, and leaves those before.
pub fn blank_from<T: Copy>(items: &mut [T], from: usize, blank: T)
    ensures past { (k : ℕ) → from ≤ k → k < length items.new → slice_index_or items.new k blank ≡ blank }
    ensures before { (k : ℕ) → k < from → slice_index_or items.new k blank ≡ slice_index_or items.old k blank }
{
    let from = from.min(items.len());
    // no `fill`: it asks a clone that cannot fail, which no bound of `T` promises
    for item in items[from..].iter_mut() {
        *item = blank;
    }
}
