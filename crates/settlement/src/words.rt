//! Words added to the sums of a day.
ghost use Rattle.std.specs.Prelude.{◌≡◌, ℕ, ◌+◌, ◌^◌, ◌<◌, ◌≤◌, length, slice_index};
ghost use Rattle.settlement.specs.Days.{Adds};

/// Adds to each sum the word of its quarter hour, which `word` answers by number: it reads one list, two
/// or a message.
pub fn add_words<F: Fn(usize) -> u32>(sums: &mut [u32], word: F)
    requires called { (t : ℕ) → t < length sums.old → F.pre word t }
    requires room { (t : ℕ) → slice_index sums.old t ≤ 2 ^ 30 }
    requires low { (t w : ℕ) → t < length sums.old → F.post word t w → w ≤ 2 ^ 24 }
    ensures value { (words : ℕ → ℕ) → ((t w : ℕ) → t < length sums.old → F.post word t w → w ≡ words t) → Adds (length sums.old) words sums.old sums.new }
    ensures bound { (t : ℕ) → slice_index sums.new t ≤ slice_index sums.old t + 2 ^ 24 }
{
    // Through a `zip` of the sums with an iterator of words nothing is known of what was written.
    for (t, sum) in sums.iter_mut().enumerate() {
        *sum += word(t);
    }
}

/// Adds the word of each quarter hour to two lists of sums at once.
pub(crate) fn add_to_both<F: Fn(usize) -> u32>(given: &mut [u32], taken: &mut [u32], word: F)
    requires long { length given.old ≡ length taken.old }
    requires called { (t : ℕ) → t < length given.old → F.pre word t }
    requires room { (t : ℕ) → (slice_index given.old t ≤ 2 ^ 30) × (slice_index taken.old t ≤ 2 ^ 30) }
    requires low { (t w : ℕ) → t < length given.old → F.post word t w → w ≤ 2 ^ 24 }
    ensures value { (words : ℕ → ℕ) → ((t w : ℕ) → t < length given.old → F.post word t w → w ≡ words t) → Adds (length given.old) words given.old given.new × Adds (length given.old) words taken.old taken.new }
    ensures bound { (t : ℕ) → (slice_index given.new t ≤ slice_index given.old t + 2 ^ 24) × (slice_index taken.new t ≤ slice_index taken.old t + 2 ^ 24) }
{
    for (t, sum) in given.iter_mut().enumerate() {
        let added = word(t);
        *sum += added;
        taken[t] += added;
    }
}
