//! The words of a whole sheet: whether they are powers, and zero everywhere.
ghost use Rattle.std.specs.Prelude.{◌≡◌, length, replicate, fold, bit_or};
ghost use Rattle.book.specs.Sheets.{all_powers};

use forms::bounds::POWER_BOUND;
use settlement::sheet::WORDS_PER_SLOT;

/// These bits, and every bit that stands in some word, in one plain pass.
fn with_bits(bits: u32, words: &[u32]) -> u32
    ensures { result ≡ fold bit_or bits words.now }
{
    words.iter().fold(bits, |bits, word| bits | *word)
}

/// Every bit that stands in some word. No word is above it.
fn all_bits(words: &[u32]) -> u32
    ensures { result ≡ fold bit_or 0 words.now }
{
    // Slot by slot: a pass whose length is known takes a fifth less time.
    let (slots, rest) = words.as_chunks::<WORDS_PER_SLOT>();
    let bits = slots.iter().fold(0, |bits, slot| with_bits(bits, slot));
    with_bits(bits, rest)
}

/// Whether no word is above the bound on powers, in one plain pass that no word ends.
fn all_within(words: &[u32]) -> bool
    ensures { result ≡ all_powers words.now }
{
    words
        .iter()
        .fold(true, |within, word| within & (*word <= POWER_BOUND))
}

/// Whether no word is above the bound on powers, word by word.
fn each_within(words: &[u32]) -> bool
    ensures { result ≡ all_powers words.now }
{
    // Slot by slot: a pass that any word may end looks at one word at a time.
    let (slots, rest) = words.as_chunks::<WORDS_PER_SLOT>();
    slots.iter().all(|slot| all_within(slot)) && all_within(rest)
}

/// Whether no word is above the bound on powers. Where all their bits together are not, none is.
pub(crate) fn all_powers(words: &[u32]) -> bool
    ensures { result ≡ all_powers words.now }
{
    all_bits(words) <= POWER_BOUND || each_within(words)
}

/// Zero in each word.
pub(crate) fn clear(sheet: &mut [u32])
    ensures { sheet.new ≡ replicate (length sheet.old) 0 }
{
    sheet.fill(0);
}
