//! The words of a seed.
ghost use Rattle.std.specs.Prelude.{◌≡◌};
ghost use Rattle.iso_serial.specs.Seeds.{later, seeded, word};

use rand_core::SeedableRng;
use rand_core::utils::NextWord;
use rand_pcg::Lcg64Xsh32;

/// The generator that a seed makes: rand_pcg's `Lcg64Xsh32::seed_from_u64(seed)`.
#[tactic(auto, unfolding(crate::specs::Seeds::seeded))]
pub fn generator(seed: u64) -> Lcg64Xsh32
    ensures { result ≡ seeded seed }
{
    Lcg64Xsh32::seed_from_u64(seed)
}

/// The generator's next word.
#[tactic(auto, unfolding(crate::specs::Seeds::word, crate::specs::Seeds::later))]
pub fn next_of(words: &mut Lcg64Xsh32) -> u32
    ensures word { result ≡ word words.old }
    ensures on { words.new ≡ later words.old }
{
    words.next_word()
}
