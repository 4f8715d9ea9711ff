// Comparing any plant with a list of words.
ghost use Rattle.std.specs.Prelude.{◌≡◌};
ghost use Rattle.plant.specs.Difference.{holds, first_difference, DifferenceExactly};

use crate::plant::Plant;

// Whether a plant has the signal, at that word.
fn holds<P: Plant>(plant: &P, signal: u16, word: u16) -> bool
    ensures { result ≡ holds (P.meaning plant.now) signal word }
{
    plant.read(signal).is_ok_and(|held| held == word)
}

// The lowest signal that has not the word at its place in the list, or is not there at all.
#[tactic(auto, using(crate::proofs::Comparing::one_differs, crate::proofs::Comparing::all_agree))]
pub fn first_difference<P: Plant>(plant: &P, words: &[u16]) -> Option<u16>
    ensures value { result ≡ first_difference (P.meaning plant.now) words.now }
    ensures law { DifferenceExactly }
{
    // no `find`: it would hand out the place and the word, and the place would be cast twice
    for (signal, word) in words.iter().enumerate() {
        let signal = signal as u16;
        if !holds(plant, signal, *word) {
            return Some(signal);
        }
    }
    None
}
