// Setting any plant to a list of words.
ghost use Rattle.std.specs.Prelude.{◌≡◌, Ok};
ghost use Rattle.plant.specs.Setting.{setting, all_set, SetsOneWord};

use crate::checks::check_word;
use crate::plant::Plant;
use faults::fault::PlantFault;

// The first refusal that the writes of the list to the signals from 0 on would meet.
#[tactic(auto, using(crate::proofs::Writes::one_refused, crate::proofs::Writes::all_accepted))]
fn accepts<P: Plant>(plant: &P, words: &[u16]) -> Result<(), PlantFault>
    ensures value { result ≡ setting (P.meaning plant.now) words.now }
    ensures law { SetsOneWord }
{
    for (signal, word) in words.iter().enumerate() {
        check_word(plant.count(), plant.top(), signal as u16, *word)?;
    }
    Ok(())
}

// Writes a list of which every word is accepted.
#[tactic(auto, using(crate::proofs::Writes::partly_more))]
fn write_each<P: Plant>(plant: &mut P, words: &[u16])
    requires { setting (P.meaning plant.old) words.now ≡ Ok tt }
    ensures { P.meaning plant.new ≡ all_set (P.meaning plant.old) words.now }
{
    for (signal, word) in words.iter().enumerate() {
        let _ = plant.write(signal as u16, *word);
    }
}

// Writes the words of the list to the signals from 0 on: all of them, or none.
pub fn set_words<P: Plant>(plant: &mut P, words: &[u16]) -> Result<(), PlantFault>
    ensures value { result ≡ setting (P.meaning plant.old) words.now }
    ensures after { P.meaning plant.new ≡ all_set (P.meaning plant.old) words.now }
    ensures law { SetsOneWord }
{
    accepts(plant, words)?;
    write_each(plant, words);
    Ok(())
}
