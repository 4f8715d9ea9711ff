// What every plant is.
ghost use Rattle.std.specs.Prelude.{◌≡◌};
ghost use Rattle.plant.specs.Meaning.{PlantMeaning, Sound, reading, writing, written};

use faults::fault::PlantFault;

// A plant means a count, a top word, and a word from 0 to the top for each signal below the count. Count and top never
// change. A read answers the word; a write sets that word and no other. Each refuses a signal that is not below the count,
// and a write then a word above the top; a refusal changes nothing.
pub trait Plant {
    ghost meaning: { Self → PlantMeaning };

    fn count(&self) -> u16
        ensures { result ≡ (meaning self.now).count };

    fn top(&self) -> u16
        ensures { result ≡ (meaning self.now).top };

    fn read(&self, signal: u16) -> Result<u16, PlantFault>
        ensures { result ≡ reading (meaning self.now) signal };

    fn write(&mut self, signal: u16, word: u16) -> Result<(), PlantFault>
        ensures value { result ≡ writing (meaning self.old) signal word }
        ensures after { meaning self.new ≡ written (meaning self.old) signal word };

    ghost sound: { (x : Self) → Sound (meaning x) };
}
