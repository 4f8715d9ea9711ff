// A rack: up to 128 signals, each with a word of 16 bits.
ghost use Rattle.std.specs.Prelude.{◌≡◌, ℕ, ◌<◌, ◌≤◌, length, min, slice_index};
ghost use Rattle.plant.specs.Meaning.{zeros};

use crate::checks::{check_signal, check_word};
use crate::plant::Plant;
use faults::fault::PlantFault;

// The first `count` words are those of the signals; the ghost fields keep them within the array and 16 bits. An array and a
// length: an ArrayVec would be filled twice and then moved, in twice the time and more.
#[derive(Drop)]
pub struct Rack {
    words: [u16; 128],
    count: u16,
    ghost room: { length words ≡ 128 },
    ghost few: { count ≤ 128 },
    ghost fit: { (k : ℕ) → k < 128 → slice_index words k < 65536 },
}

impl Rack {
    // A rack of zeros. A number of signals above 128 counts as 128.
    #[tactic(auto, using(crate::specs::Racks::front, crate::specs::Racks::all_zero))]
    pub fn new(signals: u16) -> Rack
        ensures { ⟦<Rack as Plant>⟧.meaning result ≡ zeros (min signals 128) 65535 }
    {
        Rack {
            words: [0; 128],
            count: signals.min(128),
        }
    }
}

impl Plant for Rack {
    ghost use Rattle.plant.specs.Plants.{rack_meaning};
    ghost use Rattle.plant.specs.Racks.{rack_sound};

    ghost meaning = { rack_meaning };

    ghost sound = { rack_sound };

    fn count(&self) -> u16 {
        self.count
    }

    fn top(&self) -> u16 {
        65535
    }

    #[tactic(auto, using(crate::specs::Racks::word_at))]
    fn read(&self, signal: u16) -> Result<u16, PlantFault> {
        check_signal(self.count(), signal)?;
        Ok(self.words[usize::from(signal)])
    }

    #[tactic(auto, using(crate::specs::Racks::set_fits, crate::specs::Racks::set_word))]
    fn write(&mut self, signal: u16, word: u16) -> Result<(), PlantFault> {
        check_word(self.count(), self.top(), signal, word)?;
        self.words[usize::from(signal)] = word;
        Ok(())
    }
}
