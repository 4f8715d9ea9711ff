// A panel: 128 signals of one bit each.
ghost use Rattle.std.specs.Prelude.{◌≡◌};
ghost use Rattle.plant.specs.Meaning.{zeros};

use crate::checks::{check_signal, check_word};
use crate::plant::Plant;
use faults::fault::PlantFault;

// Bit k, the lowest being bit 0, is the word of signal k. Packed by rule: a panel takes 16 bytes.
#[derive(Drop)]
pub struct Panel {
    bits: u128,
}

impl Panel {
    // A panel of zeros.
    #[tactic(auto, using(crate::specs::Digits::digits_zero))]
    pub fn new() -> Panel
        ensures { ⟦<Panel as Plant>⟧.meaning result ≡ zeros 128 1 }
    {
        Panel { bits: 0 }
    }
}

impl Plant for Panel {
    ghost use Rattle.plant.specs.Plants.{panel_meaning};
    ghost use Rattle.plant.specs.Digits.{panel_sound};

    ghost meaning = { panel_meaning };

    ghost sound = { panel_sound };

    fn count(&self) -> u16 {
        128
    }

    fn top(&self) -> u16 {
        1
    }

    #[tactic(auto, using(crate::specs::Digits::digit_at))]
    fn read(&self, signal: u16) -> Result<u16, PlantFault> {
        check_signal(self.count(), signal)?;
        Ok(((self.bits >> signal) % 2) as u16)
    }

    // Flips the bit if it is the other one.
    #[tactic(auto, using(crate::specs::Digits::panel_flip))]
    fn write(&mut self, signal: u16, word: u16) -> Result<(), PlantFault> {
        check_word(self.count(), self.top(), signal, word)?;
        if self.read(signal)? != word {
            self.bits ^= 1 << signal;
        }
        Ok(())
    }
}
