// A plant as a buyer would write one.
ghost use Rattle.std.specs.Prelude.{◌≤◌, [], ◌∷◌};
ghost use Rattle.std.proofs.Common.{rules};

use crate::{Plant, check_signal, check_word};
use faults::fault::PlantFault;

// One signal, dark at 0 and lit at 1.
#[derive(Drop)]
pub struct Lamp {
    light: u16,
    ghost bit: { light ≤ 1 },
}

impl Lamp {
    pub fn dark() -> Lamp {
        Lamp { light: 0 }
    }
}

impl Plant for Lamp {
    ghost meaning = { λ lamp. record { count = 1; top = 1; words = lamp.light ∷ [] } };

    ghost sound = { Prim.search rules };

    fn count(&self) -> u16 {
        1
    }

    fn top(&self) -> u16 {
        1
    }

    fn read(&self, signal: u16) -> Result<u16, PlantFault> {
        check_signal(self.count(), signal)?;
        Ok(self.light)
    }

    fn write(&mut self, signal: u16, word: u16) -> Result<(), PlantFault> {
        check_word(self.count(), self.top(), signal, word)?;
        self.light = word;
        Ok(())
    }
}
