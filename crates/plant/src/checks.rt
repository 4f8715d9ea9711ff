// The tests that the calls of every plant begin with.
ghost use Rattle.std.specs.Prelude.{◌≡◌};
ghost use Rattle.plant.specs.Meaning.{finding, accepting};

use faults::fault::PlantFault;

// Whether one of so many signals is this one. These are no methods of `Plant`, and take numbers: a call of a plant that
// passes on the plant itself gets no proof.
pub fn check_signal(count: u16, signal: u16) -> Result<(), PlantFault>
    ensures { result ≡ finding count signal }
{
    if signal >= count {
        return Err(PlantFault::NoSignal { signal });
    }
    Ok(())
}

// Whether a write of the word to one of so many signals, with that top word, is accepted.
pub fn check_word(count: u16, top: u16, signal: u16, word: u16) -> Result<(), PlantFault>
    ensures { result ≡ accepting count top signal word }
{
    check_signal(count, signal)?;
    if word > top {
        return Err(PlantFault::AboveTop { signal });
    }
    Ok(())
}
