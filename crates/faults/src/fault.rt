// The faults of every layer. Each has a number, a place and a layer.
ghost use Rattle.std.specs.Prelude.{◌≡◌};
ghost use Rattle.faults.specs.declared.fault.Fault.TheVariants.{Reader, Run, Plant, Report};

use crate::verdict::Flaw;

// Which rule a record of a sheet file breaks. Each has its number.
#[derive(Clone, Copy, PartialEq, Eq, Debug)]
pub enum Cause {
    CutShort = 1,
    Mark = 2,
    OffLimits = 3,
    NoSuch = 4,
    WrongStep = 5,
    Repeated = 6,
    LinkedTwice = 7,
    TooMany = 8,
    AfterEnd = 9,
}

// A fault of a sheet file. Its place is the offset of the record's mark.
#[derive(Clone, Copy, PartialEq, Eq, Debug)]
pub struct ReaderFault {
    pub cause: Cause,
    pub place: u16,
}

// Why a call on a run is turned down. Its number is no discriminant, since variants with fields have none.
#[derive(Clone, Copy, PartialEq, Eq, Debug)]
pub enum RunFault {
    DoesNotPass { flaw: Flaw },
    TooFewSignals { count: u16 },
    EffectAboveTop { effect: u16 },
    NotAtStart { signal: u16 },
    StepsInHand { step: u16 },
    NeverOpened,
    NoSuchStep { step: u16 },
    StepDone { step: u16 },
    StepInHand { step: u16 },
    EarlierNotDone { step: u16 },
    OtherRun { run: u16 },
    NotInHand { step: u16 },
}

// Why a plant turns a read or a write down.
#[derive(Clone, Copy, PartialEq, Eq, Debug)]
pub enum PlantFault {
    NoSignal { signal: u16 },
    AboveTop { signal: u16 },
}

// Why a line is not written.
#[derive(Clone, Copy, PartialEq, Eq, Debug)]
pub enum ReportFault {
    BufferTooShort { length: u16 },
}

#[derive(Clone, Copy, PartialEq, Eq, Debug)]
pub enum Fault {
    Reader(ReaderFault),
    Run(RunFault),
    Plant(PlantFault),
    Report(ReportFault),
}

#[derive(Clone, Copy, PartialEq, Eq, Debug)]
pub enum Layer {
    Reader,
    Run,
    Plant,
    Report,
}

// By hand, as the next three: each says which case it makes, and a derived `From` says nothing of it.
impl From<ReaderFault> for Fault {
    ghost from_gives = { λ e r. r ≡ Reader e };

    fn from(e: ReaderFault) -> Fault {
        Fault::Reader(e)
    }
}

impl From<RunFault> for Fault {
    ghost from_gives = { λ e r. r ≡ Run e };

    fn from(e: RunFault) -> Fault {
        Fault::Run(e)
    }
}

impl From<PlantFault> for Fault {
    ghost from_gives = { λ e r. r ≡ Plant e };

    fn from(e: PlantFault) -> Fault {
        Fault::Plant(e)
    }
}

impl From<ReportFault> for Fault {
    ghost from_gives = { λ e r. r ≡ Report e };

    fn from(e: ReportFault) -> Fault {
        Fault::Report(e)
    }
}
