// The number, the place and the layer of a fault.
ghost use Rattle.std.specs.Prelude.{◌≡◌};
ghost use Rattle.faults.specs.Faults.{number_of, place_of, layer_of, cause_number, run_number, run_place, flaw_place, plant_number, plant_place};

use crate::fault::{Cause, Fault, Layer, PlantFault, ReportFault, RunFault};
use crate::verdict::Flaw;

impl Cause {
    fn number(self) -> u8
        ensures { result ≡ cause_number self }
    {
        self as u8
    }
}

impl Flaw {
    // The step of a circle, the need of any other flaw.
    pub fn place(self) -> u16
        ensures { result ≡ flaw_place self }
    {
        match self {
            Flaw::Circle { step } => u16::from(step),
            Flaw::OpenNeed { need } | Flaw::Unsupported { need, .. } | Flaw::Threat { need, .. } =>
                u16::from(need),
        }
    }
}

impl RunFault {
    fn number(self) -> u8
        ensures { result ≡ run_number self }
    {
        match self {
            RunFault::DoesNotPass { .. } => 20,
            RunFault::TooFewSignals { .. } => 21,
            RunFault::EffectAboveTop { .. } => 22,
            RunFault::NotAtStart { .. } => 23,
            RunFault::StepsInHand { .. } => 24,
            RunFault::NeverOpened => 30,
            RunFault::NoSuchStep { .. } => 31,
            RunFault::StepDone { .. } => 32,
            RunFault::StepInHand { .. } => 33,
            RunFault::EarlierNotDone { .. } => 34,
            RunFault::OtherRun { .. } => 35,
            RunFault::NotInHand { .. } => 36,
        }
    }

    fn place(self) -> u16
        ensures { result ≡ run_place self }
    {
        match self {
            RunFault::DoesNotPass { flaw } => flaw.place(),
            RunFault::TooFewSignals { count } => count,
            RunFault::EffectAboveTop { effect } => effect,
            RunFault::NotAtStart { signal } => signal,
            RunFault::NeverOpened => 0,
            RunFault::StepsInHand { step }
            | RunFault::NoSuchStep { step }
            | RunFault::StepDone { step }
            | RunFault::StepInHand { step }
            | RunFault::EarlierNotDone { step }
            | RunFault::NotInHand { step } => step,
            RunFault::OtherRun { run } => run,
        }
    }
}

impl PlantFault {
    fn number(self) -> u8
        ensures { result ≡ plant_number self }
    {
        match self {
            PlantFault::NoSignal { .. } => 40,
            PlantFault::AboveTop { .. } => 41,
        }
    }

    fn place(self) -> u16
        ensures { result ≡ plant_place self }
    {
        match self {
            PlantFault::NoSignal { signal } | PlantFault::AboveTop { signal } => signal,
        }
    }
}

impl Fault {
    pub fn number(self) -> u8
        ensures { result ≡ number_of self }
    {
        match self {
            Fault::Reader(fault) => fault.cause.number(),
            Fault::Run(fault) => fault.number(),
            Fault::Plant(fault) => fault.number(),
            Fault::Report(ReportFault::BufferTooShort { .. }) => 50,
        }
    }

    pub fn place(self) -> u16
        ensures { result ≡ place_of self }
    {
        match self {
            Fault::Reader(fault) => fault.place,
            Fault::Run(fault) => fault.place(),
            Fault::Plant(fault) => fault.place(),
            Fault::Report(ReportFault::BufferTooShort { length }) => length,
        }
    }

    pub fn layer(self) -> Layer
        ensures { result ≡ layer_of self }
    {
        match self {
            Fault::Reader(_) => Layer::Reader,
            Fault::Run(_) => Layer::Run,
            Fault::Plant(_) => Layer::Plant,
            Fault::Report(_) => Layer::Report,
        }
    }
}
