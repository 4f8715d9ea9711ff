// Numbers, places and layers of the faults.
use crate::fault::{Cause, Fault, Layer, PlantFault, ReaderFault, ReportFault, RunFault};
use crate::verdict::Flaw;

const FAULTS: [(Fault, u8, u16, Layer); 28] = [
    (
        Fault::Reader(ReaderFault {
            cause: Cause::CutShort,
            place: 40,
        }),
        1,
        40,
        Layer::Reader,
    ),
    (
        Fault::Reader(ReaderFault {
            cause: Cause::Mark,
            place: 41,
        }),
        2,
        41,
        Layer::Reader,
    ),
    (
        Fault::Reader(ReaderFault {
            cause: Cause::OffLimits,
            place: 42,
        }),
        3,
        42,
        Layer::Reader,
    ),
    (
        Fault::Reader(ReaderFault {
            cause: Cause::NoSuch,
            place: 43,
        }),
        4,
        43,
        Layer::Reader,
    ),
    (
        Fault::Reader(ReaderFault {
            cause: Cause::WrongStep,
            place: 44,
        }),
        5,
        44,
        Layer::Reader,
    ),
    (
        Fault::Reader(ReaderFault {
            cause: Cause::Repeated,
            place: 45,
        }),
        6,
        45,
        Layer::Reader,
    ),
    (
        Fault::Reader(ReaderFault {
            cause: Cause::LinkedTwice,
            place: 46,
        }),
        7,
        46,
        Layer::Reader,
    ),
    (
        Fault::Reader(ReaderFault {
            cause: Cause::TooMany,
            place: 47,
        }),
        8,
        47,
        Layer::Reader,
    ),
    (
        Fault::Reader(ReaderFault {
            cause: Cause::AfterEnd,
            place: 48,
        }),
        9,
        48,
        Layer::Reader,
    ),
    (
        Fault::Run(RunFault::DoesNotPass {
            flaw: Flaw::Circle { step: 3 },
        }),
        20,
        3,
        Layer::Run,
    ),
    (
        Fault::Run(RunFault::DoesNotPass {
            flaw: Flaw::OpenNeed { need: 4 },
        }),
        20,
        4,
        Layer::Run,
    ),
    (
        Fault::Run(RunFault::DoesNotPass {
            flaw: Flaw::Unsupported { need: 5, step: 6 },
        }),
        20,
        5,
        Layer::Run,
    ),
    (
        Fault::Run(RunFault::DoesNotPass {
            flaw: Flaw::Threat { need: 7, step: 8 },
        }),
        20,
        7,
        Layer::Run,
    ),
    (
        Fault::Run(RunFault::TooFewSignals { count: 9 }),
        21,
        9,
        Layer::Run,
    ),
    (
        Fault::Run(RunFault::EffectAboveTop { effect: 10 }),
        22,
        10,
        Layer::Run,
    ),
    (
        Fault::Run(RunFault::NotAtStart { signal: 11 }),
        23,
        11,
        Layer::Run,
    ),
    (
        Fault::Run(RunFault::StepsInHand { step: 12 }),
        24,
        12,
        Layer::Run,
    ),
    (Fault::Run(RunFault::NeverOpened), 30, 0, Layer::Run),
    (
        Fault::Run(RunFault::NoSuchStep { step: 65535 }),
        31,
        65535,
        Layer::Run,
    ),
    (
        Fault::Run(RunFault::StepDone { step: 13 }),
        32,
        13,
        Layer::Run,
    ),
    (
        Fault::Run(RunFault::StepInHand { step: 14 }),
        33,
        14,
        Layer::Run,
    ),
    (
        Fault::Run(RunFault::EarlierNotDone { step: 15 }),
        34,
        15,
        Layer::Run,
    ),
    (
        Fault::Run(RunFault::OtherRun { run: 16 }),
        35,
        16,
        Layer::Run,
    ),
    (
        Fault::Run(RunFault::NotInHand { step: 17 }),
        36,
        17,
        Layer::Run,
    ),
    (
        Fault::Plant(PlantFault::NoSignal { signal: 18 }),
        40,
        18,
        Layer::Plant,
    ),
    (
        Fault::Plant(PlantFault::AboveTop { signal: 19 }),
        41,
        19,
        Layer::Plant,
    ),
    (
        Fault::Report(ReportFault::BufferTooShort { length: 5 }),
        50,
        5,
        Layer::Report,
    ),
    (
        Fault::Report(ReportFault::BufferTooShort { length: 33 }),
        50,
        33,
        Layer::Report,
    ),
];

#[test]
fn faults(rt: HostRuntime) {
    for (fault, number, place, layer) in FAULTS {
        assert_eq!(rt;
            (fault.number(), fault.place(), fault.layer()),
            (number, place, layer)
        );
    }
}
