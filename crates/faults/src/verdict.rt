// What the judge says of a sheet.

// Why a sheet does not pass. A step or a need goes by its number.
#[derive(Clone, Copy, PartialEq, Eq, Debug)]
pub enum Flaw {
    // a step is before itself
    Circle { step: u8 },
    // a need has no link
    OpenNeed { need: u8 },
    // a contributor does not give the need, or is not before the step that has it
    Unsupported { need: u8, step: u8 },
    // a step breaks the need, and nothing keeps it out of the way
    Threat { need: u8, step: u8 },
}

// A sheet passes, or has a flaw.
pub type Verdict = Result<(), Flaw>;
