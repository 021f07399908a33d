// The types that every crate shares. specs/ has the rules, stated over these types.

#![tactic(auto)]

ghost use Rattle.std.specs.Prelude.{◌≡◌, ◌-◌, ◌≤◌};
ghost use Rattle.rules.specs.Answer.{lengthened};

// An object's record. Only `length`, the logical length, ever changes.
#[derive(Clone, Copy)]
pub struct Record {
    pub partition: u64,
    pub object: u64,
    pub length: u64,
    pub maximum: u64,
    pub tag: u32,
    pub epoch: u16,
}

impl Record {
    // After WRITE and CLEAR: the record with the logical length that they leave.
    pub fn with_length(self, logical: u64) -> Record
        ensures { result ≡ lengthened self logical }
    {
        Record {
            length: logical,
            ..self
        }
    }

    // After PUNCH: the record of an object that has lost `count` bytes.
    pub fn shortened(self, count: u64) -> Record
        requires { count ≤ self.length }
        ensures { result ≡ lengthened self (self.length - count) }
    {
        self.with_length(self.length - count)
    }
}

// Positions of the object: `size` of them from `start` on.
#[derive(Clone, Copy, Default)]
pub struct Range {
    pub start: u64,
    pub size: u64,
}

// The four commands, and their service actions.
#[derive(Clone, Copy, PartialEq, Eq)]
pub enum Verb {
    Read,
    Write,
    Clear,
    Punch,
}

pub const READ: u64 = 0x8885;

pub const WRITE: u64 = 0x8886;

pub const CLEAR: u64 = 0x8889;

pub const PUNCH: u64 = 0x8884;

impl TryFrom<u64> for Verb {
    ghost use Rattle.rules.specs.Command.{IsReadVerb};

    type Error = Refusal;

    ghost try_from_gives = { IsReadVerb };

    #[tactic(auto, unfolding(crate::specs::Command::read_verb, crate::specs::Command::verb_of, crate::specs::Tests::first_of))]
    fn try_from(action: u64) -> Result<Verb, Refusal> {
        match action {
            READ => Ok(Verb::Read),
            WRITE => Ok(Verb::Write),
            CLEAR => Ok(Verb::Clear),
            PUNCH => Ok(Verb::Punch),
            _ => Err(Refusal::ActionUnknown),
        }
    }
}

// Rows 1 to 14 of the table of numbers, each with its number.
#[derive(Clone, Copy)]
pub enum Refusal {
    ObjectUnfit = 1,
    CdbMalformed = 2,
    ActionUnknown = 3,
    OtherObject = 4,
    ContinuationLength = 5,
    SegmentHeader = 6,
    Descriptor = 7,
    ListForbidden = 8,
    ListWithStart = 9,
    ListFault = 10,
    NotAdmitted = 11,
    StartsBeyond = 12,
    BufferShort = 13,
    NoRoom = 14,
}

// How a command ended. `Ended` is a READ that met the logical length before it had all its bytes.
#[derive(Clone, Copy)]
pub enum Outcome {
    Done,
    Ended,
    Refused(Refusal),
}

// What the caller is told beside its bytes.
#[derive(Clone, Copy)]
pub struct Answer {
    pub outcome: Outcome,
    pub count: u64,
    pub next: Record,
}

// Why a descriptor, or what remains behind the last one, is refused, in the order tested.
#[derive(Clone, Copy)]
pub enum Cause {
    Unknown,
    Over,
    Padding,
    Misfit,
    Past,
    Repeated,
    Remainder,
}

// A stretch of the segment: where a descriptor's data stands, and how long it is.
#[derive(Clone, Copy)]
pub struct Part {
    pub at: usize,
    pub size: usize,
}

// What stands at a position of the segment, where nothing is at fault.
#[derive(Clone, Copy)]
pub enum Here {
    End,
    Entries(Part),
    Extensions(Part),
}

// What a walk has met: the list's data and the extension's.
#[derive(Clone, Copy)]
pub struct Found {
    pub list: Option<Part>,
    pub extension: Option<Part>,
}

// The first fault of a segment, and where the header of what is at fault stands.
#[derive(Clone, Copy)]
pub struct Fault {
    pub cause: Cause,
    pub at: usize,
}

// Row 7 refuses a segment with a fault, whichever it is.
impl From<Fault> for Refusal {
    ghost use Rattle.rules.specs.Header.{IsRefused};

    ghost from_gives = { IsRefused };

    fn from(_fault: Fault) -> Refusal {
        Refusal::Descriptor
    }
}
