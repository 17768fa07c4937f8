// The types that the definition and the code share: sorts of number, records, codes, errors, refusals, outcomes.
#![tactic(auto)]

ghost use Rattle.std.specs.Prelude.{◌≡◌};
ghost use Rattle.bsmp.specs.Codes.{command_of, operation_of, is_other, no_operation, kind_of, error_code, refusal_number};

// Variables, groups, curves and functions are each numbered from 0 on their own: one type for each sort of number.
#[derive(Clone, Copy)]
pub struct VariableNumber(pub usize);

#[derive(Clone, Copy)]
pub struct GroupNumber(pub usize);

#[derive(Clone, Copy)]
pub struct CurveNumber(pub usize);

#[derive(Clone, Copy)]
pub struct FunctionNumber(pub usize);

// A variable's record as a board lends it: writable 0 or 1, size in bytes, kind by its number. It is the C interface's record; what a kind's
// number means is `Kind::from`.
#[repr(C)]
#[derive(Clone, Copy)]
pub struct Variable {
    pub writable: u8,
    pub size: u8,
    pub kind: u8,
}

// A curve's record: writable 0 or 1, the size of a block, how many blocks.
#[derive(Clone, Copy)]
pub struct Curve {
    pub writable: u32,
    pub size: u32,
    pub blocks: u32,
}

// A function's record: bytes in, bytes out.
#[derive(Clone, Copy)]
pub struct Function {
    pub input: u8,
    pub output: u8,
}

// What a variable's bytes mean.
#[derive(Clone, Copy)]
pub enum Kind {
    Plain,
    Number { signed: bool, big: bool },
    Unknown,
}

impl Kind {
    pub const PLAIN: u8 = 0;

    pub const UNSIGNED_BIG: u8 = 1;

    pub const UNSIGNED_LITTLE: u8 = 2;

    pub const SIGNED_BIG: u8 = 3;

    pub const SIGNED_LITTLE: u8 = 4;
}

impl From<u8> for Kind {
    ghost from_gives = { λ number kind. kind ≡ kind_of number };

    #[tactic(auto, unfolding(crate::specs::Codes::kind_of))]
    fn from(number: u8) -> Kind {
        match number {
            Kind::PLAIN => Kind::Plain,
            Kind::UNSIGNED_BIG => Kind::Number {
                signed: false,
                big: true,
            },
            Kind::UNSIGNED_LITTLE => Kind::Number {
                signed: false,
                big: false,
            },
            Kind::SIGNED_BIG => Kind::Number {
                signed: true,
                big: true,
            },
            Kind::SIGNED_LITTLE => Kind::Number {
                signed: true,
                big: false,
            },
            _ => Kind::Unknown,
        }
    }
}

// What is done to a value byte by byte: the new byte in its place, or what the six operations do with the mask's bits.
#[derive(Clone, Copy)]
pub enum Operation {
    Replace,
    TurnOn,
    TurnOff,
    Invert,
    KeepOnly,
    Other,
}

impl Operation {
    pub const SET: u8 = 0x53;

    pub const OR: u8 = 0x4F;

    pub const CLEAR: u8 = 0x43;

    pub const TOGGLE: u8 = 0x54;

    pub const XOR: u8 = 0x58;

    pub const AND: u8 = 0x41;

    pub fn is_other(self) -> bool
        ensures { result ≡ is_other self }
    {
        matches!(self, Operation::Other)
    }
}

impl From<u8> for Operation {
    ghost from_gives = { λ code operation. operation ≡ operation_of code };

    #[tactic(auto, unfolding(crate::specs::Codes::operation_of))]
    fn from(code: u8) -> Operation {
        match code {
            Operation::SET | Operation::OR => Operation::TurnOn,
            Operation::CLEAR => Operation::TurnOff,
            Operation::TOGGLE | Operation::XOR => Operation::Invert,
            Operation::AND => Operation::KeepOnly,
            _ => Operation::Other,
        }
    }
}

// Whether the code is none of the six.
#[tactic(auto, unfolding(crate::specs::Codes::no_operation))]
pub fn no_operation(code: u8) -> bool
    ensures { result ≡ no_operation code }
{
    Operation::from(code).is_other()
}

#[derive(Clone, Copy)]
pub enum Command {
    Version,
    ListVariables,
    ListGroups,
    ShowGroup,
    ListCurves,
    ReadSum,
    ListFunctions,
    ReadVariable,
    ReadGroup,
    WriteVariable,
    WriteGroup,
    MaskVariable,
    MaskGroup,
    WriteRead,
    MakeGroup,
    RemoveGroups,
    ReadBlock,
    WriteBlock,
    RenewSum,
    RunFunction,
    Unknown,
}

impl Command {
    pub const VERSION: u8 = 0x00;

    pub const LIST_VARIABLES: u8 = 0x02;

    pub const LIST_GROUPS: u8 = 0x04;

    pub const SHOW_GROUP: u8 = 0x06;

    pub const LIST_CURVES: u8 = 0x08;

    pub const READ_SUM: u8 = 0x0A;

    pub const LIST_FUNCTIONS: u8 = 0x0C;

    pub const READ_VARIABLE: u8 = 0x10;

    pub const READ_GROUP: u8 = 0x12;

    pub const WRITE_VARIABLE: u8 = 0x20;

    pub const WRITE_GROUP: u8 = 0x22;

    pub const MASK_VARIABLE: u8 = 0x24;

    pub const MASK_GROUP: u8 = 0x26;

    pub const WRITE_READ: u8 = 0x28;

    pub const MAKE_GROUP: u8 = 0x30;

    pub const REMOVE_GROUPS: u8 = 0x32;

    pub const READ_BLOCK: u8 = 0x40;

    pub const WRITE_BLOCK: u8 = 0x41;

    pub const RENEW_SUM: u8 = 0x42;

    pub const RUN_FUNCTION: u8 = 0x50;
}

impl From<u8> for Command {
    ghost from_gives = { λ code command. command ≡ command_of code };

    #[tactic(auto, unfolding(crate::specs::Codes::command_of))]
    fn from(code: u8) -> Command {
        match code {
            Command::VERSION => Command::Version,
            Command::LIST_VARIABLES => Command::ListVariables,
            Command::LIST_GROUPS => Command::ListGroups,
            Command::SHOW_GROUP => Command::ShowGroup,
            Command::LIST_CURVES => Command::ListCurves,
            Command::READ_SUM => Command::ReadSum,
            Command::LIST_FUNCTIONS => Command::ListFunctions,
            Command::READ_VARIABLE => Command::ReadVariable,
            Command::READ_GROUP => Command::ReadGroup,
            Command::WRITE_VARIABLE => Command::WriteVariable,
            Command::WRITE_GROUP => Command::WriteGroup,
            Command::MASK_VARIABLE => Command::MaskVariable,
            Command::MASK_GROUP => Command::MaskGroup,
            Command::WRITE_READ => Command::WriteRead,
            Command::MAKE_GROUP => Command::MakeGroup,
            Command::REMOVE_GROUPS => Command::RemoveGroups,
            Command::READ_BLOCK => Command::ReadBlock,
            Command::WRITE_BLOCK => Command::WriteBlock,
            Command::RENEW_SUM => Command::RenewSum,
            Command::RUN_FUNCTION => Command::RunFunction,
            _ => Command::Unknown,
        }
    }
}

// The wire errors, each with 01's code, E1 to E8 in this order.
#[derive(Clone, Copy)]
pub enum WireError {
    Malformed = 0xE1,
    Unsupported = 0xE2,
    BadId = 0xE3,
    BadValue = 0xE4,
    BadSize = 0xE5,
    ReadOnly = 0xE6,
    Full = 0xE7,
    Busy = 0xE8,
}

impl From<WireError> for u8 {
    ghost from_gives = { λ error code. code ≡ error_code error };

    fn from(error: WireError) -> u8 {
        error as u8
    }
}

// The local refusals, each with its number: 01's 1 to 12, and 02's 13 and 14, in this order.
#[derive(Clone, Copy)]
pub enum Refusal {
    BoardUnusable = 1,
    BadAddress = 2,
    ReplyBufferShort = 3,
    PacketLength = 4,
    Checksum = 5,
    NotForThisBoard = 6,
    NoSuchFunction = 7,
    OutputLength = 8,
    NoSuchVariable = 9,
    WrongByteCount = 10,
    WrongKind = 11,
    DoesNotFit = 12,
    ReplyUnfit = 13,
    RequestUnwritable = 14,
}

impl From<Refusal> for u8 {
    ghost from_gives = { λ refusal number. number ≡ refusal_number refusal };

    fn from(refusal: Refusal) -> u8 {
        refusal as u8
    }
}

// How a call ends: a reply of n bytes, silence, a function to be run, or a local refusal. A reply's bytes stand in the reply
// buffer; a function's input, of the length given, stands at place 5 of the packet. No Result stands here: the four endings are
// 01's, which may not change, and the C face gives each its number.
#[derive(Clone, Copy)]
pub enum Outcome {
    Reply(usize),
    Silence,
    Run {
        function: FunctionNumber,
        input: usize,
        due: bool,
    },
    Refused(Refusal),
}
