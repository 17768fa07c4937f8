// The asking side (02, 2026-04): the types that its definition (specs/) and its code share. Its laws stand in proofs/.
#![tactic(auto)]

ghost use Rattle.std.specs.Prelude.{◌≡◌};
ghost use Rattle.asking.specs.Request.{mask_code, mask_of, is_address};

use bsmp::{CurveNumber, FunctionNumber, GroupNumber, Operation, VariableNumber, WireError};

// The six operations of a mask, each a request of its own, though two pairs of them do the same.
#[derive(Clone, Copy)]
pub enum Masking {
    Set,
    Or,
    Clear,
    Toggle,
    Xor,
    And,
}

impl From<Masking> for u8 {
    ghost from_gives = { λ m code. code ≡ mask_code m };

    fn from(masking: Masking) -> u8 {
        match masking {
            Masking::Set => Operation::SET,
            Masking::Or => Operation::OR,
            Masking::Clear => Operation::CLEAR,
            Masking::Toggle => Operation::TOGGLE,
            Masking::Xor => Operation::XOR,
            Masking::And => Operation::AND,
        }
    }
}

impl Masking {
    // The operation of this code, if it is one of the six. An Option and no TryFrom: of another code there is no more to say.
    #[tactic(auto, unfolding(crate::specs::Request::mask_of))]
    pub fn of(code: u8) -> Option<Masking>
        ensures { result ≡ mask_of code }
    {
        match code {
            Operation::SET => Some(Masking::Set),
            Operation::OR => Some(Masking::Or),
            Operation::CLEAR => Some(Masking::Clear),
            Operation::TOGGLE => Some(Masking::Toggle),
            Operation::XOR => Some(Masking::Xor),
            Operation::AND => Some(Masking::And),
            _ => None,
        }
    }
}

// What is asked for: the requests of 01's table, each number of its own sort. The bytes that go with some of them (the value or mask, the
// IDs of a new group, a block's bytes, a function's input) are handed in beside it.
#[derive(Clone, Copy)]
pub enum Request {
    Version,
    ListVariables,
    ListGroups,
    ShowGroup(GroupNumber),
    ListCurves,
    ReadSum(CurveNumber),
    ListFunctions,
    ReadVariable(VariableNumber),
    ReadGroup(GroupNumber),
    WriteVariable(VariableNumber),
    WriteGroup(GroupNumber),
    MaskVariable(VariableNumber, Masking),
    MaskGroup(GroupNumber, Masking),
    WriteRead {
        written: VariableNumber,
        read: VariableNumber,
    },
    MakeGroup,
    RemoveGroups,
    ReadBlock {
        curve: CurveNumber,
        block: usize,
    },
    WriteBlock {
        curve: CurveNumber,
        block: usize,
    },
    RenewSum(CurveNumber),
    RunFunction(FunctionNumber),
}

// Whether a request may go there: to a node, or to many.
#[tactic(auto, unfolding(crate::specs::Request::is_address))]
pub fn is_address(destination: u8) -> bool
    ensures { result ≡ is_address destination }
{
    matches!(destination, 1..=31 | 248..)
}

// What a reply says, by places in it: an error; that it is done; 02 14 00; so many records of a list, members of a group, or bytes of values
// or of a function's output, from place 4 on; so many bytes of a block, from place 7 on; the 16 bytes of a sum, from place 4 on; a function's
// error byte. Error and Failed are things that a reply says; what can't be read is no value of this type.
#[derive(Clone, Copy)]
pub enum Told {
    Error(WireError),
    Done,
    Version,
    Variables(usize),
    Groups(usize),
    Members(usize),
    Curves(usize),
    Functions(usize),
    Values(usize),
    Block(usize),
    Sum,
    Output(usize),
    Failed(u8),
}
