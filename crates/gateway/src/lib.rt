// The asking side in plain numbers: a request by its code and the numbers that it names, what is written and heard by kinds and places.
#![tactic(auto)]

ghost use Rattle.std.specs.Prelude.{◌≡◌};
ghost use Rattle.learned.specs.Table.{held_table};
ghost use Rattle.gateway.specs.Plain.{named_of, unnamed, plain_asked_of, plain_asked_left, ask_of, unheard, said_by, shown_by, plain_heard_of, plain_heard_left, hear_of};

use asking::{Masking, Request, Told};
use bsmp::{Command, CurveNumber, FunctionNumber, GroupNumber, Refusal, VariableNumber};
use learned::LearnedTable;

// How writing a request ended: refusal 0 and its length, or 01's or 02's number of the refusal and 0. It is the C interface's struct, as the next is.
#[repr(C)]
#[derive(Clone, Copy)]
pub struct PlainAsked {
    pub refusal: u8,
    pub length: usize,
}

// What a reply says, by its kind: 0 a local refusal, by its number; 1 an error, by its code; 2 that it is done; 3 the version; 4 to 8
// the lists 03, 05, 07, 09 and 0D, `length` records of them; 9 values, 10 a block, 11 a sum, 12 a function's output, `length` bytes of them;
// 13 a function's error byte. They stand in the reply from `place` on. What a kind has no use for is 0.
#[repr(C)]
#[derive(Clone, Copy)]
pub struct PlainHeard {
    pub kind: u8,
    pub refusal: u8,
    pub error: u8,
    pub place: usize,
    pub length: usize,
}

// The request of this code and these numbers, if it is one of 01's table.
#[tactic(auto, unfolding(crate::specs::Plain::named_of))]
pub fn request_of(
    code: u8,
    operation: u8,
    number: usize,
    other: usize,
    block: usize,
) -> Option<Request>
    ensures { result ≡ named_of code operation number other block }
{
    let variable = VariableNumber(number);
    let group = GroupNumber(number);
    let curve = CurveNumber(number);
    match code {
        Command::VERSION => Some(Request::Version),
        Command::LIST_VARIABLES => Some(Request::ListVariables),
        Command::LIST_GROUPS => Some(Request::ListGroups),
        Command::SHOW_GROUP => Some(Request::ShowGroup(group)),
        Command::LIST_CURVES => Some(Request::ListCurves),
        Command::READ_SUM => Some(Request::ReadSum(curve)),
        Command::LIST_FUNCTIONS => Some(Request::ListFunctions),
        Command::READ_VARIABLE => Some(Request::ReadVariable(variable)),
        Command::READ_GROUP => Some(Request::ReadGroup(group)),
        Command::WRITE_VARIABLE => Some(Request::WriteVariable(variable)),
        Command::WRITE_GROUP => Some(Request::WriteGroup(group)),
        Command::MASK_VARIABLE => {
            Masking::of(operation).map(|o| Request::MaskVariable(variable, o))
        }
        Command::MASK_GROUP => Masking::of(operation).map(|o| Request::MaskGroup(group, o)),
        Command::WRITE_READ => Some(Request::WriteRead {
            written: variable,
            read: VariableNumber(other),
        }),
        Command::MAKE_GROUP => Some(Request::MakeGroup),
        Command::REMOVE_GROUPS => Some(Request::RemoveGroups),
        Command::READ_BLOCK => Some(Request::ReadBlock { curve, block }),
        Command::WRITE_BLOCK => Some(Request::WriteBlock { curve, block }),
        Command::RENEW_SUM => Some(Request::RenewSum(curve)),
        Command::RUN_FUNCTION => Some(Request::RunFunction(FunctionNumber(number))),
        _ => None,
    }
}

// What can't be named can't be written, after refusals 2 and 3.
#[tactic(auto, unfolding(crate::specs::Plain::unnamed, bsmp::specs::Base::first))]
fn unwritable(destination: u8, room: usize) -> Refusal
    ensures { result ≡ unnamed destination room }
{
    if !asking::is_address(destination) {
        return Refusal::BadAddress;
    }
    if room < 4104 {
        return Refusal::ReplyBufferShort;
    }
    Refusal::RequestUnwritable
}

impl From<Result<usize, Refusal>> for PlainAsked {
    ghost from_gives = { λ r plain. plain ≡ plain_asked_of r };

    fn from(asked: Result<usize, Refusal>) -> PlainAsked {
        match asked {
            Ok(length) => PlainAsked { refusal: 0, length },
            Err(refusal) => PlainAsked {
                refusal: u8::from(refusal),
                length: 0,
            },
        }
    }
}

// A request, if it could be named, written into the packet.
pub fn ask(destination: u8, request: Option<Request>, bytes: &[u8], packet: &mut [u8]) -> PlainAsked
    ensures { plain_asked_left result packet.new ≡ ask_of destination request bytes.now packet.old }
{
    match request {
        Some(request) => PlainAsked::from(requests::ask(destination, request, bytes, packet)),
        None => PlainAsked::from(Err(unwritable(destination, packet.len()))),
    }
}

fn said(kind: u8, error: u8) -> PlainHeard
    ensures { result ≡ said_by kind error }
{
    PlainHeard {
        kind,
        refusal: 0,
        error,
        place: 0,
        length: 0,
    }
}

fn shown(kind: u8, place: usize, length: usize) -> PlainHeard
    ensures { result ≡ shown_by kind place length }
{
    PlainHeard {
        kind,
        refusal: 0,
        error: 0,
        place,
        length,
    }
}

impl From<Result<Told, Refusal>> for PlainHeard {
    ghost from_gives = { λ r plain. plain ≡ plain_heard_of r };

    fn from(told: Result<Told, Refusal>) -> PlainHeard {
        match told {
            Ok(Told::Error(error)) => said(1, u8::from(error)),
            Ok(Told::Done) => said(2, 0),
            Ok(Told::Version) => shown(3, 4, 3),
            Ok(Told::Variables(n)) => shown(4, 4, n),
            Ok(Told::Groups(n)) => shown(5, 4, n),
            Ok(Told::Members(n)) => shown(6, 4, n),
            Ok(Told::Curves(n)) => shown(7, 4, n),
            Ok(Told::Functions(n)) => shown(8, 4, n),
            Ok(Told::Values(n)) => shown(9, 4, n),
            Ok(Told::Block(n)) => shown(10, 7, n),
            Ok(Told::Sum) => shown(11, 4, 16),
            Ok(Told::Output(n)) => shown(12, 4, n),
            Ok(Told::Failed(error)) => said(13, error),
            Err(refusal) => PlainHeard {
                kind: 0,
                refusal: u8::from(refusal),
                error: 0,
                place: 0,
                length: 0,
            },
        }
    }
}

// A reply to what can't be named fits nothing.
fn unfitting(destination: u8, reply: &[u8]) -> Refusal
    ensures { result ≡ unheard destination reply.now }
{
    match replies::open(destination, reply) {
        Ok(()) => Refusal::ReplyUnfit,
        Err(refusal) => refusal,
    }
}

// A reply to a request, if it could be named, heard, and the table after it.
pub fn hear(
    table: &mut LearnedTable,
    destination: u8,
    request: Option<Request>,
    bytes: &[u8],
    reply: &[u8],
) -> PlainHeard
    ensures { plain_heard_left result (held_table table.new) ≡ hear_of (held_table table.old) destination request bytes.now reply.now }
{
    match request {
        Some(request) => PlainHeard::from(learning::hear(
            table,
            destination,
            request,
            bytes,
            reply,
        )),
        None => PlainHeard::from(Err(unfitting(destination, reply))),
    }
}
