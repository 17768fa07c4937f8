// A reply read as what it says: its refusal, the error, or the answer to the request, told by places in the reply.
#![tactic(auto)]

ghost use Rattle.std.specs.Prelude.{◌≡◌};
ghost use Rattle.asking.specs.Reply.{wanted, error_reply, error_of, told_of, hearing};
ghost use Rattle.learned.specs.Table.{known_table, held_table};
ghost use Rattle.learned.specs.Answered.{answered};
ghost use Rattle.replies.specs.Reading.{sized_request, opened_of, heard_by};

use asking::{Request, Told};
use bsmp::{Refusal, WireError};
use learned::{Known, LearnedTable};

// Whether what is told of the answer depends on the learned table.
#[tactic(auto, unfolding(asking::specs::Reply::wanted))]
fn is_sized(request: Request) -> bool
    ensures { result ≡ sized_request request }
{
    matches!(
        request,
        Request::ReadSum(_)
            | Request::ReadVariable(_)
            | Request::ReadGroup(_)
            | Request::WriteRead { .. }
            | Request::ReadBlock { .. }
            | Request::RunFunction(_)
    )
}

// Refusals 2, 4 and 5, and 13 as far as it is not about the answer. Of any other reply SIZE is right, and its payload stands from place 4 up
// to the last byte.
pub fn open(destination: u8, reply: &[u8]) -> Result<(), Refusal>
    ensures { result ≡ opened_of destination reply.now }
{
    if !asking::is_address(destination) {
        return Err(Refusal::BadAddress);
    }
    let n = reply.len();
    if n < 2 || 4104 < n {
        return Err(Refusal::PacketLength);
    }
    if lists::byte_sum(reply) != 0 {
        return Err(Refusal::Checksum);
    }
    if 248 <= destination || reply[0] != 0 || n < 5 || parts::word(reply[2], reply[3]) != n - 5 {
        return Err(Refusal::ReplyUnfit);
    }
    Ok(())
}

// Whether a reply is an error: E1 to E8 with no payload.
fn is_error(code: u8, payload: &[u8]) -> bool
    ensures { result ≡ error_reply code payload.now }
{
    0xE1 <= code && code <= 0xE8 && payload.is_empty()
}

// The error of a code from E1 to E8. No TryFrom stands here: what makes an error of a code is the reply that it closes.
#[tactic(auto, unfolding(asking::specs::Reply::error_of))]
fn error_of(code: u8) -> WireError
    ensures { result ≡ error_of code }
{
    match code {
        0xE1 => WireError::Malformed,
        0xE2 => WireError::Unsupported,
        0xE3 => WireError::BadId,
        0xE4 => WireError::BadValue,
        0xE5 => WireError::BadSize,
        0xE6 => WireError::ReadOnly,
        0xE7 => WireError::Full,
        _ => WireError::Busy,
    }
}

// The answer to a request, by what 01 gives to it.
#[tactic(auto, unfolding(asking::specs::Reply::wanted, asking::specs::Reply::answers, asking::specs::Reply::tells, bsmp::specs::Board::members))]
fn answer(known: &Known, request: Request, code: u8, payload: &[u8]) -> Result<Told, Refusal>
    ensures { let x = known_table known.now in result ≡ told_of (answered x (wanted x request) code payload.now) }
{
    match request {
        Request::Version => heard::version(code, payload),
        Request::ListVariables => listed::variables(code, payload),
        Request::ListGroups => listed::groups(code, payload),
        Request::ShowGroup(g) => listed::members(g, code, payload),
        Request::ListCurves => listed::curves(code, payload),
        Request::ReadSum(c) => heard::sum_told(known.shapes, c, code, payload),
        Request::ListFunctions => listed::functions(code, payload),
        Request::ReadVariable(i) | Request::WriteRead { read: i, .. } => {
            heard::variable_told(known.sizes, i, code, payload)
        }
        Request::ReadGroup(g) => heard::group_told(known, g, code, payload),
        Request::ReadBlock { curve, block } => heard::block_told(
            known.shapes,
            curve,
            block,
            code,
            payload,
        ),
        Request::RunFunction(f) => heard::output_told(known.calls, f, code, payload),
        Request::WriteVariable(_)
        | Request::WriteGroup(_)
        | Request::MaskVariable(_, _)
        | Request::MaskGroup(_, _)
        | Request::MakeGroup
        | Request::RemoveGroups
        | Request::WriteBlock { .. }
        | Request::RenewSum(_) => heard::done(code, payload),
    }
}

// A reply, by what is known: an error, or the answer.
fn read_by(known: &Known, destination: u8, request: Request, reply: &[u8]) -> Result<Told, Refusal>
    ensures { let x = known_table known.now in result ≡ told_of (heard_by x (wanted x request) destination reply.now) }
{
    open(destination, reply)?;
    let code = reply[1];
    let payload = &reply[4..reply.len() - 1];
    if is_error(code, payload) {
        return Ok(Told::Error(error_of(code)));
    }
    answer(known, request, code, payload)
}

// A reply to a request that went to this destination. Where the table doesn't count, none is looked at.
pub fn read(
    table: &LearnedTable,
    destination: u8,
    request: Request,
    reply: &[u8],
) -> Result<Told, Refusal>
    ensures { result ≡ told_of (hearing (held_table table.now) destination request reply.now) }
{
    if !is_sized(request) {
        return read_by(&Known::NOTHING, destination, request, reply);
    }
    let known = table.known().ok_or(Refusal::BoardUnusable)?;
    read_by(&known, destination, request, reply)
}
