// The parts of a payload: none at all, numbers of one byte, each of its sort, and the two-byte field.
#![tactic(auto)]

ghost use Rattle.std.specs.Prelude.{◌≡◌, ◌+◌, ◌*◌, ◌<◌, length};
ghost use Rattle.bsmp.specs.Base.{first};
ghost use Rattle.bsmp.specs.Message.{no_payload, variable_at, group_id_at, curve_at, function_at};
ghost use Rattle.bsmp.specs.Codes.{Pass, Fail};

use bsmp::{CurveNumber, FunctionNumber, GroupNumber, VariableNumber, WireError};

// The test of a request without payload.
#[tactic(auto, unfolding(bsmp::specs::Base::first))]
pub fn check_empty(payload: &[u8]) -> Result<(), WireError>
    ensures { result ≡ first (no_payload payload.now) Fail Pass }
{
    if !payload.is_empty() {
        return Err(WireError::BadSize);
    }
    Ok(())
}

// A number of each sort at a place. One function would need a trait and an impl for each sort, as long as the four that it saves.
pub fn variable_at(payload: &[u8], i: usize) -> VariableNumber
    requires { i < length payload.now }
    ensures { result ≡ variable_at payload.now i }
{
    VariableNumber(usize::from(payload[i]))
}

pub fn group_at(payload: &[u8], i: usize) -> GroupNumber
    requires { i < length payload.now }
    ensures { result ≡ group_id_at payload.now i }
{
    GroupNumber(usize::from(payload[i]))
}

pub fn curve_at(payload: &[u8], i: usize) -> CurveNumber
    requires { i < length payload.now }
    ensures { result ≡ curve_at payload.now i }
{
    CurveNumber(usize::from(payload[i]))
}

pub fn function_at(payload: &[u8], i: usize) -> FunctionNumber
    requires { i < length payload.now }
    ensures { result ≡ function_at payload.now i }
{
    FunctionNumber(usize::from(payload[i]))
}

// A two-byte field, most significant first.
pub fn word(high: u8, low: u8) -> usize
    ensures { (result ≡ high * 256 + low) × (result < 65536) }
{
    usize::from(u16::from_be_bytes([high, low]))
}
