// Readings: a variable's bytes as a number, and a number as a variable's bytes, for every input.
#![tactic(auto)]

ghost use Rattle.std.specs.Prelude.{◌≡◌, length};
ghost use Rattle.bsmp.specs.Number.{wrong_kind, is_big, reading, writing};
ghost use Rattle.records.specs.Lending.{records_of};
ghost use Rattle.readings.specs.Answers.{judged_of, reading_of, writing_left, writing_left_of};

use bsmp::{Kind, Refusal, VariableNumber};
use numbers::Number;
use records::Records;

// Whether the number that is asked for, signed or unsigned, is not of the kind.
fn wrong_kind(signed: bool, kind: Kind) -> bool
    ensures { result ≡ wrong_kind signed kind }
{
    match kind {
        Kind::Number { signed: own, .. } => signed != own,
        Kind::Plain | Kind::Unknown => true,
    }
}

fn is_big(kind: Kind) -> bool
    ensures { result ≡ is_big kind }
{
    match kind {
        Kind::Number { big, .. } => big,
        Kind::Plain | Kind::Unknown => false,
    }
}

// Refusals 1, 9, 11 and 10, in this order: the tests that all readings have, once for both sorts of number, so `signed` is a value. A variable that passes them holds such a number, big endian or not.
#[tactic(auto, using(crate::proofs::Tests::judge_unusable, crate::proofs::Tests::judge_unknown, crate::proofs::Tests::judge_kind, crate::proofs::Tests::judge_count, crate::proofs::Tests::judge_good))]
fn judge(
    records: &Records,
    variable: VariableNumber,
    signed: bool,
    bytes: usize,
) -> Result<bool, Refusal>
    ensures { result ≡ judged_of (records_of records.now) variable signed bytes }
{
    if rules::usable_records(records).is_none() {
        return Err(Refusal::BoardUnusable);
    }
    let at = variable.0;
    if records.count <= at {
        return Err(Refusal::NoSuchVariable);
    }
    let v = records.at(at);
    let kind = Kind::from(v.kind);
    if wrong_kind(signed, kind) {
        return Err(Refusal::WrongKind);
    }
    if bytes != v.size as usize {
        return Err(Refusal::WrongByteCount);
    }
    Ok(is_big(kind))
}

// Bytes to number, signed or unsigned: its refusals are those of `judge`.
pub fn read<N: Number>(
    records: &Records,
    variable: VariableNumber,
    bytes: &[u8],
) -> Result<N, Refusal>
    ensures { reading_of N.meaning result ≡ reading (records_of records.now) variable N.SIGNED bytes.now }
{
    let big = judge(records, variable, N::SIGNED, bytes.len())?;
    let number = numbers::read(bytes, big);
    Ok(number)
}

// Number to bytes, signed or unsigned: `judge`'s refusals, then 12. A refusal leaves the buffer as it was.
pub fn write<N: Number>(
    records: &Records,
    variable: VariableNumber,
    number: N,
    buffer: &mut [u8],
) -> Result<(), Refusal>
    ensures { let was = buffer.old in
        writing_left result buffer.new ≡ writing_left_of (writing (records_of records.now) variable N.SIGNED (N.meaning number) (length was)) was }
{
    let big = judge(records, variable, N::SIGNED, buffer.len())?;
    if !number.fits(buffer.len()) {
        return Err(Refusal::DoesNotFit);
    }
    numbers::write(number, big, buffer);
    Ok(())
}
