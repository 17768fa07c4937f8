// The answers that are no lists, each by its code and payload: E0, the version, values, a block, a sum, an output.
#![tactic(auto)]

ghost use Rattle.std.specs.Prelude.{◌≡◌, Ok, Err, not, cond, ◌&&◌, [], ◌∷◌, eqb, length};
ghost use Rattle.bsmp.specs.Board.{members};
ghost use Rattle.bsmp.specs.Message.{no_variable, no_group};
ghost use Rattle.asking.specs.declared.Told.TheVariants as T;
ghost use Rattle.bsmp.specs.declared.Refusal.TheVariants.{ReplyUnfit};
ghost use Rattle.asking.specs.Reply.{done, version, values, block, digest, output, told_of};
ghost use Rattle.asking.specs.Learning.{blank};
ghost use Rattle.learned.specs.Table.{table_in};
ghost use Rattle.learned.specs.Answered.{answered};

use asking::Told;
use bsmp::{CurveNumber, FunctionNumber, GroupNumber, Refusal, VariableNumber};
use learned::Known;

// Each answer with its own code, test and word, as 01's table has them.
// E0.
#[tactic(auto, unfolding(asking::specs::Reply::answers, asking::specs::Reply::tells))]
pub fn done(code: u8, payload: &[u8]) -> Result<Told, Refusal>
    ensures { result ≡ told_of (answered blank done code payload.now) }
{
    match (code, payload) {
        (0xE0, []) => Ok(Told::Done),
        _ => Err(Refusal::ReplyUnfit),
    }
}

// 01: 02 14 00.
#[tactic(auto, unfolding(asking::specs::Reply::answers, asking::specs::Reply::tells), using(crate::proofs::Three::three_count))]
pub fn version(code: u8, payload: &[u8]) -> Result<Told, Refusal>
    ensures { result ≡ told_of (answered blank version code payload.now) }
{
    match (code, payload) {
        (0x01, [2, 20, 0]) => Ok(Told::Version),
        _ => Err(Refusal::ReplyUnfit),
    }
}

// 11 or 13: so many bytes.
fn bytes_told(want: u8, size: usize, code: u8, payload: &[u8]) -> Result<Told, Refusal>
    ensures { result ≡ cond (eqb code want && eqb (length payload.now) size) (Ok (T.Values size)) (Err ReplyUnfit) }
{
    if code != want || payload.len() != size {
        return Err(Refusal::ReplyUnfit);
    }
    Ok(Told::Values(size))
}

// 11 of a variable that the table has.
#[tactic(auto, using(crate::proofs::Values::variable_unknown, crate::proofs::Values::variable_told))]
pub fn variable_told(
    sizes: &[u8],
    i: VariableNumber,
    code: u8,
    payload: &[u8],
) -> Result<Told, Refusal>
    ensures { let x = table_in sizes.now 0 [] [] [] in
        result ≡ told_of (answered x (values (not (no_variable x.layout i)) 0x11 (i ∷ [])) code payload.now) }
{
    match sizes.get(i.0) {
        Some(size) => bytes_told(0x11, usize::from(*size), code, payload),
        None => Err(Refusal::ReplyUnfit),
    }
}

// 13 of a group that the table has.
#[tactic(auto, using(crate::proofs::Values::group_unknown))]
pub fn group_told(known: &Known, g: GroupNumber, code: u8, payload: &[u8]) -> Result<Told, Refusal>
    ensures { let x = table_in known.now.sizes.now known.now.writable known.now.sets.now [] [] in
        result ≡ told_of (answered x (values (not (no_group x.groups g)) 0x13 (members x.layout x.groups g)) code payload.now) }
{
    if 3 + known.sets.len() <= g.0 {
        return Err(Refusal::ReplyUnfit);
    }
    let set = sets::group_set(known.writable, known.sets, g);
    bytes_told(0x13, members::set_bytes(known.sizes, set), code, payload)
}

// 41: the same curve and block, of whose number two bytes are sent, and 1 to the block size of bytes.
#[tactic(auto, unfolding(asking::specs::Reply::answers, asking::specs::Reply::tells))]
pub fn block_told(
    curves: &[u32],
    c: CurveNumber,
    k: usize,
    code: u8,
    payload: &[u8],
) -> Result<Told, Refusal>
    ensures { result ≡ told_of (answered (table_in [] 0 [] curves.now []) (block c k) code payload.now) }
{
    if records::curve_count(curves) <= c.0 || code != 0x41 || payload.len() < 4 {
        return Err(Refusal::ReplyUnfit);
    }
    if usize::from(payload[0]) != c.0 || parts::word(payload[1], payload[2]) != k {
        return Err(Refusal::ReplyUnfit);
    }
    let count = payload.len() - 3;
    if (records::curve_at(curves, c).size as usize) < count {
        return Err(Refusal::ReplyUnfit);
    }
    Ok(Told::Block(count))
}

// 0B: 16 bytes.
#[tactic(auto, unfolding(asking::specs::Reply::answers, asking::specs::Reply::tells))]
pub fn sum_told(curves: &[u32], c: CurveNumber, code: u8, payload: &[u8]) -> Result<Told, Refusal>
    ensures { result ≡ told_of (answered (table_in [] 0 [] curves.now []) (digest c) code payload.now) }
{
    if records::curve_count(curves) <= c.0 || code != 0x0B || payload.len() != 16 {
        return Err(Refusal::ReplyUnfit);
    }
    Ok(Told::Sum)
}

// 51 with the output, or 53 with one byte.
#[tactic(auto, unfolding(asking::specs::Reply::answers, asking::specs::Reply::tells))]
pub fn output_told(
    functions: &[u8],
    f: FunctionNumber,
    code: u8,
    payload: &[u8],
) -> Result<Told, Refusal>
    ensures { result ≡ told_of (answered (table_in [] 0 [] [] functions.now) (output f) code payload.now) }
{
    if records::function_count(functions) <= f.0 {
        return Err(Refusal::ReplyUnfit);
    }
    let size = usize::from(records::function_at(functions, f).output);
    match (code, payload) {
        (0x51, _) if payload.len() == size => Ok(Told::Output(size)),
        (0x53, [error]) => Ok(Told::Failed(*error)),
        _ => Err(Refusal::ReplyUnfit),
    }
}
