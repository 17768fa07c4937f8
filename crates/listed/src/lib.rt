// The answers that are lists: 03, 05, 07, 09 and 0D, each whole records within the limits.
#![tactic(auto)]

ghost use Rattle.std.specs.Prelude.{◌≡◌, ◌&&◌, ◌+◌, ◌*◌, ◌≤◌, ◌<◌, ltb, eqb, length};
ghost use Rattle.bsmp.specs.Base.{up_from, every, ascending, within, byte_at, word_at};
ghost use Rattle.bsmp.specs.Board.{group, usable_curves};
ghost use Rattle.asking.specs.Learned.{slot_of, fits_count, blocks_of, curves_from};
ghost use Rattle.asking.specs.Reply.{variable_list, group_list, member_list, curve_list, function_list, told_of};
ghost use Rattle.asking.specs.Learning.{blank};
ghost use Rattle.learned.specs.Answered.{answered};
ghost use Rattle.listed.specs.Listed.{curve_in};

use asking::Told;
use bsmp::{Curve, GroupNumber, Refusal};

// Five answers of one shape, each with its own code, test and word, as 01's table has them.
// 03: whole records within the limits.
#[tactic(auto, unfolding(asking::specs::Reply::answers, asking::specs::Reply::tells), using(crate::proofs::Fitting::listed))]
pub fn variables(code: u8, payload: &[u8]) -> Result<Told, Refusal>
    ensures { result ≡ told_of (answered blank variable_list code payload.now) }
{
    match code {
        0x03 if learned::usable_sizes(payload, 255) => Ok(Told::Variables(payload.len())),
        _ => Err(Refusal::ReplyUnfit),
    }
}

// Whether a group may have so many members: 1 and 2 may have none.
fn fits_count(g: GroupNumber, n: usize) -> bool
    ensures { result ≡ fits_count g n }
{
    n <= 64 && (0 < n || g.0 == 1 || g.0 == 2)
}

fn fit_counts(payload: &[u8]) -> bool
    ensures { let p = payload.now in
        result ≡ (within 3 8 (length p) && every (λ g. fits_count (group g) (slot_of (byte_at p g)).size) (up_from 0 (length p))) }
{
    if payload.len() < 3 || 8 < payload.len() {
        return false;
    }
    for (g, byte) in payload.iter().enumerate() {
        if !fits_count(GroupNumber(g), usize::from(byte % 128)) {
            return false;
        }
    }
    true
}

// 05: 3 to 8 groups.
#[tactic(auto, unfolding(asking::specs::Reply::answers, asking::specs::Reply::tells), using(crate::proofs::Fitting::listed))]
pub fn groups(code: u8, payload: &[u8]) -> Result<Told, Refusal>
    ensures { result ≡ told_of (answered blank group_list code payload.now) }
{
    match code {
        0x05 if fit_counts(payload) => Ok(Told::Groups(payload.len())),
        _ => Err(Refusal::ReplyUnfit),
    }
}

// Whether these are variables' numbers in order.
fn in_order(payload: &[u8]) -> bool
    ensures { let p = payload.now in result ≡ (ascending p && every (λ i. ltb i 64) p) }
{
    let mut least: u8 = 0;
    for id in payload {
        if 64 <= *id || *id < least {
            return false;
        }
        least = *id + 1;
    }
    true
}

// 07 of a group.
#[tactic(auto, unfolding(asking::specs::Reply::answers, asking::specs::Reply::tells), using(crate::proofs::Fitting::listed))]
pub fn members(g: GroupNumber, code: u8, payload: &[u8]) -> Result<Told, Refusal>
    ensures { result ≡ told_of (answered blank (member_list g) code payload.now) }
{
    match code {
        0x07 if fits_count(g, payload.len()) && in_order(payload) => Ok(Told::Members(
            payload.len(),
        )),
        _ => Err(Refusal::ReplyUnfit),
    }
}

// 65,536 blocks are sent as 0.
fn blocks_of(n: u32) -> u32
    ensures { result ≡ blocks_of n }
{
    if n == 0 { 65536 } else { n }
}

// A two-byte field of a payload.
fn word_at(payload: &[u8], at: usize) -> u32
    requires { at + 1 < length payload.now }
    ensures { result ≡ word_at payload.now at }
{
    u32::from(u16::from_be_bytes([payload[at], payload[at + 1]]))
}

// A curve's record of five bytes, from a place on.
pub fn curve_in(payload: &[u8], at: usize) -> Curve
    requires { at + 5 ≤ length payload.now }
    ensures { result ≡ curve_in payload.now at }
{
    Curve {
        writable: u32::from(payload[at]),
        size: word_at(payload, at + 1),
        blocks: blocks_of(word_at(payload, at + 3)),
    }
}

// Whether these are whole records of curves within the limits; each is tested before it counts, so that the sum fits.
fn fit_curves(payload: &[u8]) -> bool
    ensures { let cs = curves_from payload.now in result ≡ (eqb (5 * length cs) (length payload.now) && usable_curves cs) }
{
    let n = payload.len();
    if n % 5 != 0 || 40 < n {
        return false;
    }
    let mut bytes: u32 = 0;
    for i in 0..n / 5 {
        let c = curve_in(payload, 5 * i);
        if !rules::usable_curve(c) {
            return false;
        }
        bytes += c.size * c.blocks;
    }
    bytes <= 65536
}

// 09: whole records within the limits.
#[tactic(auto, unfolding(asking::specs::Reply::answers, asking::specs::Reply::tells), using(crate::proofs::Fitting::listed))]
pub fn curves(code: u8, payload: &[u8]) -> Result<Told, Refusal>
    ensures { result ≡ told_of (answered blank curve_list code payload.now) }
{
    match code {
        0x09 if fit_curves(payload) => Ok(Told::Curves(payload.len() / 5)),
        _ => Err(Refusal::ReplyUnfit),
    }
}

// 0D: at most 16 functions; four bits hold no more than 15.
#[tactic(auto, unfolding(asking::specs::Reply::answers, asking::specs::Reply::tells), using(crate::proofs::Fitting::listed))]
pub fn functions(code: u8, payload: &[u8]) -> Result<Told, Refusal>
    ensures { result ≡ told_of (answered blank function_list code payload.now) }
{
    match code {
        0x0D if payload.len() <= 16 => Ok(Told::Functions(payload.len())),
        _ => Err(Refusal::ReplyUnfit),
    }
}
