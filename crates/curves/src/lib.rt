// The commands of curves: 40 reads a block, 41 writes one, 08 lists the curves; and the tests of 0A and 42, which are about a curve's sum.
#![tactic(auto)]

ghost use Rattle.std.specs.Prelude.{◌≡◌, true, cond, Ok, Err, [], ◌∷◌, ◌++◌, ◌+◌, ◌≤◌, ◌<◌, ltb, length, drop, set};
ghost use Rattle.bsmp.specs.Base.{bit, word, word_at};
ghost use Rattle.bsmp.specs.Board.{is_writable, usable_curves};
ghost use Rattle.bsmp.specs.Message.{curve_at, curve_record, curve_list, check, filled};
ghost use Rattle.bsmp.specs.declared.WireError.TheVariants.{BadId};
ghost use Rattle.bsmp.specs.declared.Command.TheVariants.{ReadSum, ReadBlock, WriteBlock};
ghost use Rattle.copies.specs.Put.{put};
ghost use Rattle.parts.specs.Parts.{curves_only, PayloadAt};
ghost use Rattle.records.specs.Lending.{curves_of};
ghost use Rattle.curves.specs.Fits.{SoundCurves, SoundLengths, BlockNamed, BlockRead, BlockFits, blocks_in, place_of, named_block, named_content, BlockAt};

use bsmp::{Curve, CurveNumber, WireError};

// The number, in its curve, of the block that a payload names.
fn block_number(payload: &[u8]) -> usize
    requires { 3 ≤ length payload.now }
    ensures { result ≡ word_at payload.now 1 }
{
    parts::word(payload[1], payload[2])
}

// The curve that a payload names, if it exists.
fn existing(curves: &[u32], payload: &[u8]) -> Result<CurveNumber, WireError>
    requires { 0 < length payload.now }
    ensures { let c = curve_at payload.now 0 in
        result ≡ cond (ltb c.0 (length (curves_of curves.now))) (Ok c) (Err BadId) }
{
    let c = parts::curve_at(payload, 0);
    if records::curve_count(curves) <= c.0 {
        return Err(WireError::BadId);
    }
    Ok(c)
}

fn has_block(curve: Curve, payload: &[u8]) -> bool
    requires { 3 ≤ length payload.now }
    ensures { result ≡ ltb (word_at payload.now 1) curve.blocks }
{
    block_number(payload) < curve.blocks as usize
}

// 40
#[tactic(auto, unfolding(bsmp::specs::Message::check, bsmp::specs::Message::line, bsmp::specs::Base::first))]
pub fn check_read(curves: &[u32], payload: &[u8]) -> Result<(), WireError>
    ensures { result ≡ check (curves_only (curves_of curves.now)) [] 0 payload.now ReadBlock }
{
    if payload.len() != 3 {
        return Err(WireError::BadSize);
    }
    let c = existing(curves, payload)?;
    let curve = records::curve_at(curves, c);
    if !has_block(curve, payload) {
        return Err(WireError::BadValue);
    }
    Ok(())
}

// 41
#[tactic(auto, unfolding(bsmp::specs::Message::check, bsmp::specs::Message::line, bsmp::specs::Base::first))]
pub fn check_write(curves: &[u32], payload: &[u8]) -> Result<(), WireError>
    ensures { result ≡ check (curves_only (curves_of curves.now)) [] 0 payload.now WriteBlock }
{
    if payload.len() < 3 {
        return Err(WireError::BadSize);
    }
    let c = existing(curves, payload)?;
    let curve = records::curve_at(curves, c);
    if !has_block(curve, payload) {
        return Err(WireError::BadValue);
    }
    let rest = payload.len() - 3;
    if rest < 1 {
        return Err(WireError::BadSize);
    }
    if (curve.size as usize) < rest {
        return Err(WireError::BadSize);
    }
    if curve.writable != 1 {
        return Err(WireError::ReadOnly);
    }
    Ok(())
}

// Where the block that a payload names stands: in the store from a byte on, and its length at a place.
#[derive(Clone, Copy)]
struct Block {
    at: usize,
    place: usize,
}

impl Block {
    #[tactic(auto, using(crate::proofs::BlockAt::named_inside, crate::proofs::BlockAt::placed_mul, crate::proofs::BlockAt::placed_add, crate::proofs::BlockAt::placed_number))]
    fn of(curves: &[u32], payload: &[u8]) -> Block
        requires curves_value { usable_curves (curves_of curves.now) ≡ true }
        requires block_named { BlockNamed (curves_of curves.now) payload.now }
        ensures { BlockAt (curves_of curves.now) payload.now result }
    {
        let c = parts::curve_at(payload, 0);
        let size = records::curve_at(curves, c).size as usize;
        let before = records::curve_start(curves, c);
        let number = block_number(payload);
        Block {
            at: before.bytes + number * size,
            place: before.blocks + number,
        }
    }
}

// 41: the first bytes of the block named, as many as the payload carries, replaced, and their number its length.
#[tactic(auto, using(crate::proofs::BlockAt::at_inside, crate::proofs::BlockAt::carried_fits, crate::proofs::BlockAt::block_filled, crate::proofs::BlockAt::length_set_there))]
pub fn change(curves: &[u32], blocks: &mut [u8], lengths: &mut [u16], payload: &[u8])
    requires sound_curves { SoundCurves (curves_of curves.now) blocks.old × SoundLengths (curves_of curves.now) lengths.old }
    requires block_fits { BlockFits (curves_of curves.now) payload.now }
    ensures { let curves = curves_of curves.now in
        let place = place_of curves payload.now in
        let bytes = drop 3 payload.now in
        let block = named_block curves blocks.old payload.now in
        (blocks_in curves blocks.new ≡ set (blocks_in curves blocks.old) place (filled bytes block))
        × (lengths.new ≡ set lengths.old place (length bytes)) }
{
    let block = Block::of(curves, payload);
    let at = block.at;
    let place = block.place;
    copies::copy_block(&mut blocks[at..], &payload[3..]);
    lengths[place] = (payload.len() - 3) as u16;
}

// 41 as an answer: curve and block number as they came, and what the block holds.
#[tactic(auto, using(crate::proofs::BlockAt::answer_count))]
pub fn tell(
    curves: &[u32],
    blocks: &[u8],
    lengths: &[u16],
    payload: &[u8],
    reply: &mut [u8],
    at: usize,
) -> usize
    requires sound_curves { SoundCurves (curves_of curves.now) blocks.now × SoundLengths (curves_of curves.now) lengths.now }
    requires block_read { BlockRead (curves_of curves.now) payload.now }
    requires at_in_bounds { at + 4099 ≤ length reply.old }
    ensures { let payload = payload.now in
        let content = named_content (curves_of curves.now) blocks.now lengths.now payload in
        PayloadAt reply.old at (payload ++ content) result reply.new }
{
    let block = Block::of(curves, payload);
    let place = block.place;
    let size = lengths[place] as usize;
    copies::read_value(payload, 0, 3, reply, at);
    copies::read_block(blocks, block.at, size, reply, at + 3);
    3 + size
}

// 0A and 42, whose tests are the same: a curve, and nothing else. The checks stay apart, as 01 has them: each in the order of its row.
#[tactic(auto, unfolding(bsmp::specs::Message::check, bsmp::specs::Message::line, bsmp::specs::Base::first))]
pub fn check_sum(curves: &[u32], payload: &[u8]) -> Result<(), WireError>
    ensures { result ≡ check (curves_only (curves_of curves.now)) [] 0 payload.now ReadSum }
{
    if payload.len() != 1 {
        return Err(WireError::BadSize);
    }
    existing(curves, payload)?;
    Ok(())
}

// A type: 1 if writable.
#[tactic(auto, using(copies::proofs::Put::set_put))]
fn put_type(writable: u32, reply: &mut [u8], at: usize)
    requires { at < length reply.old }
    ensures { reply.new ≡ put reply.old at (bit (is_writable writable) ∷ []) }
{
    reply[at] = u8::from(writable == 1);
}

// A two-byte field, most significant first; of a larger number its last two bytes.
#[tactic(auto, using(crate::proofs::Listing::word_put))]
fn put_word(n: u32, reply: &mut [u8], at: usize)
    requires { at + 2 ≤ length reply.old }
    ensures { reply.new ≡ put reply.old at (word n) }
{
    let [_, _, high, low] = n.to_be_bytes();
    reply[at] = high;
    reply[at + 1] = low;
}

// A curve's type, block size and blocks into the reply from `at` on; 65,536 blocks are sent as 0.
#[tactic(auto, using(crate::proofs::Listing::record_put))]
fn list_record(curve: Curve, reply: &mut [u8], at: usize)
    requires { at + 5 ≤ length reply.old }
    ensures { reply.new ≡ put reply.old at (curve_record curve) }
{
    put_type(curve.writable, reply, at);
    put_word(curve.size, reply, at + 1);
    put_word(curve.blocks, reply, at + 3);
}

// 09: five bytes per curve.
pub fn list(curves: &[u32], reply: &mut [u8], at: usize) -> usize
    requires curves_value { usable_curves (curves_of curves.now) ≡ true }
    requires at_in_bounds { at + 4099 ≤ length reply.old }
    ensures { let l = curves_only (curves_of curves.now) in
        PayloadAt reply.old at (curve_list l) result reply.new }
{
    let n = records::curve_count(curves);
    for i in 0..n {
        list_record(records::curve_at(curves, CurveNumber(i)), reply, at + 5 * i);
    }
    5 * n
}
