// The sums of curves: 42 renews one, a fresh board has all of them, 0A reads one.
#![tactic(auto)]

ghost use Rattle.std.specs.Prelude.{◌≡◌, true, ◌+◌, ◌≤◌, ◌<◌, length, set};
ghost use Rattle.bsmp.specs.Board.{block_sizes, usable_curves};
ghost use Rattle.bsmp.specs.Message.{curve_at};
ghost use Rattle.rfc1321.specs.Md5.{digest};
ghost use Rattle.parts.specs.Parts.{PayloadAt};
ghost use Rattle.records.specs.Lending.{curves_of};
ghost use Rattle.curves.specs.Fits.{SoundCurves, SoundLengths, SoundSums};
ghost use Rattle.sums.specs.Sums.{sums_in, sum_at, SumNamed, content_in, covered, Blocks, fresh_sums};

use bsmp::CurveNumber;
use digest::Progress;

// All blocks of a curve: their size, their part of the store, and their lengths.
#[derive(Clone, Copy)]
struct Content<'a> {
    size: usize,
    blocks: &'a [u8],
    lengths: &'a [u16],
}

impl<'a> Content<'a> {
    fn of(curves: &[u32], blocks: &'a [u8], lengths: &'a [u16], c: CurveNumber) -> Content<'a>
        requires sound { SoundCurves (curves_of curves.now) blocks.now × SoundLengths (curves_of curves.now) lengths.now }
        requires known { c.0 < length (curves_of curves.now) }
        ensures sound { Blocks result.size result.lengths.now result.blocks.now }
        ensures holds { covered result.size result.lengths.now result.blocks.now ≡ content_in (curves_of curves.now) blocks.now lengths.now c }
    {
        let curve = records::curve_at(curves, c);
        let size = curve.size as usize;
        let count = curve.blocks as usize;
        let before = records::curve_start(curves, c);
        let from = before.bytes;
        let first = before.blocks;
        Content {
            size,
            blocks: &blocks[from..from + size * count],
            lengths: &lengths[first..first + count],
        }
    }

    // The MD5 of what the blocks hold, one after another. Bytes of full blocks go on with those of the next, as one piece; a block that isn't full
    // ends a piece.
    fn sum(&self) -> [u8; 16]
        requires { Blocks self.now.size self.now.lengths.now self.now.blocks.now }
        ensures { result ≡ digest (covered self.now.size self.now.lengths.now self.now.blocks.now) }
    {
        let size = self.size;
        let blocks = self.blocks;
        let mut progress = Progress::begin();
        let mut from = 0;
        let mut at = 0;
        for n in self.lengths {
            let count = *n as usize;
            let next = at + size;
            if count < size {
                progress.feed(&blocks[from..at + count]);
                from = next;
            }
            at = next;
        }
        progress.feed(&blocks[from..at]);
        progress.finish()
    }
}

// Curves, stores and lengths come one by one, since the sums are written beside them.
// 42: the sum of a curve, worked out anew from what the curve holds. The others' sums stay.
pub fn renew(curves: &[u32], blocks: &[u8], lengths: &[u16], sums: &mut [u8], c: CurveNumber)
    requires sound_curves { SoundCurves (curves_of curves.now) blocks.now × SoundLengths (curves_of curves.now) lengths.now }
    requires sound_sums { SoundSums (curves_of curves.now) sums.old × (c.0 < length (curves_of curves.now)) }
    ensures { let curves = curves_of curves.now in
        let sum = digest (content_in curves blocks.now lengths.now c) in
        sums_in curves sums.new ≡ set (sums_in curves sums.old) c.0 sum }
{
    let content = Content::of(curves, blocks, lengths, c);
    let at = 16 * c.0;
    copies::copy_into(&mut sums[at..], &content.sum());
}

// All sums, worked out anew.
fn renew_all(curves: &[u32], blocks: &[u8], lengths: &[u16], sums: &mut [u8])
    requires sound_curves { SoundCurves (curves_of curves.now) blocks.now × SoundLengths (curves_of curves.now) lengths.now }
    requires sound_sums { SoundSums (curves_of curves.now) sums.old }
    ensures { let curves = curves_of curves.now in
        sums_in curves sums.new ≡ fresh_sums curves blocks.now lengths.now (length curves) }
{
    for i in 0..records::curve_count(curves) {
        renew(curves, blocks, lengths, sums, CurveNumber(i));
    }
}

// Every block full.
fn fill_all(curves: &[u32], lengths: &mut [u16])
    requires { (usable_curves (curves_of curves.now) ≡ true) × (length lengths.old ≡ length (block_sizes (curves_of curves.now))) }
    ensures { lengths.new ≡ block_sizes (curves_of curves.now) }
{
    let mut first = 0;
    for i in 0..records::curve_count(curves) {
        let curve = records::curve_at(curves, CurveNumber(i));
        let end = first + curve.blocks as usize;
        lengths[first..end].fill(curve.size as u16);
        first = end;
    }
}

// The lengths and the sums of a fresh board: every block full, and every sum worked out.
pub fn fresh(curves: &[u32], blocks: &[u8], lengths: &mut [u16], sums: &mut [u8])
    requires sound_curves { SoundCurves (curves_of curves.now) blocks.now × SoundSums (curves_of curves.now) sums.old }
    requires lengths_len { length lengths.old ≡ length (block_sizes (curves_of curves.now)) }
    ensures { let curves = curves_of curves.now in
        (lengths.new ≡ block_sizes curves)
        × (sums_in curves sums.new ≡ fresh_sums curves blocks.now (block_sizes curves) (length curves)) }
{
    fill_all(curves, lengths);
    renew_all(curves, blocks, lengths, sums);
}

// 0B: the sum of the curve named, as it stands.
pub fn tell_sum(sums: &[u8], payload: &[u8], reply: &mut [u8], at: usize) -> usize
    requires sum_named { SumNamed sums.now payload.now }
    requires at_in_bounds { at + 4099 ≤ length reply.old }
    ensures { let sum = sum_at sums.now (curve_at payload.now 0) in
        PayloadAt reply.old at sum result reply.new }
{
    let c = parts::curve_at(payload, 0);
    copies::read_value(sums, 16 * c.0, 16, reply, at);
    16
}
