// Refusal 1, by kinds of record: whether a variable, curve, function or group breaks a rule of its own.
#![tactic(auto)]

ghost use Rattle.std.specs.Prelude.{◌≡◌, true, ◌&&◌, [], ◌∷◌, ◌^◌, eqb, ltb};
ghost use Rattle.bsmp.specs.Base.{every, some, within};
ghost use Rattle.bsmp.specs.Codes.{kind_of};
ghost use Rattle.bsmp.specs.Board.{fits_kind, usable_variable, usable_curve, usable_functions, usable_groups};
ghost use Rattle.records.specs.Lending.{records_of, curves_of, functions_of, groups_of};
ghost use Rattle.rules.specs.Totals.{variables_total, curves_total};

use bsmp::{Curve, CurveNumber, Variable};
use records::{Groups, Records};

// Of usable curve records: the bytes and blocks that they add up to, in numbers that have 32 bits on every target, and the block size that
// all of them have, if they have one.
#[derive(Clone, Copy)]
pub struct CurveTotal {
    pub bytes: u32,
    pub blocks: u32,
    pub size: Option<u32>,
}

// The rules of a record are tested without branches, so that the compiler can test many records at once.
// Of a size of 1 to 127, whether it is one of a number's: 1, 2, 4 and 8 have one bit, which is one of the low four.
#[tactic(auto, using(crate::proofs::Checks::size_less, crate::proofs::Checks::size_told))]
fn fits_number(size: u8) -> bool
    ensures { within 1 127 size ≡ true → result ≡ some (eqb size) (1 ∷ 2 ∷ 4 ∷ 8 ∷ []) }
{
    let less = (size | 0x80) - 1;
    size & (less | 0x70) == 0
}

// Of a size of 1 to 127, whether it fits the kind.
fn fits_kind(size: u8, kind: u8) -> bool
    ensures { within 1 127 size ≡ true → result ≡ fits_kind size (kind_of kind) }
{
    (kind == 0) | ((kind <= 4) & fits_number(size))
}

// The rules of one variable record.
pub fn usable_variable(v: Variable) -> bool
    ensures { result ≡ usable_variable v }
{
    (v.writable <= 1) & (1 <= v.size) & (v.size <= 127) & fits_kind(v.size, v.kind)
}

// The rules of the variable records, and what their sizes add up to if they are kept, in one walk. The columns are lent, since a copy of them
// for each call would be the most of what an entry needs of the stack.
pub fn usable_records(records: &Records) -> Option<u32>
    ensures { result ≡ variables_total (records_of records.now) }
{
    if records.count < 1 || 64 < records.count {
        return None;
    }
    let mut bytes: u32 = 0;
    for i in 0..records.count {
        let v = records.at(i);
        if !usable_variable(v) {
            return None;
        }
        bytes += v.size as u32;
    }
    (bytes <= 4096).then_some(bytes)
}

// The rules of one curve record.
pub fn usable_curve(c: Curve) -> bool
    ensures { result ≡ usable_curve c }
{
    c.writable <= 1 && 1 <= c.size && c.size <= 4096 && 1 <= c.blocks && c.blocks <= 65536
}

// The rules of the curve records, and what their blocks add up to if they are kept; each is tested before it counts, so that the sum fits. A
// record that is cut off breaks them. By number, and not by chunks of three, since `curve_at` says already which three numbers are a record.
pub fn usable_curves(curves: &[u32]) -> Option<CurveTotal>
    ensures { result ≡ curves_total (curves_of curves.now) }
{
    let whole = curves.len() / 3;
    if 8 < whole || whole != records::curve_count(curves) {
        return None;
    }
    let size = records::curve_at(curves, CurveNumber(0)).size;
    let mut alike = true;
    let mut bytes: u32 = 0;
    let mut blocks: u32 = 0;
    for i in 0..whole {
        let c = records::curve_at(curves, CurveNumber(i));
        if !usable_curve(c) {
            return None;
        }
        alike = alike & (c.size == size);
        bytes += c.size * c.blocks;
        blocks += c.blocks;
    }
    let size = alike.then_some(size);
    (bytes <= 65536).then_some(CurveTotal {
        bytes,
        blocks,
        size,
    })
}

// The lengths of blocks of one size, without branches, so that the compiler tests many at once. By `for`: of a fold's closure that holds the size
// there is no proof.
#[tactic(auto, using(crate::proofs::Lengths::fitting_next, crate::proofs::Lengths::fitting_end))]
pub fn fitting(lengths: &[u16], size: u16) -> bool
    ensures { result ≡ every (within 1 size) lengths.now }
{
    let mut fitting = true;
    for n in lengths {
        if (*n < 1) | (size < *n) {
            fitting = false;
        }
    }
    fitting
}

// The rules of the function records, of all bytes at once: no bit of theirs is above the four of 15. A record that is cut off breaks them.
#[tactic(auto, using(crate::proofs::Pairs::functions_broken, crate::proofs::Pairs::functions_told))]
pub fn usable_functions(functions: &[u8]) -> bool
    ensures { result ≡ usable_functions (functions_of functions.now) }
{
    let n = functions.len();
    if n % 2 != 0 || 32 < n {
        return false;
    }
    functions.iter().fold(0, |bits, b| bits | *b) <= 15
}

// Whether a set has members, and only declared ones: none is left past the last variable. With 64 variables, which is too far
// to shift, each of its marks is declared. Test by test, so that where there are 64 no set is shifted: as one condition the compiler shifts them all.
#[tactic(auto, using(crate::proofs::Checks::group_any, crate::proofs::Checks::group_declared))]
fn usable_group(set: u64, variables: usize) -> bool
    ensures { result ≡ (ltb 0 set && ltb set (2 ^ variables)) }
{
    if set < 1 {
        return false;
    }
    if 64 <= variables {
        return true;
    }
    set >> variables == 0
}

// The rules of the made groups.
pub fn usable_groups(groups: &Groups, variables: usize) -> bool
    ensures { result ≡ usable_groups variables (groups_of groups.now) }
{
    if 5 < groups.count {
        return false;
    }
    for set in &groups.sets[..groups.count as usize] {
        if !usable_group(*set, variables) {
            return false;
        }
    }
    true
}
