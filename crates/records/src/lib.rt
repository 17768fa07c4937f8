// What a board lends, read as the definition's table.
#![tactic(auto)]

ghost use Rattle.std.specs.Prelude.{◌≡◌, true, ◌≤◌, ◌<◌, length, take, get_or};
ghost use Rattle.bsmp.specs.Base.{every};
ghost use Rattle.bsmp.specs.Board.{is_type, blank_curve, blank_function, usable_curves};
ghost use Rattle.records.specs.Lending.{record_at, writable_marks, curves_of, functions_of, start_of, with_group, without_groups};

use bsmp::{Curve, CurveNumber, Function, FunctionNumber, Variable};

// The variable records by columns; of the places from `count` on, nothing counts. They stay columns, of a fixed length with a count beside, since
// no heap is used, fronts of a column are lent to a message's work, and many records are tested at once.
#[derive(Clone, Copy)]
pub struct Records {
    pub count: usize,
    pub writable: [u8; 64],
    pub sizes: [u8; 64],
    pub kinds: [u8; 64],
}

impl Records {
    // The record at place i.
    pub fn at(&self, i: usize) -> Variable
        requires { i < 64 }
        ensures { result ≡ record_at self.now i }
    {
        Variable {
            writable: self.writable[i],
            size: self.sizes[i],
            kind: self.kinds[i],
        }
    }
}

// The made groups as sets; of the places from `count` on, nothing counts. It is the C interface's struct.
#[repr(C)]
#[derive(Drop)]
pub struct Groups {
    pub count: u64,
    pub sets: [u64; 5],
}

// All that a board lends, for calls that change none of it.
#[derive(Clone, Copy)]
pub struct Board<'a> {
    pub records: &'a Records,
    pub curves: &'a [u32],
    pub functions: &'a [u8],
    pub groups: &'a Groups,
    pub values: &'a [u8],
    pub blocks: &'a [u8],
    pub lengths: &'a [u16],
    pub sums: &'a [u8],
}

// What stands before a curve: in the lengths so many blocks, in the curve store so many bytes.
#[derive(Clone, Copy)]
pub struct Start {
    pub blocks: usize,
    pub bytes: usize,
}

// The writable variables as marks, by their types, from the last to the first: by their places, since the marks so far are those of the types
// from a place on, which an iterator from the back would have to say by what it has yielded.
#[tactic(auto, using(crate::proofs::Marking::twice_fits, crate::proofs::Marking::marks_fit))]
pub fn marks_of(types: &[u8]) -> u64
    requires { (length types.now ≤ 64) × (every is_type types.now ≡ true) }
    ensures { result ≡ writable_marks types.now }
{
    let mut marks: u64 = 0;
    for i in (0..types.len()).rev() {
        marks = 2 * marks + types[i] as u64;
    }
    marks
}

// How many curve records are lent, a broken one at the end included. Curves and functions have their own count and record each: three numbers
// of 32 bits and two bytes, and a broken record of each reads otherwise. Not by `div_ceil`, which the portable edition's oldest Rust lacks.
#[tactic(auto, using(crate::proofs::Lending::curve_count))]
pub fn curve_count(curves: &[u32]) -> usize
    ensures { result ≡ length (curves_of curves.now) }
{
    (curves.len() + 2) / 3
}

// The record of curve c; zeros where there is none, and for a broken one at the end.
#[tactic(auto, using(crate::proofs::Lending::curve_whole, crate::proofs::Lending::curve_broken))]
pub fn curve_at(curves: &[u32], c: CurveNumber) -> Curve
    ensures { result ≡ get_or (curves_of curves.now) c.0 blank_curve }
{
    if c.0 < curves.len() / 3 {
        let at = 3 * c.0;
        Curve {
            writable: curves[at],
            size: curves[at + 1],
            blocks: curves[at + 2],
        }
    } else {
        Curve {
            writable: 0,
            size: 0,
            blocks: 0,
        }
    }
}

// Where curve c starts: all blocks of the curves before it, and their bytes. That the curves are usable stands as a clause, here and in `boards`
// and `sums`: what is lent is a slice, which holds no invariant.
pub fn curve_start(curves: &[u32], c: CurveNumber) -> Start
    requires { (usable_curves (curves_of curves.now) ≡ true) × (c.0 ≤ length (curves_of curves.now)) }
    ensures { result ≡ start_of (take c.0 (curves_of curves.now)) }
{
    let mut blocks: usize = 0;
    let mut bytes: usize = 0;
    for i in 0..c.0 {
        let curve = curve_at(curves, CurveNumber(i));
        let count = curve.blocks as usize;
        blocks += count;
        bytes += curve.size as usize * count;
    }
    Start { blocks, bytes }
}

// How many function records are lent, a broken one at the end included.
#[tactic(auto, using(crate::proofs::Lending::function_count))]
pub fn function_count(functions: &[u8]) -> usize
    ensures { result ≡ length (functions_of functions.now) }
{
    (functions.len() + 1) / 2
}

// The record of function f.
#[tactic(auto, using(crate::proofs::Lending::function_whole, crate::proofs::Lending::function_broken))]
pub fn function_at(functions: &[u8], f: FunctionNumber) -> Function
    requires { f.0 < length (functions_of functions.now) }
    ensures { result ≡ get_or (functions_of functions.now) f.0 blank_function }
{
    if f.0 < functions.len() / 2 {
        let at = 2 * f.0;
        Function {
            input: functions[at],
            output: functions[at + 1],
        }
    } else {
        Function {
            input: 16,
            output: 0,
        }
    }
}

impl Groups {
    pub const NONE: u64 = 0;

    // One group more, at the first place behind the others.
    pub fn create(&mut self, members: u64)
        requires { self.old.count < 5 }
        ensures { self.new ≡ with_group self.old members }
    {
        self.sets[self.count as usize] = members;
        self.count += 1;
    }

    // No group; the places keep what they held.
    pub fn remove(&mut self)
        ensures { self.new ≡ without_groups self.old }
    {
        self.count = Groups::NONE;
    }
}
