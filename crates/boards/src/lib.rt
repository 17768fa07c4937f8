// Refusal 1 for the whole board: its records, the sizes of its stores and its sums, its blocks' lengths, its groups.
#![tactic(auto)]

ghost use Rattle.std.specs.Prelude.{◌≡◌, true, cond, ◌&&◌, ◌+◌, ◌-◌, ◌*◌, ◌%◌, ◌≤◌, eqb, length};
ghost use Rattle.bsmp.specs.Base.{sum};
ghost use Rattle.bsmp.specs.Store.{held};
ghost use Rattle.bsmp.specs.Board.{sizes_of, usable_variables, block_sizes, usable_curves, fitting, layout, full, usable};
ghost use Rattle.records.specs.Lending.{records_of, curves_of, curve_blocks, table_lent, board_lent};
ghost use Rattle.rules.specs.Totals.{curves_total};
ghost use Rattle.boards.specs.Pieces.{usable_from};

use bsmp::CurveNumber;
use records::{Board, Records};
use rules::CurveTotal;

// Whether the 16 records from `from` on break no rule.
fn usable_piece(records: &Records, from: usize) -> bool
    requires { from + 16 ≤ 64 }
    ensures { result ≡ usable_from records.now from 16 }
{
    let mut usable = true;
    for i in 0..16 {
        usable = usable & rules::usable_variable(records.at(from + i));
    }
    usable
}

// Whether so many records break no rule, 16 at a time.
fn usable_pieces(records: &Records, whole: usize) -> bool
    requires { (whole ≤ 64) × (whole % 16 ≡ 0) }
    ensures { result ≡ usable_from records.now 0 whole }
{
    for piece in 0..whole / 16 {
        if !usable_piece(records, 16 * piece) {
            return false;
        }
    }
    true
}

// Whether the records from `from` up to the last break no rule, one by one.
fn usable_rest(records: &Records, from: usize) -> bool
    requires { (from ≤ records.now.count) × (records.now.count ≤ 64) }
    ensures { result ≡ usable_from records.now from (records.now.count - from) }
{
    for i in from..records.count {
        if !rules::usable_variable(records.at(i)) {
            return false;
        }
    }
    true
}

// Whether the variable records break no rule and add up to so many bytes, for packets, which come often: in pieces, and what is left one by one.
fn quick_variables(records: &Records, stored: usize) -> bool
    ensures { let vs = records_of records.now in
        result ≡ (usable_variables vs && eqb (sum (sizes_of vs)) stored) }
{
    let count = records.count;
    if count < 1 || 64 < count {
        return false;
    }
    let whole = count - count % 16;
    if !usable_pieces(records, whole) {
        return false;
    }
    if !usable_rest(records, whole) {
        return false;
    }
    let bytes = lists::offset(&records.sizes, count);
    bytes <= 4096 && bytes == stored
}

// Whether there are 16 bytes of sums for each three numbers of curve records.
fn each_summed(curves: &[u32], sums: &[u8]) -> bool
    ensures { result ≡ eqb (3 * length sums.now) (16 * length curves.now) }
{
    sums.len() % 16 == 0 && sums.len() / 16 * 3 == curves.len()
}

// Whether each block's length is 1 to its size, curve after curve.
fn fitting_curves(curves: &[u32], lengths: &[u16]) -> bool
    requires { (usable_curves (curves_of curves.now) ≡ true) × (length lengths.now ≡ curve_blocks (curves_of curves.now)) }
    ensures { result ≡ fitting (block_sizes (curves_of curves.now)) lengths.now }
{
    let mut first: usize = 0;
    for i in 0..records::curve_count(curves) {
        let curve = records::curve_at(curves, CurveNumber(i));
        let size = curve.size as u16;
        let end = first + curve.blocks as usize;
        if !rules::fitting(&lengths[first..end], size) {
            return false;
        }
        first = end;
    }
    true
}

// Whether there is a length for each block of usable curves, 1 to its size. Where all blocks have one size they are tested in one walk.
fn fitting_lengths(curves: &[u32], total: CurveTotal, lengths: &[u16]) -> bool
    requires { Some total ≡ curves_total (curves_of curves.now) }
    ensures { result ≡ fitting (block_sizes (curves_of curves.now)) lengths.now }
{
    if total.blocks as usize != lengths.len() {
        return false;
    }
    match total.size {
        Some(size) => rules::fitting(lengths, size as u16),
        None => fitting_curves(curves, lengths),
    }
}

// Every rule, one after another. A board that is to be fresh is tested with its blocks full: it must have a length for each, whatever it is; in
// that last test alone the two differ, so a flag says which it is.
pub fn usable_board(board: &Board, fresh: bool) -> bool
    ensures { let t = table_lent board.now in
        let s = held (layout t) (board_lent board.now) in
        result ≡ usable t (cond fresh (full (layout t) s) s) }
{
    if !each_summed(board.curves, board.sums) {
        return false;
    }
    let Some(bytes) = rules::usable_records(board.records) else {
        return false;
    };
    if bytes as usize != board.values.len() {
        return false;
    }
    if !rules::usable_functions(board.functions) {
        return false;
    }
    if !rules::usable_groups(board.groups, board.records.count) {
        return false;
    }
    let Some(total) = rules::usable_curves(board.curves) else {
        return false;
    };
    if total.bytes as usize != board.blocks.len() {
        return false;
    }
    if fresh {
        return total.blocks as usize == board.lengths.len();
    }
    fitting_lengths(board.curves, total, board.lengths)
}

// The same as `usable_board` for packets, which come often: its variables are tested in pieces. It has one caller, since the compiler takes
// only such a function into the entry whole.
pub fn quick_board(board: &Board) -> bool
    ensures { let t = table_lent board.now in
        result ≡ usable t (held (layout t) (board_lent board.now)) }
{
    if !each_summed(board.curves, board.sums) {
        return false;
    }
    if !quick_variables(board.records, board.values.len()) {
        return false;
    }
    let Some(total) = rules::usable_curves(board.curves) else {
        return false;
    };
    if total.bytes as usize != board.blocks.len() {
        return false;
    }
    if !fitting_lengths(board.curves, total, board.lengths) {
        return false;
    }
    if !rules::usable_groups(board.groups, board.records.count) {
        return false;
    }
    rules::usable_functions(board.functions)
}
