// Three entries of a board, with nothing asked of the caller: a function's result, a board store, and a fresh board's lengths and sums.
#![tactic(auto)]

ghost use Rattle.std.specs.Prelude.{◌≡◌, true, ◌≤◌, length};
ghost use Rattle.bsmp.specs.Base.{first};
ghost use Rattle.bsmp.specs.Board.{layout, faults};
ghost use Rattle.bsmp.specs.Packet.{ends, ran_says, result_tests, store_tests, function_result, board_store, fresh_board};
ghost use Rattle.bsmp.specs.Store.{held};
ghost use Rattle.bsmp.specs.declared.Outcome.TheVariants.{Reply};
ghost use Rattle.records.specs.Lending.{groups_of, table_of, lent, table_lent, board_lent};
ghost use Rattle.results.specs.Results.{ran_of, ran_payload, result_left, result_left_of, store_left, store_left_of, fresh_left, fresh_left_of};

use bsmp::{FunctionNumber, Outcome, Refusal, VariableNumber};
use records::{Board, Groups, Records};

// How the answer to a run function begins: that it gave its output, or that it failed.
pub const OUTPUT: u8 = 0x51;

pub const ERROR: u8 = 0x53;

// Refusals 1, 3, 7, 8, in this order.
#[tactic(auto, unfolding(bsmp::specs::Base::first, bsmp::specs::Board::faults))]
fn judge_result(
    board: &Board,
    function: FunctionNumber,
    ran: Result<&[u8], u8>,
    room: usize,
) -> Result<(), Refusal>
    ensures { let table = table_lent board.now in
        let tests = result_tests (layout table) room function (ran_of ran.entry) in
        result ≡ first (faults table (held (layout table) (board_lent board.now))) Err (first tests Err (Ok tt)) }
{
    if !boards::usable_board(board, false) {
        return Err(Refusal::BoardUnusable);
    }
    if room < 4104 {
        return Err(Refusal::ReplyBufferShort);
    }
    if records::function_count(board.functions) <= function.0 {
        return Err(Refusal::NoSuchFunction);
    }
    let declared = records::function_at(board.functions, function);
    if let Ok(output) = ran {
        if output.len() != declared.output as usize {
            return Err(Refusal::OutputLength);
        }
    }
    Ok(())
}

// The reply: 51 with the output, or 53 with the error byte.
fn answer(ran: Result<&[u8], u8>, reply: &mut [u8]) -> usize
    requires { (length (ran_payload (ran_of ran)) ≤ 15) × (4104 ≤ length reply.old) }
    ensures { result_left (Reply result) reply.new ≡ result_left_of (ends true (ran_says (ran_of ran.entry))) reply.old }
{
    match ran {
        Ok(output) => {
            copies::copy_into(&mut reply[4..], output);
            wire::finish(reply, OUTPUT, output.len())
        }
        Err(error) => {
            reply[4] = error;
            wire::finish(reply, ERROR, 1)
        }
    }
}

// A function's result, handed in with whether an answer was due. Nothing but the reply buffer is written.
pub fn function_result(
    board: &Board,
    function: FunctionNumber,
    due: bool,
    ran: Result<&[u8], u8>,
    reply: &mut [u8],
) -> Outcome
    ensures { let table = table_lent board.now in
        let state = held (layout table) (board_lent board.now) in
        let was = reply.old in
        result_left result reply.new
        ≡ result_left_of (function_result table (length was) function due (ran_of ran.entry) state).ending was }
{
    let judged = judge_result(board, function, ran, reply.len());
    match judged {
        Err(refusal) => Outcome::Refused(refusal),
        Ok(()) => {
            if due {
                return Outcome::Reply(answer(ran, reply));
            }
            Outcome::Silence
        }
    }
}

// Refusals 1, 9, 10, in this order: a chain for each call, since they share its first test only.
#[tactic(auto, using(crate::proofs::Storing::size_count, crate::proofs::Storing::size_at_lem, crate::proofs::Storing::size_inside), unfolding(bsmp::specs::Base::first, bsmp::specs::Board::faults))]
fn judge_store(board: &Board, variable: VariableNumber, bytes: &[u8]) -> Result<(), Refusal>
    ensures { let table = table_lent board.now in
        let tests = store_tests (layout table) variable bytes.now in
        result ≡ first (faults table (held (layout table) (board_lent board.now))) Err (first tests Err (Ok tt)) }
{
    if !boards::usable_board(board, false) {
        return Err(Refusal::BoardUnusable);
    }
    let i = variable.0;
    if board.records.count <= i {
        return Err(Refusal::NoSuchVariable);
    }
    if bytes.len() != board.records.sizes[i] as usize {
        return Err(Refusal::WrongByteCount);
    }
    Ok(())
}

// Below, what is lent comes one by one, since a part of it is written: `Board` lends all of it to be read.
// The board's own store of a new value, into any variable, read-only or busy too. Only that variable's bytes change.
pub fn board_store(
    records: &Records,
    curves: &[u32],
    functions: &[u8],
    groups: &Groups,
    values: &mut [u8],
    blocks: &[u8],
    lengths: &[u16],
    sums: &[u8],
    variable: VariableNumber,
    bytes: &[u8],
) -> Result<(), Refusal>
    ensures { let table = table_of records.now curves.now functions.now in
        let state = held (layout table) (lent values.old blocks.now lengths.now sums.now (groups_of groups.now)) in
        store_left result values.new ≡ store_left_of (board_store table variable bytes.now state) }
{
    let board = Board {
        records,
        curves,
        functions,
        groups,
        values,
        blocks,
        lengths,
        sums,
    };
    judge_store(&board, variable, bytes)?;
    variables::store(&records.sizes[..records.count], values, variable, bytes);
    Ok(())
}

// A fresh board: its blocks full, and its sums worked out. Nothing but lengths and sums is written.
pub fn fresh_board(
    records: &Records,
    curves: &[u32],
    functions: &[u8],
    groups: &Groups,
    values: &[u8],
    blocks: &[u8],
    lengths: &mut [u16],
    sums: &mut [u8],
) -> Result<(), Refusal>
    ensures { let table = table_of records.now curves.now functions.now in
        let state = held (layout table) (lent values.now blocks.now lengths.old sums.old (groups_of groups.now)) in
        fresh_left result lengths.new sums.new ≡ fresh_left_of (fresh_board table state) }
{
    let board = Board {
        records,
        curves,
        functions,
        groups,
        values,
        blocks,
        lengths,
        sums,
    };
    if !boards::usable_board(&board, true) {
        return Err(Refusal::BoardUnusable);
    }
    sums::fresh(curves, blocks, lengths, sums);
    Ok(())
}
