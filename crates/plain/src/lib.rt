// The work of each entry on numbers, slices and plain structs: its ending is said in plain numbers, and variables and functions are named
// by them.
#![tactic(auto)]

ghost use Rattle.std.specs.Prelude.{◌≡◌, true, false};
ghost use Rattle.rfc1321.specs.Md5.{digest};
ghost use Rattle.records.specs.Lending.{records_of};
ghost use Rattle.endings.specs.Numbers.{signed_says, unsigned_says};
ghost use Rattle.plain.specs.Lending.{lending, lending_of};
ghost use Rattle.plain.specs.Calls.{plain_packet_left, packet_of, plain_result_left, result_of, plain_bytes_left, store_of, plain_fresh_left, fresh_of, writing_of, reading_of};

use bsmp::{FunctionNumber, VariableNumber};
use endings::{PlainOutcome, PlainSignedReading, PlainUnsignedReading};
use numbers::Number;
use records::{Board, Groups, Records};

// A sum of 16 bytes.
#[repr(C)]
#[derive(Clone, Copy)]
pub struct PlainSum {
    pub bytes: [u8; 16],
}

pub fn packet(
    records: &Records,
    curves: &[u32],
    functions: &[u8],
    groups: &mut Groups,
    own: u8,
    multicast: u8,
    busy: u64,
    values: &mut [u8],
    blocks: &mut [u8],
    lengths: &mut [u16],
    sums: &mut [u8],
    request: &[u8],
    reply: &mut [u8],
) -> PlainOutcome
    ensures { let board = lending (records_of records.now) curves.now functions.now groups.old values.old blocks.old lengths.old sums.old in
        plain_packet_left result groups.new reply.new values.new blocks.new lengths.new sums.new
        ≡ packet_of board own multicast busy request.now reply.old }
{
    let outcome = node::packet(
        records, curves, functions, groups, own, multicast, busy, values, blocks, lengths, sums,
        request, reply,
    );
    PlainOutcome::from(outcome)
}

pub fn function_result(
    board: &Board,
    function: usize,
    due: bool,
    failed: bool,
    error: u8,
    output: &[u8],
    reply: &mut [u8],
) -> PlainOutcome
    ensures { plain_result_left result reply.new ≡ result_of (lending_of board.now) function due failed error output.now reply.old }
{
    let ran = endings::ran_of(failed, error, output);
    let outcome = results::function_result(board, FunctionNumber(function), due, ran, reply);
    PlainOutcome::from(outcome)
}

pub fn board_store(
    records: &Records,
    curves: &[u32],
    functions: &[u8],
    groups: &Groups,
    values: &mut [u8],
    blocks: &[u8],
    lengths: &[u16],
    sums: &[u8],
    variable: usize,
    bytes: &[u8],
) -> u8
    ensures { let board = lending (records_of records.now) curves.now functions.now groups.now values.old blocks.now lengths.now sums.now in
        plain_bytes_left result values.new ≡ store_of board variable bytes.now }
{
    endings::done_number(results::board_store(
        records,
        curves,
        functions,
        groups,
        values,
        blocks,
        lengths,
        sums,
        VariableNumber(variable),
        bytes,
    ))
}

pub fn fresh_board(
    records: &Records,
    curves: &[u32],
    functions: &[u8],
    groups: &Groups,
    values: &[u8],
    blocks: &[u8],
    lengths: &mut [u16],
    sums: &mut [u8],
) -> u8
    ensures { let board = lending (records_of records.now) curves.now functions.now groups.now values.now blocks.now lengths.old sums.old in
        plain_fresh_left result lengths.new sums.new ≡ fresh_of board }
{
    endings::done_number(results::fresh_board(
        records, curves, functions, groups, values, blocks, lengths, sums,
    ))
}

// Two readings, signed and unsigned, since C's struct of each has a name and a type of its own.
pub fn read_signed(records: &Records, variable: usize, bytes: &[u8]) -> PlainSignedReading
    ensures { signed_says result ≡ reading_of (records_of records.now) variable true bytes.now }
{
    PlainSignedReading::from(readings::read(records, VariableNumber(variable), bytes))
}

pub fn read_unsigned(records: &Records, variable: usize, bytes: &[u8]) -> PlainUnsignedReading
    ensures { unsigned_says result ≡ reading_of (records_of records.now) variable false bytes.now }
{
    PlainUnsignedReading::from(readings::read(records, VariableNumber(variable), bytes))
}

pub fn write<N: Number>(records: &Records, variable: usize, number: N, buffer: &mut [u8]) -> u8
    ensures { plain_bytes_left result buffer.new ≡ writing_of (records_of records.now) variable N.SIGNED (N.meaning number) buffer.old }
{
    endings::done_number(readings::write(records, VariableNumber(variable), number, buffer))
}

// The MD5 of a message, for who has no curve: a download can be summed before it is sent.
pub fn md5(message: &[u8]) -> PlainSum
    ensures { result.bytes ≡ digest message.now }
{
    let bytes = digest::digest(message);
    PlainSum { bytes }
}
