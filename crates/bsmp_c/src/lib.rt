// The C face: every entry on numbers, slices and plain structs, each thin over its work in plain numbers.
#![tactic(auto)]

ghost use Rattle.std.specs.Prelude.{◌≡◌, true, false, pos};
ghost use Rattle.rfc1321.specs.Md5.{digest};
ghost use Rattle.plain.specs.Lending.{lending};
ghost use Rattle.endings.specs.Numbers.{signed_says, unsigned_says};
ghost use Rattle.plain.specs.Calls.{plain_packet_left, packet_of, plain_result_left, result_of, plain_bytes_left, store_of, plain_fresh_left, fresh_of, writing_of, reading_of};

use bsmp::Variable;
use endings::{PlainOutcome, PlainSignedReading, PlainUnsignedReading};
use plain::PlainSum;
use records::{Board, Groups};

#[unsafe(no_mangle)]
pub extern "C" fn bsmp_packet(
    variables: &[Variable],
    curves: &[u32],
    functions: &[u8],
    groups: &mut Groups,
    own: u8,
    multicast: u8,
    busy: u64,
    values: &mut [u8],
    blocks: &mut [u8],
    lengths: &mut [u16],
    sums: &mut [u8],
    request: &[u8],
    reply: &mut [u8],
) -> PlainOutcome
    ensures { let board = lending variables.now curves.now functions.now
        groups.old values.old blocks.old lengths.old sums.old in
        plain_packet_left result groups.new reply.new values.new blocks.new lengths.new sums.new
        ≡ packet_of board own multicast busy request.now reply.old }
{
    let mut records = columns::BLANK;
    columns::take(variables, &mut records);
    plain::packet(
        &records, curves, functions, groups, own, multicast, busy, values, blocks, lengths, sums,
        request, reply,
    )
}

#[unsafe(no_mangle)]
pub extern "C" fn bsmp_function_result(
    variables: &[Variable],
    curves: &[u32],
    functions: &[u8],
    groups: &Groups,
    values: &[u8],
    blocks: &[u8],
    lengths: &[u16],
    sums: &[u8],
    function: usize,
    due: bool,
    failed: bool,
    error: u8,
    output: &[u8],
    reply: &mut [u8],
) -> PlainOutcome
    ensures { let board = lending variables.now curves.now functions.now
        groups.now values.now blocks.now lengths.now sums.now in
        plain_result_left result reply.new ≡ result_of board function due failed error output.now reply.old }
{
    let mut records = columns::BLANK;
    columns::take(variables, &mut records);
    let board = Board {
        records: &records,
        curves,
        functions,
        groups,
        values,
        blocks,
        lengths,
        sums,
    };
    plain::function_result(&board, function, due, failed, error, output, reply)
}

#[unsafe(no_mangle)]
pub extern "C" fn bsmp_board_store(
    variables: &[Variable],
    curves: &[u32],
    functions: &[u8],
    groups: &Groups,
    values: &mut [u8],
    blocks: &[u8],
    lengths: &[u16],
    sums: &[u8],
    variable: usize,
    bytes: &[u8],
) -> u8
    ensures { let board = lending variables.now curves.now functions.now
        groups.now values.old blocks.now lengths.now sums.now in
        plain_bytes_left result values.new ≡ store_of board variable bytes.now }
{
    let mut records = columns::BLANK;
    columns::take(variables, &mut records);
    plain::board_store(
        &records, curves, functions, groups, values, blocks, lengths, sums, variable, bytes,
    )
}

#[unsafe(no_mangle)]
pub extern "C" fn bsmp_fresh_board(
    variables: &[Variable],
    curves: &[u32],
    functions: &[u8],
    groups: &Groups,
    values: &[u8],
    blocks: &[u8],
    lengths: &mut [u16],
    sums: &mut [u8],
) -> u8
    ensures { let board = lending variables.now curves.now functions.now
        groups.now values.now blocks.now lengths.old sums.old in
        plain_fresh_left result lengths.new sums.new ≡ fresh_of board }
{
    let mut records = columns::BLANK;
    columns::take(variables, &mut records);
    plain::fresh_board(
        &records, curves, functions, groups, values, blocks, lengths, sums,
    )
}

#[tactic(auto, using(crate::proofs::Same::reading_same))]
#[unsafe(no_mangle)]
pub extern "C" fn bsmp_read_signed(
    variables: &[Variable],
    variable: usize,
    bytes: &[u8],
) -> PlainSignedReading
    ensures { signed_says result ≡ reading_of variables.now variable true bytes.now }
{
    plain::read_signed(&columns::taken(variables), variable, bytes)
}

#[tactic(auto, using(crate::proofs::Same::reading_same))]
#[unsafe(no_mangle)]
pub extern "C" fn bsmp_read_unsigned(
    variables: &[Variable],
    variable: usize,
    bytes: &[u8],
) -> PlainUnsignedReading
    ensures { unsigned_says result ≡ reading_of variables.now variable false bytes.now }
{
    plain::read_unsigned(&columns::taken(variables), variable, bytes)
}

#[tactic(auto, using(crate::proofs::Same::writing_same))]
#[unsafe(no_mangle)]
pub extern "C" fn bsmp_write_signed(
    variables: &[Variable],
    variable: usize,
    number: i64,
    buffer: &mut [u8],
) -> u8
    ensures { plain_bytes_left result buffer.new ≡ writing_of variables.now variable true number buffer.old }
{
    plain::write(&columns::taken(variables), variable, number, buffer)
}

#[tactic(auto, using(crate::proofs::Same::writing_same))]
#[unsafe(no_mangle)]
pub extern "C" fn bsmp_write_unsigned(
    variables: &[Variable],
    variable: usize,
    number: u64,
    buffer: &mut [u8],
) -> u8
    ensures { plain_bytes_left result buffer.new ≡ writing_of variables.now variable false (pos number) buffer.old }
{
    plain::write(&columns::taken(variables), variable, number, buffer)
}

#[unsafe(no_mangle)]
pub extern "C" fn bsmp_md5(message: &[u8]) -> PlainSum
    ensures { result.bytes ≡ digest message.now }
{
    plain::md5(message)
}
