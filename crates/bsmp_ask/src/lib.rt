// The C face of the asking side: requests, replies and the learned table on numbers, slices and plain structs.
#![tactic(auto)]

ghost use Rattle.std.specs.Prelude.{◌≡◌, true, false, pos};
ghost use Rattle.endings.specs.Numbers.{signed_says, unsigned_says};
ghost use Rattle.plain.specs.Calls.{plain_bytes_left};
ghost use Rattle.learned.specs.Table.{held_table};
ghost use Rattle.gateway.specs.Plain.{named_of, plain_asked_left, ask_of, plain_heard_left};
ghost use Rattle.bsmp_ask.specs.Calls.{hear_call, place_call, read_call, write_call};

use endings::{PlainSignedReading, PlainUnsignedReading};
use gateway::{PlainAsked, PlainHeard};
use gateway_values::PlainPlace;
use learned::LearnedTable;

#[unsafe(no_mangle)]
pub extern "C" fn bsmp_ask_packet(
    destination: u8,
    code: u8,
    operation: u8,
    number: usize,
    other: usize,
    block: usize,
    bytes: &[u8],
    packet: &mut [u8],
) -> PlainAsked
    ensures { let request = named_of code operation number other block in
        plain_asked_left result packet.new ≡ ask_of destination request bytes.now packet.old }
{
    let request = gateway::request_of(code, operation, number, other, block);
    gateway::ask(destination, request, bytes, packet)
}

#[unsafe(no_mangle)]
pub extern "C" fn bsmp_hear_reply(
    learned: &mut LearnedTable,
    destination: u8,
    code: u8,
    operation: u8,
    number: usize,
    other: usize,
    block: usize,
    bytes: &[u8],
    reply: &[u8],
) -> PlainHeard
    ensures { plain_heard_left result (held_table learned.new)
        ≡ hear_call learned.old destination code operation number other block bytes.now reply.now }
{
    let request = gateway::request_of(code, operation, number, other, block);
    gateway::hear(learned, destination, request, bytes, reply)
}

#[unsafe(no_mangle)]
pub extern "C" fn bsmp_hear_place(
    learned: &LearnedTable,
    wanted: usize,
    variable: usize,
) -> PlainPlace
    ensures { result ≡ place_call learned.now wanted variable }
{
    gateway_values::place(learned, wanted, variable)
}

#[unsafe(no_mangle)]
pub extern "C" fn bsmp_hear_signed(
    learned: &LearnedTable,
    kinds: &[u8],
    variable: usize,
    bytes: &[u8],
) -> PlainSignedReading
    ensures { signed_says result ≡ read_call learned.now kinds.now variable true bytes.now }
{
    gateway_values::read_signed(learned, kinds, variable, bytes)
}

#[unsafe(no_mangle)]
pub extern "C" fn bsmp_hear_unsigned(
    learned: &LearnedTable,
    kinds: &[u8],
    variable: usize,
    bytes: &[u8],
) -> PlainUnsignedReading
    ensures { unsigned_says result ≡ read_call learned.now kinds.now variable false bytes.now }
{
    gateway_values::read_unsigned(learned, kinds, variable, bytes)
}

#[unsafe(no_mangle)]
pub extern "C" fn bsmp_ask_signed(
    learned: &LearnedTable,
    kinds: &[u8],
    variable: usize,
    number: i64,
    buffer: &mut [u8],
) -> u8
    ensures { plain_bytes_left result buffer.new ≡ write_call learned.now kinds.now variable true number buffer.old }
{
    gateway_values::write(learned, kinds, variable, number, buffer)
}

#[unsafe(no_mangle)]
pub extern "C" fn bsmp_ask_unsigned(
    learned: &LearnedTable,
    kinds: &[u8],
    variable: usize,
    number: u64,
    buffer: &mut [u8],
) -> u8
    ensures { plain_bytes_left result buffer.new ≡ write_call learned.now kinds.now variable false (pos number) buffer.old }
{
    gateway_values::write(learned, kinds, variable, number, buffer)
}
