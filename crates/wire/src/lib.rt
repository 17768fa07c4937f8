// Packets: opening one, and closing one.
#![tactic(auto)]

ghost use Rattle.std.specs.Prelude.{◌≡◌, ◌+◌, ◌≤◌, length};
ghost use Rattle.bsmp.specs.Message.{message_of};
ghost use Rattle.bsmp.specs.Packet.{usable_place, in_multicast, packed, frame};
ghost use Rattle.copies.specs.Put.{put, part};
ghost use Rattle.wire.specs.Opening.{placed, opened_of};

use bsmp::Refusal;

// Whether own address and multicast byte are such as a node may have.
#[tactic(auto, unfolding(bsmp::specs::Packet::usable_place, bsmp::specs::Base::has))]
fn usable_place(own: u8, multicast: u8) -> bool
    ensures { result ≡ usable_place (placed own multicast) }
{
    (1..=31).contains(&own) && multicast % 2 == 1
}

// Whether the multicast byte has the address: its most significant bit is 248, its least 255.
#[tactic(auto, unfolding(bsmp::specs::Packet::in_multicast, bsmp::specs::Base::has))]
pub fn in_multicast(multicast: u8, address: u8) -> bool
    ensures { result ≡ in_multicast multicast address }
{
    248 <= address && (multicast >> (255 - address)) % 2 == 1
}

// What a packet yields: a message, which stands from place 1 up to the last byte, with whether an answer is due, or its refusal: 2 to 6, in
// this order. `room` is the length of the reply buffer.
#[tactic(auto, unfolding(crate::specs::Opening::opened_of, bsmp::specs::Base::first))]
pub fn open(packet: &[u8], own: u8, multicast: u8, room: usize) -> Result<bool, Refusal>
    ensures { result ≡ opened_of (placed own multicast) room packet.now }
{
    if !usable_place(own, multicast) {
        return Err(Refusal::BadAddress);
    }
    if room < 4104 {
        return Err(Refusal::ReplyBufferShort);
    }
    if !(2..=4104).contains(&packet.len()) {
        return Err(Refusal::PacketLength);
    }
    if lists::byte_sum(packet) != 0 {
        return Err(Refusal::Checksum);
    }
    let destination = packet[0];
    if destination == own {
        return Ok(true);
    }
    if in_multicast(multicast, destination) {
        return Ok(false);
    }
    Err(Refusal::NotForThisBoard)
}

// That the buffer has room for a packet stands as a clause, here and above: what is lent is a slice, which holds no invariant.
// Closes a packet whose payload of `size` bytes stands at 4; answers the packet's length. The head is added to the payload's
// sum and not read back, since bytes just stored are slow to load.
pub fn close(packet: &mut [u8], destination: u8, code: u8, size: usize) -> usize
    requires { (size ≤ 4099) × (4104 ≤ length packet.old) }
    ensures { let message = message_of code (part packet.old 4 size) in
        (result ≡ size + 5) × (packet.new ≡ put packet.old 0 (packed destination message)) }
{
    let end = 4 + size;
    let [high, low] = (size as u16).to_be_bytes();
    let sum = lists::byte_sum(&packet[4..end])
        .wrapping_add(destination)
        .wrapping_add(code)
        .wrapping_add(high)
        .wrapping_add(low);
    packet[0] = destination;
    packet[1] = code;
    packet[2] = high;
    packet[3] = low;
    packet[end] = sum.wrapping_neg();
    end + 1
}

// Closes a reply, which goes to destination 0.
#[tactic(auto, unfolding(bsmp::specs::Packet::frame))]
pub fn finish(reply: &mut [u8], code: u8, size: usize) -> usize
    requires { (size ≤ 4099) × (4104 ≤ length reply.old) }
    ensures { (result ≡ size + 5) × (reply.new ≡ put reply.old 0 (frame code (part reply.old 4 size))) }
{
    close(reply, 0, code, size)
}
