// The bench's line for an outcome, into a lent buffer.
#![tactic(auto)]

ghost use Rattle.std.specs.Prelude.{◌≡◌, ◌+◌, ◌≤◌, ◌<◌, length};
ghost use Rattle.text.specs.Page.{SameBuffer};

use bsmp::Outcome;
use text::Page;

// Input and reply are each a word and hex: what they share is `put_hex`.
fn put_input(page: &mut Page, input: &[u8])
    requires { (length input.now ≤ 15) × (page.old.at + 31 ≤ length page.old.out.now) }
    ensures at { page.new.at ≤ page.old.at + 31 }
    ensures room { SameBuffer page.old page.new }
{
    if input.is_empty() {
        page.put_text(b"-");
    } else {
        page.put_hex(input);
    }
}

// A function to be run. The input is at place 5 of the packet, and no longer than 15 bytes; the tests keep this function free of that.
fn put_run(page: &mut Page, function: usize, packet: &[u8], input: usize, due: bool)
    requires { page.old.at + 62 ≤ length page.old.out.now }
    ensures at { page.new.at ≤ page.old.at + 62 }
    ensures room { SameBuffer page.old page.new }
{
    page.put_text(if due { b" run " } else { b" runquiet " });
    page.put_number(function as u64);
    page.put_text(b" ");
    if 15 < input {
        return;
    }
    if let Some(input) = packet.get(5..5 + input) {
        put_input(page, input);
    }
}

// A reply of n bytes; the test keeps this function free of the promise that it stands in the buffer.
fn put_answer(page: &mut Page, reply: &[u8], n: usize)
    requires { (length reply.now ≡ 4104) × (page.old.at + 8216 ≤ length page.old.out.now) }
    ensures at { page.new.at ≤ page.old.at + 8216 }
    ensures room { SameBuffer page.old page.new }
{
    page.put_text(b" answer ");
    if let Some(reply) = reply.get(..n) {
        page.put_hex(reply);
    }
}

// The line of an outcome, without its end. That the reply's buffer is a whole one stands as a clause: it is lent as a slice.
pub fn put_line(page: &mut Page, number: u64, o: Outcome, packet: &[u8], reply: &[u8])
    requires { (length reply.now ≡ 4104) × (page.old.at + 9000 ≤ length page.old.out.now) }
    ensures at { page.new.at < page.old.at + 9000 }
    ensures room { SameBuffer page.old page.new }
{
    page.put_number(number);
    match o {
        Outcome::Reply(n) => put_answer(page, reply, n),
        Outcome::Silence => page.put_text(b" silent"),
        Outcome::Run {
            function,
            input,
            due,
        } => put_run(page, function.0, packet, input, due),
        Outcome::Refused(r) => {
            page.put_text(b" refused ");
            page.put_number(u8::from(r) as u64);
        }
    }
}
