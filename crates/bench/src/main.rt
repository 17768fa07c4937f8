// The bench: board A over standard input. Records of a two-byte length and a packet; one line for each.
#![tactic(auto)]

ghost use Rattle.std.specs.Prelude.{◌≡◌, ◌+◌, ◌≤◌, length, IfSome};

use bsmp::{Outcome, Refusal};
use records::{Groups, Records};
use std::io::Read;
use text::Page;

const CURVES: [u32; 3] = [1, 4, 2];

const FUNCTIONS: [u8; 2] = [1, 2];

// Board A, with its state.
#[derive(Drop)]
struct BoardA {
    records: Records,
    groups: Groups,
    values: [u8; 7],
    blocks: [u8; 8],
    lengths: [u16; 2],
    sums: [u8; 16],
}

impl BoardA {
    // Its variables: 0 read-only, signed big endian; 1 writable, plain; 2 writable, unsigned little endian.
    fn new() -> BoardA {
        let mut records = Records {
            count: 3,
            writable: [0; 64],
            sizes: [0; 64],
            kinds: [0; 64],
        };
        records.sizes[0] = 4;
        records.kinds[0] = 3;
        records.writable[1] = 1;
        records.sizes[1] = 1;
        records.writable[2] = 1;
        records.sizes[2] = 2;
        records.kinds[2] = 2;
        BoardA {
            records,
            groups: Groups {
                count: 0,
                sets: [0; 5],
            },
            values: [0xFF, 0xFF, 0xFF, 0xFD, 0x5A, 0x34, 0x12],
            blocks: [0; 8],
            lengths: [0; 2],
            sums: [0; 16],
        }
    }

    // Its lengths and sums, before the first packet.
    fn start(&mut self) -> Result<(), Refusal> {
        results::fresh_board(
            &self.records,
            &CURVES,
            &FUNCTIONS,
            &self.groups,
            &self.values,
            &self.blocks,
            &mut self.lengths,
            &mut self.sums,
        )
    }

    // One packet, on the board as it is lent to the node.
    fn answer(&mut self, packet: &[u8], reply: &mut [u8]) -> Outcome {
        node::packet(
            &self.records,
            &CURVES,
            &FUNCTIONS,
            &mut self.groups,
            5,
            0x81,
            0,
            &mut self.values,
            &mut self.blocks,
            &mut self.lengths,
            &mut self.sums,
            packet,
            reply,
        )
    }
}

// A line on standard error; where that can't be written either, nobody is left to tell.
fn say(rt: &impl Eprint, line: &str) {
    let _ = rt.eprintln(line);
}

// Lines to standard output. Where they can't be written, it says so on standard error and goes on.
fn put(rt: &(impl Print + Eprint), lines: &[u8]) {
    if rt.write_all(lines).is_err() {
        say(rt, "bench: its output can't be written");
    }
}

// The packet of the whole record at the front, if it is whole.
fn first(records: &[u8]) -> Option<&[u8]>
    ensures { IfSome result (λ packet. length packet.now + 2 ≤ length records.now) }
{
    let [high, low, rest @ ..] = records else {
        return None;
    };
    rest.get(..u16::from_be_bytes([*high, *low]) as usize)
}

// The lines that wait to be written. No heap is used, so there is room for so many bytes, and how many are used.
#[derive(Drop)]
struct Lines {
    bytes: [u8; 131072],
    used: usize,
    ghost within: { used ≤ 131072 },
}

impl Lines {
    fn write(&mut self, rt: &(impl Print + Eprint))
        ensures { self.new.used ≡ 0 }
    {
        put(rt, &self.bytes[..self.used]);
        self.used = 0;
    }

    // Writes those that wait where there may be no room for one more.
    fn make_room(&mut self, rt: &(impl Print + Eprint))
        ensures { self.new.used + 9000 ≤ 131072 }
    {
        if self.bytes.len() - self.used < 9000 {
            self.write(rt);
        }
    }

    // The line of an outcome.
    fn add(
        &mut self,
        rt: &(impl Print + Eprint),
        number: u64,
        outcome: Outcome,
        packet: &[u8],
        reply: &[u8],
    )
        requires { length reply.now ≡ 4104 }
    {
        self.make_room(rt);
        let mut page = Page {
            out: &mut self.bytes,
            at: self.used,
        };
        bench_line::put_line(&mut page, number, outcome, packet, reply);
        page.put_byte(b'\n');
        self.used = page.at;
    }

    // The line of a record that is cut off.
    fn cut(&mut self, rt: &(impl Print + Eprint), number: u64) {
        self.make_room(rt);
        let mut page = Page {
            out: &mut self.bytes,
            at: self.used,
        };
        page.put_number(number);
        page.put_text(b" cut\n");
        self.used = page.at;
        self.write(rt);
    }
}

// The board at work: the number of its next packet, its reply, and the lines.
#[derive(Drop)]
struct Desk {
    board: BoardA,
    number: u64,
    reply: [u8; 4104],
    lines: Lines,
}

impl Desk {
    // One packet, with its line.
    fn answer(&mut self, rt: &(impl Print + Eprint), packet: &[u8]) {
        let outcome = self.board.answer(packet, &mut self.reply);
        self.lines
            .add(rt, self.number, outcome, packet, &self.reply);
        self.number = self.number.wrapping_add(1);
    }

    // Every whole record, and all lines written; answers how many bytes are left.
    fn drain(&mut self, rt: &(impl Print + Eprint), records: &[u8]) -> usize
        ensures { result ≤ length records.now }
    {
        let mut rest = records;
        while let Some(packet) = first(rest) {
            self.answer(rt, packet);
            rest = &rest[packet.len() + 2..];
        }
        self.lines.write(rt);
        rest.len()
    }
}

// One read. Where the input can't be read, it says so on standard error and goes on as at its end.
fn fill(rt: &impl Eprint, input: &mut impl Read, part: &mut [u8]) -> usize
    ensures { result ≤ length part.old }
{
    match input.read(part) {
        Ok(n) => n,
        Err(_) => {
            say(rt, "bench: its input can't be read");
            0
        }
    }
}

// Each turn reads a byte or more, and no input has 2^64.
fn run(rt: &(impl Print + Eprint), input: &mut impl Read, desk: &mut Desk) {
    let mut buf = [0u8; 131072];
    let mut have = 0;
    for _ in 0..u64::MAX {
        let n = fill(rt, input, &mut buf[have..]);
        if n == 0 {
            break;
        }
        let all = have + n;
        have = desk.drain(rt, &buf[..all]);
        buf.copy_within(all - have..all, 0);
    }
    if 0 < have {
        desk.lines.cut(rt, desk.number);
    }
}

fn main(rt: HostRuntime) {
    let mut input = rt.stdin();
    let mut board = BoardA::new();
    if board.start().is_err() {
        say(&rt, "bench: its board is refused");
    }
    let mut desk = Desk {
        board,
        number: 1,
        reply: [0; 4104],
        lines: Lines {
            bytes: [0; 131072],
            used: 0,
        },
    };
    run(&rt, &mut input, &mut desk);
}
