// The commands of functions: the check of 50, which runs one, and 0C, which lists them.
#![tactic(auto)]

ghost use Rattle.std.specs.Prelude.{◌≡◌, true, [], ◌+◌, ◌*◌, ◌≤◌, length};
ghost use Rattle.bsmp.specs.Board.{usable_functions};
ghost use Rattle.bsmp.specs.Message.{function_list, check};
ghost use Rattle.bsmp.specs.declared.Command.TheVariants.{RunFunction};
ghost use Rattle.parts.specs.Parts.{functions_only, PayloadAt};
ghost use Rattle.records.specs.Lending.{functions_of};

use bsmp::{Function, FunctionNumber, WireError};

// 50
#[tactic(auto, unfolding(bsmp::specs::Message::check, bsmp::specs::Message::line, bsmp::specs::Base::first))]
pub fn check_run(functions: &[u8], payload: &[u8]) -> Result<(), WireError>
    ensures { result ≡ check (functions_only (functions_of functions.now)) [] 0 payload.now RunFunction }
{
    if payload.is_empty() {
        return Err(WireError::BadSize);
    }
    let f = parts::function_at(payload, 0);
    if records::function_count(functions) <= f.0 {
        return Err(WireError::BadId);
    }
    let function = records::function_at(functions, f);
    if payload.len() != 1 + usize::from(function.input) {
        return Err(WireError::BadSize);
    }
    Ok(())
}

// Input count in the high four bits, output in the low four.
fn list_byte(f: Function) -> u8
    requires { (f.input ≤ 15) × (f.output ≤ 15) }
    ensures { result ≡ f.input * 16 + f.output }
{
    f.input * 16 + f.output
}

// 0D: a byte per function.
pub fn list(functions: &[u8], reply: &mut [u8], at: usize) -> usize
    requires functions_value { usable_functions (functions_of functions.now) ≡ true }
    requires at_in_bounds { at + 4099 ≤ length reply.old }
    ensures { let l = functions_only (functions_of functions.now) in
        PayloadAt reply.old at (function_list l) result reply.new }
{
    let n = records::function_count(functions);
    for i in 0..n {
        reply[at + i] = list_byte(records::function_at(functions, FunctionNumber(i)));
    }
    n
}
