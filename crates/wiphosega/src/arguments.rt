// The arguments: the command, and sets in hexadecimal digits.
ghost use Rattle.std.specs.Prelude.{◌≤◌, length};

use commands::arguments::value_of;
use std::env::Env;

// The commands that stand in this program, and those of `commands`: with an input to read, or without.
#[derive(Clone, Copy)]
pub enum Command {
    Leak,
    Deliveries,
    Senders,
    Order,
    Estimate,
    Audit,
    WithInput,
    WithoutInput,
}

// The command that a word names.
fn command_of(word: &[u8]) -> Command {
    match word {
        b"leak" => Command::Leak,
        b"deliveries" => Command::Deliveries,
        b"senders" => Command::Senders,
        b"order" => Command::Order,
        b"estimate" => Command::Estimate,
        b"audit" => Command::Audit,
        b"text"
        | b"words"
        | b"join"
        | b"block"
        | b"manifest"
        | b"check"
        | b"pack"
        | b"widen"
        | b"narrow" => Command::WithInput,
        _ => Command::WithoutInput,
    }
}

// The argument at a place, in a buffer; empty where it is absent or longer than the buffer.
pub fn argument<'a>(rt: &impl Env, i: usize, buffer: &'a mut [u8]) -> &'a [u8]
    ensures { length result.now ≤ length buffer.old }
{
    let n = rt.arg(i, buffer).unwrap_or(0);
    &buffer[..n]
}

pub fn read_command(rt: &impl Env) -> Command {
    let mut word = [0u8; 16];
    command_of(argument(rt, 1, &mut word))
}

// The set at a place, in hexadecimal digits.
pub fn set(rt: &impl Env, i: usize) -> Option<u32> {
    let mut digits = [0u8; 16];
    value_of(argument(rt, i, &mut digits), 16)
}
