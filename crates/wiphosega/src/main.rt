// The program: its first argument is the command, standard input is the input.
#![tactic(auto)]

mod arguments;
mod estimates;
mod explain;
mod ordering;
mod printing;
mod receivers;
mod sends;
mod systems;

use crate::arguments::{Command, read_command};
use std::io;

fn main(rt: HostRuntime) -> io::Result<()> {
    let input = &mut rt.stdin();
    let out = &mut rt.stdout();
    match read_command(&rt) {
        Command::Leak => printing::leak(&rt, input, out),
        Command::Deliveries => sends::deliveries(input, out),
        Command::Senders => receivers::senders(&rt, input, out),
        Command::Order => ordering::order(&rt, input, out),
        Command::Estimate => estimates::estimate(&rt, input, out),
        Command::Audit => estimates::audited(&rt, input, out),
        Command::WithInput => printing::with_input(&rt, input, out),
        Command::WithoutInput => printing::without_input(&rt, out),
    }
}
