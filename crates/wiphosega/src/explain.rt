// The help, printed.
use std::io;
use std::io::Write;

pub fn help(out: &mut impl Write) -> io::Result<()> {
    let mut text = [0u8; 4096];
    let size = commands::help(&mut text);
    streams::text(out, &text[..size])
}
