// Prints the fingerprints of texts whose values are published with the hash. The escapes of a text are written out on its line.
#![tactic(auto)]

use std::io;
use std::io::Write;

fn line(out: &mut impl Write, label: &[u8], text: &[u8]) -> io::Result<()> {
    let print = fingerprint::fingerprint(text);
    write!(out, "{print:08x} ")?;
    out.write_all(label)?;
    out.write_all(b"\n")
}

fn plain(out: &mut impl Write, text: &[u8]) -> io::Result<()> {
    line(out, text, text)
}

fn main(rt: HostRuntime) -> io::Result<()> {
    let out = &mut rt.stdout();
    plain(out, b"")?;
    plain(out, b"a")?;
    plain(out, b"b")?;
    plain(out, b"c")?;
    plain(out, b"d")?;
    plain(out, b"e")?;
    plain(out, b"f")?;
    plain(out, b"fo")?;
    plain(out, b"foo")?;
    plain(out, b"foob")?;
    plain(out, b"fooba")?;
    plain(out, b"foobar")?;
    plain(out, b"ch")?;
    plain(out, b"cho")?;
    plain(out, b"chongo")?;
    plain(out, b"chongo was here!")?;
    line(out, b"chongo was here!\\n", b"chongo was here!\n")?;
    line(out, b"\\0", b"\0")?;
    line(out, b"a\\0", b"a\0")?;
    line(out, b"foobar\\0", b"foobar\0")?;
    line(out, b"\\xff\\x00\\x00\\x01", b"\xff\x00\x00\x01")
}
