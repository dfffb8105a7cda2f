// Runs the methods of PermSet at the edges of its width and prints what each answers.
#![tactic(auto)]

use permset::PermSet;
use std::io;
use std::io::Write;

fn number(out: &mut impl Write, label: &[u8], n: u32) -> io::Result<()> {
    out.write_all(label)?;
    write!(out, "{n}")
}

fn set(out: &mut impl Write, label: &[u8], s: PermSet) -> io::Result<()> {
    out.write_all(label)?;
    let bits = s.bits;
    write!(out, "{bits:06x}")
}

fn answer(out: &mut impl Write, label: &[u8], yes: bool) -> io::Result<()> {
    out.write_all(label)?;
    if yes {
        out.write_all(b"yes")
    } else {
        out.write_all(b"no")
    }
}

fn end(out: &mut impl Write) -> io::Result<()> {
    out.write_all(b"\n")
}

// One set by itself, with the membership of the index i.
fn one(out: &mut impl Write, bits: u32, i: u32) -> io::Result<()> {
    let s = PermSet::of(bits);
    set(out, b"set ", s)?;
    answer(out, b" empty ", s.is_empty())?;
    answer(out, b" valid ", s.valid())?;
    number(out, b" lowest ", s.lowest())?;
    number(out, b" has ", i)?;
    answer(out, b" ", s.has(i))?;
    end(out)
}

// Two sets.
fn two(out: &mut impl Write, first: u32, second: u32) -> io::Result<()> {
    let s = PermSet::of(first);
    let t = PermSet::of(second);
    set(out, b"sets ", s)?;
    set(out, b" ", t)?;
    set(out, b" union ", s.union(t))?;
    set(out, b" difference ", s.difference(t))?;
    answer(out, b" within ", s.within(t))?;
    answer(out, b" same ", s == t)?;
    end(out)
}

fn main(rt: HostRuntime) -> io::Result<()> {
    let out = &mut rt.stdout();
    set(out, b"empty ", PermSet::empty())?;
    end(out)?;
    one(out, 0, 0)?;
    one(out, 0, 31)?;
    one(out, 0, 32)?;
    one(out, 1, 0)?;
    one(out, 1, 1)?;
    one(out, 0x800000, 23)?;
    one(out, 0x800000, 22)?;
    one(out, 0xffffff, 23)?;
    one(out, 0xffffff, 24)?;
    one(out, 0x1000000, 24)?;
    one(out, 0x80000000, 31)?;
    one(out, 0x80000000, 32)?;
    one(out, 0xffffffff, 4294967295)?;
    one(out, 0xc, 3)?;
    two(out, 0, 0)?;
    two(out, 0, 0xffffff)?;
    two(out, 0xffffff, 0)?;
    two(out, 0xffffff, 0xffffff)?;
    two(out, 1, 0x800000)?;
    two(out, 0x800000, 0xffffff)?;
    two(out, 0xffffff, 0x800000)?;
    two(out, 6, 3)?;
    two(out, 3, 6)?;
    two(out, 2, 6)?;
    two(out, 5, 2)
}
