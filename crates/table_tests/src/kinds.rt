// Every kind of term: its arguments at and past their limit, and its parts, one less and one more. The kinds stand as numbers here, as
// document 01 has them: the names of `table::kinds` are what is tested.
use std::io;
use std::io::Write;
use table_links::item_at;
use test_tables::tables::{fill, first, head, put, word};
use test_tables::{end, item, number, text};

// A body of one word, with so many parts, each an empty record.
fn with_parts(out: &mut impl Write, label: &[u8], w: u32, parts: usize) -> io::Result<()> {
    let mut words = [0u32; 9];
    head(&mut words);
    fill(&mut words, 5, 0x1c000000, 0x1c000000);
    put(&mut words, 4, w);
    if parts <= 4 {
        first(out, label, &words, 5 + parts)?;
    }
    Ok(())
}

fn with_argument(
    out: &mut impl Write,
    kind: usize,
    argument: usize,
    parts: usize,
) -> io::Result<()> {
    number(out, b"; argument ", argument)?;
    with_parts(out, b" ", word(kind, argument), parts)
}

fn name(out: &mut impl Write, w: u32) -> io::Result<()> {
    item(out, item_at(&[w], 0))
}

// A kind, how many parts it has, and its highest argument.
fn kind(out: &mut impl Write, kind: usize, parts: usize, highest: usize) -> io::Result<()> {
    let w = word(kind, highest);
    number(out, b"kind ", kind)?;
    text(out, b" ")?;
    name(out, w)?;
    if 0 < highest {
        with_argument(out, kind, 0, parts)?;
    }
    with_argument(out, kind, highest, parts)?;
    if highest < 16777215 {
        with_argument(out, kind, highest + 1, parts)?;
        with_argument(out, kind, 16777215, parts)?;
    }
    if 0 < parts {
        with_parts(out, b"; a part less ", w, parts - 1)?;
    }
    if parts < 4 {
        with_parts(out, b"; a part more ", w, parts + 1)?;
    }
    end(out)
}

fn leaves(out: &mut impl Write) -> io::Result<()> {
    kind(out, 16, 0, 3)?;
    kind(out, 17, 0, 16777215)?;
    kind(out, 18, 0, 22)?;
    kind(out, 19, 0, 31)?;
    kind(out, 20, 0, 0)
}

fn control(out: &mut impl Write) -> io::Result<()> {
    kind(out, 21, 1, 0)?;
    kind(out, 22, 2, 0)?;
    kind(out, 23, 2, 0)?;
    kind(out, 24, 2, 0)?;
    kind(out, 25, 3, 0)?;
    kind(out, 26, 2, 0)?;
    kind(out, 27, 2, 2)
}

fn data(out: &mut impl Write) -> io::Result<()> {
    kind(out, 28, 0, 0)?;
    kind(out, 29, 2, 0)?;
    kind(out, 30, 3, 0)?;
    kind(out, 31, 2, 0)?;
    kind(out, 32, 1, 0)?;
    kind(out, 33, 1, 0)?;
    kind(out, 34, 2, 0)?;
    kind(out, 35, 2, 16777215)?;
    kind(out, 36, 0, 16777215)
}

pub fn run(out: &mut impl Write) -> io::Result<()> {
    leaves(out)?;
    control(out)?;
    data(out)
}
