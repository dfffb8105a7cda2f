// What the layers above see of an accepted table: the item at a word, and the links, which `link` writes into a lent slice.
#![tactic(auto)]

ghost use Rattle.std.specs.Prelude.{◌≡◌, false, suc, ◌<◌, ◌≤◌, length, get_or, set};
ghost use Rattle.table.specs.Words.{parts};
ghost use Rattle.table.specs.Item.{set_of, handler_at, item_at};
ghost use Rattle.table.specs.Links.{pack, link_at, hops, ends, with_binder, with_home, outward, innermost, bind_parts, block_at, bind_word, binders, linked};

use permset::PermSet;
use table::{Handler, Item, Link, argument_of, arity_of, binds, kind_of, kinds, term_of};

// The argument of the word at a place as a set, the empty one past the end.
fn set_at(words: &[u32], p: usize) -> PermSet
    ensures { result ≡ set_of (get_or words.now p 0) }
{
    if p < words.len() {
        PermSet::of(argument_of(words[p]))
    } else {
        PermSet::empty()
    }
}

// The block whose first word is at a place.
#[tactic(auto, unfolding(table::specs::Item::handler_at))]
pub fn handler_at(words: &[u32], p: usize) -> Handler
    requires { p < length words.now }
    ensures { result ≡ handler_at words.now p }
{
    Handler {
        name: argument_of(words[p]),
        perms: set_at(words, p + 1),
        guard: set_at(words, p + 2),
    }
}

// What stands at a place.
#[tactic(auto, unfolding(table::specs::Item::item_at))]
pub fn item_at(words: &[u32], p: usize) -> Item
    ensures { result ≡ item_at words.now p }
{
    if words.len() <= p {
        return Item::Gap;
    }
    let w = words[p];
    match kind_of(w) {
        kinds::BLOCK => Item::Block(handler_at(words, p)),
        0..kinds::FIRST_TERM => Item::Gap,
        _ => Item::Term(term_of(w)),
    }
}

// The link at a place, from a slice that holds them.
#[tactic(auto, unfolding(table::specs::Links::link_at))]
pub fn link_at(links: &[u32], p: usize) -> Link
    ensures { result ≡ link_at links.now p }
{
    if p < links.len() {
        Link::unpack(links[p])
    } else {
        Link::unpack(0)
    }
}

// Writes the link of the word at a place. Past the end it writes nothing.
fn set_link(links: &mut [u32], p: usize, link: Link)
    ensures { links.new ≡ set links.old p (pack link) }
{
    if p < links.len() {
        links[p] = link.pack();
    }
}

// The place after so many terms, from a place on. `count_out` follows another field of the links: one function for both would take a
// closure for the field, and both are as short as a call of it.
#[tactic(auto, using(crate::proofs::Iterate::iterate_more, crate::proofs::Iterate::iterate_done))]
fn hop(links: &[u32], count: usize, p: usize) -> usize
    ensures { result ≡ hops links.now count p }
{
    let mut at = p;
    for _ in 0..count {
        at = link_at(links, at).end;
    }
    at
}

// The ends of all terms, from the last word to the first.
#[tactic(auto, using(crate::proofs::Passes::ends_more, crate::proofs::Passes::ends_done))]
fn link_ends(words: &[u32], links: &mut [u32])
    requires { length words.now ≤ length links.old }
    ensures { links.new ≡ ends words.now (length words.now) links.old }
{
    for p in (0..words.len()).rev() {
        let end = hop(links, arity_of(words[p]), p + 1);
        links[p] = Link {
            end,
            binder: 0,
            home: 0,
        }
        .pack();
    }
}

// The binder of the word at a place.
#[tactic(auto, unfolding(table::specs::Links::with_binder))]
fn set_binder(links: &mut [u32], p: usize, binder: usize)
    ensures { links.new ≡ with_binder links.old p binder }
{
    let link = link_at(links, p);
    set_link(links, p, Link { binder, ..link });
}

// The block of the word at a place.
#[tactic(auto, unfolding(table::specs::Links::with_home))]
fn set_home(links: &mut [u32], p: usize, home: usize)
    ensures { links.new ≡ with_home links.old p home }
{
    let link = link_at(links, p);
    set_link(links, p, Link { home, ..link });
}

// The binder that is so many binders out.
#[tactic(auto, using(crate::proofs::Iterate::iterate_more, crate::proofs::Iterate::iterate_done))]
fn count_out(links: &[u32], count: usize, binder: usize) -> usize
    ensures { result ≡ outward links.now count binder }
{
    let mut at = binder;
    for _ in 0..count {
        at = link_at(links, at).binder;
    }
    at
}

// The binder of part i of the term at a place, whose own binder is given.
fn part_binder(w: u32, i: usize, p: usize, binder: usize) -> usize
    ensures { result ≡ innermost (get_or (parts w) i false) p binder }
{
    if binds(w, i) { p } else { binder }
}

// The binders of the parts of the term at a place.
#[tactic(auto, using(crate::proofs::Passes::parts_more, crate::proofs::Passes::parts_done))]
fn bind_parts(links: &mut [u32], w: u32, p: usize, binder: usize)
    requires { p < 1024 }
    ensures { links.new ≡ bind_parts links.old p binder (parts w) (suc p) }
{
    let mut at = p + 1;
    for i in 0..arity_of(w) {
        let next = link_at(links, at).end;
        set_binder(links, at, part_binder(w, i, p, binder));
        at = next;
    }
}

// What the word at a place says of binders.
#[tactic(auto, unfolding(table::specs::Links::bind_word))]
fn bind_word(links: &mut [u32], w: u32, p: usize)
    requires { p < 1024 }
    ensures { links.new ≡ bind_word w p links.old }
{
    let binder = link_at(links, p).binder;
    match kind_of(w) {
        kinds::BLOCK => set_binder(links, p + 3, p),
        kinds::VARIABLE => {
            let out = count_out(links, argument_of(w) as usize, binder);
            set_binder(links, p, out);
        }
        _ => bind_parts(links, w, p, binder),
    }
}

// The block of a word at a place, where the word before it is in the block `home`.
#[tactic(auto, unfolding(table::specs::Links::block_at))]
pub fn block_of(w: u32, p: usize, home: usize) -> usize
    ensures { result ≡ block_at w p home }
{
    if kind_of(w) == kinds::BLOCK { p } else { home }
}

// The binders and blocks of all words, from the first to the last.
#[tactic(auto, using(crate::proofs::Passes::binders_more, crate::proofs::Passes::binders_done))]
fn link_binders(words: &[u32], links: &mut [u32])
    requires { (length words.now ≤ length links.old) × (length words.now ≤ 1024) }
    ensures { links.new ≡ binders words.now (length words.now) 0 0 links.old }
{
    let mut home = 0;
    for (p, &w) in words.iter().enumerate() {
        home = block_of(w, p, home);
        bind_word(links, w, p);
        set_home(links, p, home);
    }
}

// Writes the links of a table into the first words of a slice, one for each word, and leaves the rest. It leaves all of a slice that is
// too short, and where the table is too long.
#[tactic(auto, unfolding(table::specs::Links::linked))]
pub fn link(words: &[u32], links: &mut [u32])
    ensures { links.new ≡ linked words.now links.old }
{
    if links.len() < words.len() || 1024 < words.len() {
        return;
    }
    link_ends(words, links);
    link_binders(words, links);
}
