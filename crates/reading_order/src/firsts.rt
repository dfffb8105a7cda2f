// The first words of a table's blocks.
ghost use Rattle.std.specs.Prelude.{◌≡◌, ◌≤◌, length};
ghost use Rattle.table.specs.Scan.{accepted, reading};
ghost use Rattle.table.specs.Code.{code};
ghost use Rattle.table.specs.Links.{LinksOf};
ghost use Rattle.graph.specs.Answer.{starting_with};

use table_links::{link, link_at};

// By the links of the words: the next block stands where a link says, so no range counts b.
fn list_linked(words: &[u32], links: &[u32], firsts: &mut [u32]) -> usize
    requires { (reading words.now ≡ accepted) × LinksOf words.now links.now × (length (code words.now).blocks ≤ length firsts.old) }
    ensures { (result ≡ length (code words.now).blocks)
        × (firsts.new ≡ starting_with (code words.now).blocks firsts.old) }
{
    let mut n = 0;
    let mut b = 1;
    while b < words.len() {
        firsts[n] = b as u32;
        n += 1;
        b = link_at(links, b + 3).end;
    }
    n
}

// From the start of a slice, and how many there are.
pub fn list_firsts(words: &[u32], firsts: &mut [u32]) -> usize
    requires { (reading words.now ≡ accepted) × (length (code words.now).blocks ≤ length firsts.old) }
    ensures { (result ≡ length (code words.now).blocks)
        × (firsts.new ≡ starting_with (code words.now).blocks firsts.old) }
{
    let mut links = [0u32; 1024];
    link(words, &mut links);
    list_linked(words, &links, firsts)
}
