// What the words of a table are tested against.
ghost use Rattle.std.specs.Prelude.{◌≡◌, ◌*◌, ◌≤◌, length};
ghost use Rattle.rows.specs.Laid.{Sized};

use rows::layout::Layout;

// The words of a table, their links and masks, and the words of an estimate of its layout.
#[derive(Clone, Copy)]
pub struct View<'a> {
    pub words: &'a [u32],
    pub links: &'a [u32],
    pub masks: &'a [u32],
    pub estimate: &'a [u32],
    pub layout: Layout,
    pub ghost tabled: { length words.now ≡ layout.size },
    pub ghost sized: { Sized layout estimate.now },
    pub ghost masked: { 4 * layout.row ≤ length masks.now },
}
