// The command `manifest`.
ghost use Rattle.std.specs.Prelude.{◌≤◌, length};
ghost use Rattle.text.specs.Writing.{Wrote};
ghost use Rattle.manifest.specs.Manifest.{accepted};
ghost use Rattle.commands.specs.Printed.{outcome_text, manifest_text};

use manifest::numbers::refusal_number;
use manifest::read::read;
use report::refusal_line;
use text::{number_field, put, set_field};

// The line of an accepted manifest.
fn accepted_line(out: &mut [u8], version: u32, set: u32, others: u32) -> usize
    requires { 96 ≤ length out.old }
    ensures { Wrote out.old 0 (outcome_text (accepted version set others)) out.new result }
{
    let a = number_field(out, 0, b"version ", version as u64);
    let b = set_field(out, a, b" set ", set);
    let c = number_field(out, b, b" other ", others as u64);
    put(out, c, b"\n")
}

// The version and the permission set of a manifest.
pub fn manifest_text(input: &[u8], out: &mut [u8]) -> usize
    requires { 96 ≤ length out.old }
    ensures { Wrote out.old 0 (manifest_text input.now) out.new result }
{
    match read(input) {
        Ok(m) => accepted_line(out, m.version, m.set.bits, m.others),
        Err(r) => refusal_line(out, 0, refusal_number(r), 0),
    }
}
