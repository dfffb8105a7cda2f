// A block of one of two tables: where it is, and its words as a part of the caller's own slice.
ghost use Rattle.std.specs.Prelude.{◌≡◌};
ghost use Rattle.overlay.specs.Lookup.{place_of, looked_up};
ghost use Rattle.overlay.specs.Answers.{found_as};

use crate::search::seek;
use crate::{Fault, Found, check};

// Where the block with this name and this permission set is: in the overlay if it is there, otherwise in the base.
pub fn find(base: &[u32], overlay: &[u32], name: u32, perms: u32) -> Result<Found, Fault>
    ensures { found_as result ≡ place_of base.now overlay.now name perms }
{
    check(base, overlay)?;
    if let Some((start, end)) = seek(overlay, name, perms) {
        return Ok(Found::Overlay(start, end));
    }
    match seek(base, name, perms) {
        Some((start, end)) => Ok(Found::Base(start, end)),
        None => Err(Fault::NoBlock),
    }
}

// Its words, as a part of the slice that has them; an empty part where it is refused.
pub fn lookup<'a>(base: &'a [u32], overlay: &'a [u32], name: u32, perms: u32) -> &'a [u32]
    ensures { result.now ≡ looked_up base.now overlay.now name perms }
{
    match find(base, overlay, name, perms) {
        Ok(Found::Overlay(start, end)) => &overlay[start..end],
        Ok(Found::Base(start, end)) => &base[start..end],
        Err(_) => &base[..0],
    }
}
