// The keywords of the kinds, and how an argument is written.

// An argument is left out where it is always 0, or written as a set, in decimal digits, or in decimal digits with a sign.
#[derive(Clone, Copy, PartialEq, Eq)]
pub enum Style {
    Omitted,
    Hex,
    Whole,
    Signed,
}

// The keywords: 16 bytes for each of kinds 0 to 36, which are the keyword's length, the letter of its style and its letters. `letters` of
// specs/Keywords.antt is the same list, made from the entries.
pub const LETTERS: [u8; 592] = *b"\x00o..............\
    \x06wsystem........\
    \x07whandler.......\
    \x0bhpermissions...\
    \x05hguard.........\
    \x00o..............\
    \x00o..............\
    \x00o..............\
    \x00o..............\
    \x00o..............\
    \x00o..............\
    \x00o..............\
    \x00o..............\
    \x00o..............\
    \x00o..............\
    \x00o..............\
    \x08wconstant......\
    \x06snumber........\
    \x06wstring........\
    \x04wname..........\
    \x08wvariable......\
    \x08ofunction......\
    \x05oapply.........\
    \x03olet...........\
    \x08osequence......\
    \x02oif............\
    \x05owhile.........\
    \x09woperation.....\
    \x06orecord........\
    \x03oget...........\
    \x03oset...........\
    \x06odelete........\
    \x04ocell..........\
    \x04oread..........\
    \x06oassign........\
    \x04hsend..........\
    \x08hexercise......";
