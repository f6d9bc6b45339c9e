//! The classes of characters that loads and cuts go by (lib.rs; the connectors from hmm.rs). A character is its code point, and each
//! class is decided by a match over the code points that document 01 lists, for Han with those of document 02's note 9. Every number
//! is accepted, code point or not.
// Kept: document 01 names the form, a `match` over the code-point ranges.
#![tactic(auto)]

ghost use Rattle.std.specs.Prelude.{◌≡◌, not};
ghost use Rattle.classes.specs.WhiteSpace.{white_space};
ghost use Rattle.classes.specs.Blocks.{ascii_letter_or_digit, han_main, han_extension, han, cut_sign, cut_class, cut_all_class};
ghost use Rattle.classes.specs.Tokens.{connector, joins};

// Whether c separates the fields of a dictionary line.
pub fn is_white_space(c: u32) -> bool
    ensures { result ≡ white_space c }
{
    match c {
        0x0009..=0x000D
        | 0x0020
        | 0x0085
        | 0x00A0
        | 0x1680
        | 0x2000..=0x200A
        | 0x2028
        | 0x2029
        | 0x202F
        | 0x205F
        | 0x3000 => true,
        _ => false,
    }
}

// Whether c is an ASCII letter or digit.
pub fn is_ascii_alphanumeric(c: u32) -> bool
    ensures { result ≡ ascii_letter_or_digit c }
{
    match c {
        0x30..=0x39 | 0x41..=0x5A | 0x61..=0x7A => true,
        _ => false,
    }
}

// Whether c is in Han's main block. It is tested by itself, before the extensions, since nearly every character of ordinary text is
// in it.
pub fn is_cjk_main(c: u32) -> bool
    ensures { result ≡ han_main c }
{
    match c {
        0x4E00..=0x9FFF => true,
        _ => false,
    }
}

// Whether c is Han outside the main block.
pub fn is_cjk_extension(c: u32) -> bool
    ensures { result ≡ han_extension c }
{
    match c {
        0x3400..=0x4DBF
        | 0xF900..=0xFAFF
        | 0x20000..=0x2A6DF
        | 0x2A700..=0x2B73F
        | 0x2B740..=0x2B81F
        | 0x2B820..=0x2CEAF
        | 0x2CEB0..=0x2EBEF
        | 0x2EBF0..=0x2EE5F
        | 0x2F800..=0x2FA1F
        | 0x30000..=0x3134F
        | 0x31350..=0x323AF => true,
        _ => false,
    }
}

// Whether c is Han.
pub fn is_cjk(c: u32) -> bool
    ensures { result ≡ han c }
{
    is_cjk_main(c) || is_cjk_extension(c)
}

// Whether c is one of the signs in the class of `cut`: + # & . _ % -
fn is_cut_sign(c: u32) -> bool
    ensures { result ≡ cut_sign c }
{
    match c {
        0x2B | 0x23 | 0x26 | 0x2E | 0x5F | 0x25 | 0x2D => true,
        _ => false,
    }
}

// Whether c is in the class of `cut`: Han, ASCII letters and digits, and the signs.
pub fn is_han_default(c: u32) -> bool
    ensures { result ≡ cut_class c }
{
    if is_cjk_main(c) {
        true
    } else if c < 0x80 {
        is_ascii_alphanumeric(c) || is_cut_sign(c)
    } else {
        is_cjk_extension(c)
    }
}

// Whether c is in the class of `cut_all`: Han alone.
pub fn is_han_cut_all(c: u32) -> bool
    ensures { result ≡ cut_all_class c }
{
    is_cjk(c)
}

// Whether c is a connector, at which `cut_for_search` parts a token: . _ - (`is_skip_connector_char` of hmm.rs)
pub fn is_connector(c: u32) -> bool
    ensures { result ≡ connector c }
{
    match c {
        0x2E | 0x5F | 0x2D => true,
        _ => false,
    }
}

// Whether c stands singly outside the class of `cut_all`, where ASCII letters, digits, + # and LF join.
pub fn is_skip_cut_all(c: u32) -> bool
    ensures { result ≡ not (joins c) }
{
    match c {
        0x2B | 0x23 | 0x0A => false,
        _ => !is_ascii_alphanumeric(c),
    }
}
