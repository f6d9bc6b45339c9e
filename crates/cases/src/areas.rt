//! The root table that a case lends, as sevens, so that what is written shows. It has one entry more than a book may have.
ghost use Rattle.std.specs.Prelude.{◌≡◌, length};

// The `ensures` gives only the length, which lending the array as a slice needs.
pub fn roots() -> [u64; 65537]
    ensures { 65537 ≡ length result }
{
    [7; 65537]
}
