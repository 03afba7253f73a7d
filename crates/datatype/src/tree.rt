// A tree, as callers hand it over.

// A text, a name list and the row words over them: three parts, since C lends them apart.
#[derive(Clone, Copy)]
pub struct Tree<'a> {
    pub text: &'a [u8],
    pub names: &'a [u8],
    pub rows: &'a [u32],
}
