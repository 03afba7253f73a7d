// What a row says.

/// Words 0 and 2 to 5 of a row, and the bytes of its name and of its zone: what the definition of the same name has.
#[derive(Clone, Copy)]
pub struct Label<'a> {
    pub kind: u32,
    pub role: u32,
    pub union_id: u32,
    /// A unit, a length, a precision, a mode, or sorted or not.
    pub number: u32,
    /// A decimal's scale plus 128.
    pub scale: u32,
    pub name: &'a [u8],
    pub zone: &'a [u8],
}
