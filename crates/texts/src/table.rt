/// Where a part begins and ends in its text.
#[derive(Clone, Copy)]
pub struct Span {
    pub from: u8,
    pub to: u8,
}

/// A list of at most 64 rows. A text of 128 bytes has no more parts of a kind.
// Not a `Vec` or an `ArrayVec`: a label is read without a heap, and is `Copy`. No ghost field says `count ≤ 64`: the check covers no match
// that lends a part of an enum which holds a struct with one, as on a `Versioning`; so what is read is clipped to the room,
// and the bound is a clause, `few`, where a count of rows is handed out.
#[derive(Clone, Copy)]
pub struct Rows<T> {
    pub(crate) rows: [T; 64],
    pub(crate) count: u8,
}
