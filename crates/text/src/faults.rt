// Where a sheet is wrong.

// The sections of a sheet, by their letters.
#[derive(Clone, Copy)]
pub enum Section {
    Y = b'Y' as isize,
    Z = b'Z' as isize,
    R = b'R' as isize,
    L = b'L' as isize,
    T = b'T' as isize,
}

// Where a line stands: its section and its number.
#[derive(Clone, Copy)]
pub struct Spot {
    pub section: Section,
    pub line: usize,
}

// A field is malformed, missing or surplus.
#[derive(Clone, Copy)]
pub struct FieldFault {
    pub spot: Spot,
    pub place: usize,
}

// A line is due, and the text ends before its LF.
#[derive(Clone, Copy)]
pub struct LineDue {
    pub spot: Spot,
}
