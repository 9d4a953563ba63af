//! What the line of a report says.

/// A line and a column of a text, from 1 and in bytes, in the order of the text.
#[derive(Clone, Copy, PartialEq, Eq, PartialOrd, Ord)]
pub struct Place {
    pub line: usize,
    pub column: usize,
}

/// The fault of a text, as a report tells it.
#[derive(Clone, Copy)]
pub struct Fault<'a> {
    pub file: &'a str,
    pub place: Place,
    pub number: u8,
}

/// The fault that a line tells, or none where it has another form.
pub fn fault_of(line: &str) -> Option<Fault<'_>> {
    let (file, after) = line.split_once(':')?;
    let (row, after) = after.split_once(':')?;
    let (column, after) = after.split_once(": ")?;
    let number = after.split(' ').next()?;
    let place = Place {
        line: row.parse().ok()?,
        column: column.parse().ok()?,
    };
    Some(Fault {
        file,
        place,
        number: number.parse().ok()?,
    })
}
