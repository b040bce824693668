// The two tables by name. C numbers them from 1; 0 is neither.
use crate::trouble::NoLine;
use std::fmt;

#[derive(Clone, Copy, Debug, PartialEq, Eq)]
pub enum Table {
    A,
    B,
}

impl Table {
    // The table that C means, if it means one.
    pub fn numbered(number: u32) -> Option<Table> {
        match number {
            1 => Some(Table::A),
            2 => Some(Table::B),
            _ => None,
        }
    }
}

impl TryFrom<&[u8]> for Table {
    type Error = NoLine;

    fn try_from(name: &[u8]) -> Result<Table, NoLine> {
        match name {
            b"A" => Ok(Table::A),
            b"B" => Ok(Table::B),
            _ => Err(NoLine),
        }
    }
}

impl fmt::Display for Table {
    fn fmt<W: fmt::Write>(&self, f: &mut fmt::Formatter<W>) -> fmt::Result {
        match self {
            Table::A => f.write_str("A"),
            Table::B => f.write_str("B"),
        }
    }
}
