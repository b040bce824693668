// What C's structs answer, in words.
use crate::show::{Refused, View, Within};
use crate::tables::Table;
use capi::db_iter::{BavoMoved, BavoPairLookup};
use capi::entry_iter::BavoEntryMoved;
use capi::memtable::{BavoLookup, BavoPresence, bavo_value};
use std::alloc::AllocError;

// What a lookup came to; in a pair, the node is in a table.
#[derive(Clone, Copy, Debug, PartialEq, Eq)]
pub enum Found {
    Absent,
    Deleted,
    Node(Option<Table>, usize),
}

impl Found {
    // By C's number of an answer: 0 absent, 1 found, 2 deleted.
    fn numbered(answer: u32, table: Option<Table>, node: usize) -> Found {
        match answer {
            0 => Found::Absent,
            1 => Found::Node(table, node),
            _ => Found::Deleted,
        }
    }
}

// What a lookup answered.
#[derive(Clone, Copy, Debug, PartialEq, Eq)]
pub struct Lookup {
    pub found: Found,
    pub looks: usize,
}

impl TryFrom<BavoLookup> for Lookup {
    type Error = Refused;

    fn try_from(r: BavoLookup) -> Result<Lookup, Refused> {
        Refused::unless_zero(r.refusal)?;
        Ok(Lookup {
            found: Found::numbered(r.answer, None, r.node),
            looks: r.looks,
        })
    }
}

impl TryFrom<BavoPairLookup> for Lookup {
    type Error = Refused;

    fn try_from(r: BavoPairLookup) -> Result<Lookup, Refused> {
        Refused::unless_zero(r.refusal)?;
        Ok(Lookup {
            found: Found::numbered(r.answer, Table::numbered(r.table), r.node),
            looks: r.looks,
        })
    }
}

impl Lookup {
    // The table of the found node, in a pair.
    pub fn table(self) -> Option<Table> {
        match self.found {
            Found::Node(table, _) => table,
            _ => None,
        }
    }

    // Writes the answer; the image is that of the found node.
    pub fn write(self, image: &[u8], out: &mut String) -> Result<(), AllocError> {
        match self.found {
            Found::Absent => out.push_str("absent")?,
            Found::Deleted => out.push_str("deleted")?,
            Found::Node(table, node) => {
                let value = View::new(image, bavo_value(image, node));
                write!(out, "found {value}{} node {node}", Within(table))?
            }
        }
        write!(out, " looks {}", self.looks)
    }
}

// Whether an entry is held.
pub fn presence(r: BavoPresence, out: &mut String) -> Result<(), AllocError> {
    if let Err(refused) = Refused::unless_zero(r.refusal) {
        return write!(out, "{refused}");
    }
    let held = if r.held == 1 { "held" } else { "not held" };
    write!(out, "{held} looks {}", r.looks)
}

// What a move of either cursor answered: a refusal's number, and the cursor in C's two numbers, as C's structs have them and as a
// caller writes them down. Refused, it is the one that was handed.
#[derive(Clone, Copy, Debug)]
pub struct Moved {
    refusal: u32,
    on: u32,
    node: usize,
}

impl From<BavoMoved> for Moved {
    fn from(r: BavoMoved) -> Moved {
        Moved {
            refusal: r.refusal,
            on: r.table,
            node: r.node,
        }
    }
}

impl From<BavoEntryMoved> for Moved {
    fn from(r: BavoEntryMoved) -> Moved {
        Moved {
            refusal: r.refusal,
            on: r.on,
            node: r.node,
        }
    }
}

impl Moved {
    // Writes where the move led; what stands there, the one who moved the cursor writes.
    pub fn write<F>(self, out: &mut String, write_there: F) -> Result<(), AllocError>
    where
        F: FnOnce(&mut String) -> Result<(), AllocError>,
        requires { F.IsAlwaysCallable write_there }
    {
        let Moved { refusal, on, node } = self;
        match Refused::unless_zero(refusal) {
            Err(refused) => write!(out, "{refused} back {on} {node}"),
            Ok(()) if on == 0 => out.push_str("nowhere"),
            Ok(()) => write_there(out),
        }
    }
}
