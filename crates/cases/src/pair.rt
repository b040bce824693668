// The calls over both tables: the lookup in a pair, the moves of the visible cursor, its views.
use crate::answers::{Found, Lookup, Moved};
use crate::entry::Key;
use crate::given::number;
use crate::show::{Refused, View, Within};
use crate::state::State;
use crate::tables::Table;
use crate::trouble::{NoLine, Trouble};
use capi::db_iter::{
    BavoCursor, BavoMoved, bavo_first, bavo_next, bavo_pair_get, bavo_prev, bavo_seek,
};
use capi::memtable::{BavoView, bavo_value};
use capi::row_views::{BavoRowView, bavo_row_key, bavo_row_refusal, bavo_row_value};
use std::alloc::{AllocError, Global};

// The images of both tables.
#[derive(Clone, Copy)]
struct Pair<'a> {
    first: &'a [u8],
    second: &'a [u8],
}

impl<'a> Pair<'a> {
    fn of(state: &'a State) -> Pair<'a> {
        Pair {
            first: state.memory(Table::A).image.as_slice(),
            second: state.memory(Table::B).image.as_slice(),
        }
    }

    // The image of a table; of none, any.
    fn image(self, table: Option<Table>) -> &'a [u8] {
        match table {
            Some(Table::B) => self.second,
            _ => self.first,
        }
    }

    // A view of a row in the image of its table.
    fn view(self, v: BavoRowView) -> View<'a> {
        let image = self.image(Table::numbered(v.table));
        let view = BavoView {
            refusal: v.refusal,
            offset: v.offset,
            length: v.length,
        };
        View::new(image, view)
    }

    // A lookup in the pair.
    fn get(self, key: &Key) -> Result<Lookup, Refused> {
        Lookup::try_from(bavo_pair_get(self.first, self.second, key.bytes.as_slice(), key.number))
    }

    // What it answered.
    fn write_lookup(self, key: &Key, out: &mut String) -> Result<(), AllocError> {
        match self.get(key) {
            Ok(lookup) => lookup.write(self.image(lookup.table()), out),
            Err(refused) => write!(out, "{refused}"),
        }
    }

    // The value that a lookup found, or that there is none.
    fn write_row(self, key: &Key, out: &mut String) -> Result<(), AllocError> {
        match self.get(key).map(|lookup| lookup.found) {
            Ok(Found::Node(table, node)) => {
                let image = self.image(table);
                write!(out, "{}", View::new(image, bavo_value(image, node)))
            }
            Ok(_) => out.push_str("none"),
            Err(refused) => write!(out, "{refused}"),
        }
    }

    // The row at a cursor, and its place.
    fn write_row_at(self, at: BavoCursor, out: &mut String) -> Result<(), AllocError> {
        let key = self.view(bavo_row_key(self.first, self.second, at));
        let value = self.view(bavo_row_value(self.first, self.second, at));
        let within = Within(Table::numbered(at.table));
        write!(out, "{key}={value}{within} node {}", at.node)
    }

    // A view with its table, or that it is nowhere.
    fn write_view(self, v: BavoRowView, out: &mut String) -> Result<(), AllocError> {
        match Table::numbered(v.table) {
            None if v.refusal == 0 => out.push_str("\"\" nowhere"),
            table => self.view(v).write_at(table, out),
        }
    }
}

// The snapshot that @ and its number give.
fn snapshot(s: &[u8]) -> Result<u64, NoLine> {
    number(s.strip_prefix(b"@").ok_or(NoLine)?)
}

// Takes the visible cursor where a move led, and writes that.
fn go(r: BavoMoved, state: &mut State, out: &mut String) -> Result<(), AllocError> {
    let at = BavoCursor {
        table: r.table,
        node: r.node,
    };
    state.cursor = at;
    let pair = Pair::of(state);
    Moved::from(r).write(out, |out| pair.write_row_at(at, out))
}

// What a line asks of both tables.
pub fn ask(
    alloc: Global,
    words: &[&[u8]],
    state: &mut State,
    out: &mut String,
) -> Result<(), Trouble> {
    let at = state.cursor;
    let pair = Pair::of(state);
    let Pair { first, second } = pair;
    match words {
        [b"pair_get", key] => pair.write_lookup(&Key::new(alloc, key)?, out)?,
        [b"row", key] => pair.write_row(&Key::new(alloc, key)?, out)?,
        [b"first", n] => go(bavo_first(first, second, snapshot(n)?, at), state, out)?,
        [b"seek", key] => {
            let key = Key::new(alloc, key)?;
            let r = bavo_seek(first, second, key.number, at, key.bytes.as_slice());
            go(r, state, out)?
        }
        [b"next", n] => go(bavo_next(first, second, snapshot(n)?, at), state, out)?,
        [b"prev", n] => go(bavo_prev(first, second, snapshot(n)?, at), state, out)?,
        [b"row_key"] => pair.write_view(bavo_row_key(first, second, at), out)?,
        [b"row_value"] => pair.write_view(bavo_row_value(first, second, at), out)?,
        [b"row_refusal"] => write!(out, "{}", bavo_row_refusal(first, second, at))?,
        _ => return Err(Trouble::NoLine),
    }
    Ok(())
}
