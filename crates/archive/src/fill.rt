// Reading the records of an image into lent rows over a packed text: each is judged, and what it
// says packed, as it is met.
ghost use Rattle.std.specs.Prelude.{◌≤◌, ◌<◌, false, length};
ghost use Rattle.datatype.specs.Limits.{max_rows};
ghost use Rattle.archive.specs.Archive.{records_at, tree_at};
ghost use Rattle.archive.specs.Internal.Said.{room_said};
ghost use Rattle.archive.specs.Internal.Fills.{Fills, FillsTree, Packs, flat_at};

use crate::NotRead;
use crate::record::{Room, record};
use crate::scan::scan;
use datatype::rows::{MAX_LEVELS, MAX_TEXT, rows_lent};
use packing::{Packed, Packer};

// The room that is left behind some records, and whether they have more levels than they may: then
// they are judged, and not all of them are packed.
#[derive(Clone, Copy)]
pub(crate) struct Filled {
    pub(crate) room: Room,
    pub(crate) deep: bool,
}

// Reads records, one behind the other, each with its children's, of so many levels.
fn fill(
    packer: &mut Packer<'_>,
    records: &[u8],
    lent: Room,
    level: usize,
) -> Result<Filled, NotRead>
    requires few { lent.rows < max_rows }
    ensures { Fills false level (records_at (length records.now) records.now (room_said lent)) packer.old result packer.new }
{
    if level == 0 {
        let room = scan(records, 0, records.len(), lent)?;
        let deep = !records.is_empty();
        return Ok(Filled { room, deep });
    }
    let mut rest = records;
    let mut room = lent;
    let mut deep = false;
    // No range has the places: each record begins where the one before it ended.
    while !rest.is_empty() {
        let head = record(rest, room)?;
        let row = packer.packed.rows;
        packer.put_row(head.label, 0);
        let below = fill(packer, head.below, head.room, level - 1)?;
        packer.set_subtree(row);
        deep |= below.deep;
        room = below.room;
        rest = head.behind;
    }
    Ok(Filled { room, deep })
}

// Reads an image into an empty packer: whether it has more levels than a tree may.
fn fill_tree(packer: &mut Packer<'_>, image: &[u8], lent: Room) -> Result<bool, NotRead>
    requires few { lent.rows ≤ max_rows }
    ensures { FillsTree (tree_at image.now (room_said lent)) packer.old result packer.new }
{
    let head = record(image, lent)?;
    let row = packer.packed.rows;
    packer.put_row(head.label, 0);
    let below = fill(packer, head.below, head.room, MAX_LEVELS - 1)?;
    packer.set_subtree(row);
    if !head.behind.is_empty() {
        return Err(NotRead::WrongLength);
    }
    Ok(below.deep)
}

// Packs what an image says into lent rows and a lent text, with the parents set. They are left open
// on a refusal.
pub(crate) fn pack(image: &[u8], rows: &mut [u32], text: &mut [u8]) -> Result<Packed, NotRead>
    ensures { Packs (flat_at image.now rows.old text.old) rows.old text.old result rows.new text.new }
{
    let room = Room {
        rows: rows_lent(rows.len()),
        bytes: text.len().min(MAX_TEXT),
    };
    let mut packer = Packer {
        rows,
        text,
        packed: Packed { rows: 0, bytes: 0 },
    };
    let deep = fill_tree(&mut packer, image, room)?;
    if deep {
        return Err(NotRead::NotSound);
    }
    packer.set_parents();
    Ok(packer.packed)
}
