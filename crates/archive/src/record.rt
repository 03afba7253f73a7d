// A record of an image taken apart, but for its children.
ghost use Rattle.std.specs.Prelude.{◌≡◌, ◌≤◌, length, IfOk};
ghost use Rattle.archive.specs.Archive.{room_left, string_at, strings_at, whole_record, kind_at, label_from, record_at};
ghost use Rattle.datatype.specs.Label.{label_said};
ghost use Rattle.archive.specs.Internal.Said.{room_said, head_said, parts_said, strings_said, read_means};

use crate::NotRead;
use datatype::Label;
use datatype::kind::KINDS;

// How many rows, and how many bytes of names and zones, there is still room for.
#[derive(Clone, Copy)]
pub(crate) struct Room {
    pub(crate) rows: usize,
    pub(crate) bytes: usize,
}

// What a record says, its children's records, what stands behind it, and the room that is left.
#[derive(Clone, Copy)]
pub(crate) struct Head<'a> {
    pub(crate) label: Label<'a>,
    pub(crate) below: &'a [u8],
    pub(crate) behind: &'a [u8],
    pub(crate) room: Room,
}

// Some bytes, and those behind them.
#[derive(Clone, Copy)]
pub(crate) struct Parts<'a> {
    value: &'a [u8],
    rest: &'a [u8],
}

// How many bytes a record has without name, zone and children.
const RECORD_BYTES: usize = 17;

fn room_left(n: usize, room: usize) -> Result<usize, NotRead>
    ensures { read_means (λ n. n) result ≡ room_left n room }
{
    room.checked_sub(n).ok_or(NotRead::NoRoom)
}

// A name or a zone behind its length.
#[tactic(auto, unfolding(crate::specs::Archive::string_at))]
fn string(s: &[u8]) -> Result<Parts<'_>, NotRead>
    ensures { read_means parts_said result ≡ string_at s.now }
{
    let Some((size, rest)) = s.split_first_chunk::<2>() else {
        return Err(NotRead::WrongLength);
    };
    let size = u16::from_le_bytes(*size) as usize;
    let Some((value, rest)) = rest.split_at_checked(size) else {
        return Err(NotRead::WrongLength);
    };
    Ok(Parts { value, rest })
}

// A whole record, and what stands behind it.
#[tactic(auto, unfolding(crate::specs::Archive::whole_record))]
fn whole_record(s: &[u8]) -> Result<Parts<'_>, NotRead>
    ensures taken { read_means parts_said result ≡ whole_record s.now }
    ensures long { IfOk result (λ p. 17 ≤ length p.value.now) }
{
    let Some((size, _)) = s.split_first_chunk::<4>() else {
        return Err(NotRead::WrongLength);
    };
    let size = u32::from_le_bytes(*size) as usize;
    if size < RECORD_BYTES {
        return Err(NotRead::WrongLength);
    }
    let Some((value, rest)) = s.split_at_checked(size) else {
        return Err(NotRead::WrongLength);
    };
    Ok(Parts { value, rest })
}

// A name and a zone, what stands behind them, and how many bytes there is room for then.
#[derive(Clone, Copy)]
pub(crate) struct Named<'a> {
    name: &'a [u8],
    zone: &'a [u8],
    rest: &'a [u8],
    left: usize,
}

#[tactic(auto, unfolding(crate::specs::Archive::strings_at))]
fn strings(s: &[u8], room: usize) -> Result<Named<'_>, NotRead>
    ensures { read_means strings_said result ≡ strings_at s.now room }
{
    let name = string(s)?;
    let bytes = room_left(name.value.len(), room)?;
    let zone = string(name.rest)?;
    let left = room_left(zone.value.len(), bytes)?;
    Ok(Named {
        name: name.value,
        zone: zone.value,
        rest: zone.rest,
        left,
    })
}

// The kind that some bytes begin with.
fn kind_of(s: &[u8]) -> Result<u32, NotRead>
    requires { 2 ≤ length s.now }
    ensures { read_means (λ k. k) result ≡ kind_at s.now }
{
    let kind = u32::from(u16::from_le_bytes([s[0], s[1]]));
    if KINDS <= kind {
        return Err(NotRead::UnknownKind);
    }
    Ok(kind)
}

// What a record says, by the bytes behind its length.
fn label_of<'a>(body: &[u8], kind: u32, named: Named<'a>) -> Label<'a>
    requires { 9 ≤ length body.now }
    ensures { label_said result ≡ label_from body.now kind (strings_said named.entry) }
{
    Label {
        kind,
        role: u32::from(body[2]),
        union_id: u32::from(body[3]),
        number: u32::from_le_bytes([body[4], body[5], body[6], body[7]]),
        scale: u32::from(body[8]),
        name: named.name,
        zone: named.zone,
    }
}

// The record that some bytes begin with.
#[tactic(auto, unfolding(crate::specs::Archive::record_at))]
pub(crate) fn record(s: &[u8], room: Room) -> Result<Head<'_>, NotRead>
    ensures { read_means head_said result ≡ record_at s.now (room_said room) }
{
    let own = whole_record(s)?;
    let (_, body) = own.value.split_at(4);
    let kind = kind_of(body)?;
    let rows = room_left(1, room.rows)?;
    let (_, rest) = body.split_at(9);
    let named = strings(rest, room.bytes)?;
    Ok(Head {
        label: label_of(body, kind, named),
        below: named.rest,
        behind: own.rest,
        room: Room {
            rows,
            bytes: named.left,
        },
    })
}
