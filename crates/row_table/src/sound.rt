// Soundness of a tree: every clause, in one walk over its rows.
ghost use Rattle.std.specs.Prelude.{◌≡◌, ◌-◌, ◌*◌};
ghost use Rattle.row_table.specs.Sound.{id_fits, is_sound};
ghost use Rattle.unchecked_rows.specs.Internal.Run.{row_at, run_at};
ghost use Rattle.row_table.specs.Internal.Check.{standing_of, own_fits, run_fits};

use crate::children::{Children, Run, is_childless};
use crate::names::{is_name_list, name_fits, zone_fits};
use crate::rules::{Standing, below, numbers_fit};
use datatype::kind::KINDS;
use datatype::rows::{MAX_LEVELS, MAX_ROWS, MAX_TEXT, ROW_WORDS};
use datatype::{KeptRows, Row, Tree};
use unchecked_rows::parents_fit;

// Whether the union id is one of a row of a standing. Most rows have none, which is told first.
#[tactic(auto, unfolding(crate::specs::Sound::id_fits))]
fn id_fits(standing: Standing, id: u32) -> bool
    ensures { result ≡ id_fits (standing_of standing) id }
{
    id == 0 || matches!(standing, Standing::UnionField) && id < 128
}

// Whether a row, of a standing, is sound, but for what its children must be.
#[tactic(auto, unfolding(crate::specs::Internal::Check::own_fits, unchecked_rows::specs::Internal::Run::row_at))]
fn row_fits<T: KeptRows>(text: &str, standing: Standing, row: Row<T>) -> bool
    ensures { result ≡ own_fits text.now (standing_of standing) (row_at (T.words row.rows) row.at) }
{
    let kind = row.kind();
    kind < KINDS
        && numbers_fit(kind, row.number(), row.scale())
        && id_fits(standing, row.union_id())
        && name_fits(text, standing, row.role(), row.field())
        && zone_fits(text, kind, row.zone_start(), row.zone_length())
}

// Whether rows nest, are sound by a standing and have at most so many levels.
#[tactic(auto, using(crate::proofs::SoundLaws::turns))]
fn run_fits<T: KeptRows>(text: &str, standing: Standing, level: usize, run: Run<T>) -> bool
    ensures { result ≡ run_fits text.now (standing_of standing) level (run_at (T.words run.rows) run.start (run.end - run.start)) }
{
    let Run { rows, start, end } = run;
    let mut at = start;
    // No `for`: a turn passes a whole subtree, and whether the subtrees nest is what is checked here.
    while at < end {
        let row = Row { rows, at };
        let size = row.subtree();
        if level == 0 || size == 0 || end - at < size || !row_fits(text, standing, row) {
            return false;
        }
        let kind = row.kind();
        let behind = at + size;
        // A row of one is told apart: to walk over no rows below each takes more than half as many instructions again.
        if size == 1 {
            if !is_childless(kind) {
                return false;
            }
        } else {
            let run = Run {
                rows,
                start: at + 1,
                end: behind,
            };
            if !run_fits(text, below(kind), level - 1, run) {
                return false;
            }
            let children = Children { run };
            if !children.fit(kind) {
                return false;
            }
        }
        at = behind;
    }
    true
}

// Whether rows, however they are kept, are a sound tree over a text and a name list.
#[tactic(auto, using(crate::proofs::SoundLaws::sounds, tokenizer::proofs::RustUtf8::test_yes, tokenizer::proofs::RustUtf8::test_no))]
pub fn is_sound_table<T: KeptRows>(text: &[u8], names: &[u8], rows: T) -> bool
    ensures { result ≡ is_sound text.now names.now (T.words rows) }
{
    let words = rows.word_count();
    let n = words / ROW_WORDS;
    let Some(root) = Row::of(rows, 0) else {
        return false;
    };
    if MAX_TEXT < text.len() || !is_name_list(names) || MAX_ROWS < n {
        return false;
    }
    if words != ROW_WORDS * n || root.subtree() != n {
        return false;
    }
    let Ok(text) = str::from_utf8(text) else {
        return false;
    };
    if !parents_fit(rows) {
        return false;
    }
    let all = Run {
        rows,
        start: 0,
        end: n,
    };
    run_fits(text, Standing::Bare, MAX_LEVELS, all)
}

// Whether text, name list and row words are a sound tree.
pub fn is_sound(tree: Tree<'_>) -> bool
    ensures { result ≡ is_sound tree.entry.text.now tree.entry.names.now tree.entry.rows.now }
{
    is_sound_table(tree.text, tree.names, tree.rows)
}
