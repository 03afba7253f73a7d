// Counting the cases of a replay, and printing the counts.
ghost use Rattle.std.specs.Prelude.{◌≡◌};
ghost use Rattle.replay.specs.Sample.{start_at};
ghost use Rattle.replay.specs.Sample.{counted as counted_of};

use crate::Agreement;
use std::io;

// A agreement of no case yet, at a place.
pub(crate) fn start(next: usize) -> Agreement
    ensures { result ≡ start_at next }
{
    Agreement {
        all: 0,
        alike: 0,
        first: None,
        next,
    }
}

// A agreement with one case more.
#[tactic(auto, unfolding(crate::specs::Sample::counted))]
pub(crate) fn counted(t: Agreement, alike: bool, next: usize) -> Agreement
    ensures { result ≡ counted_of t alike next }
{
    let all = t.all.saturating_add(1);
    if alike {
        return Agreement {
            all,
            alike: t.alike.saturating_add(1),
            next,
            ..t
        };
    }
    Agreement {
        all,
        first: t.first.or(Some(all)),
        next,
        ..t
    }
}

// Prints the counts of a sample of so many bytes, and what is wrong if anything is.
pub(crate) fn print(rt: &HostRuntime, what: &str, t: Agreement, size: usize) -> io::Result<()> {
    println!(rt; "{}{what}{} alike", t.all, t.alike)?;
    if let Some(first) = t.first {
        println!(rt; "the first that is not: {first}")?;
    }
    if t.next != size {
        println!(rt; "the sample does not end behind the last")?;
    }
    Ok(())
}
