// A sample of any kind: how many cases, and then the cases.
ghost use Rattle.std.specs.Prelude.{◌≡◌, ℕ, List};
ghost use Rattle.replay.specs.declared.Agreement.{Agreement};
ghost use Rattle.replay.specs.Sample.{replayed};

use crate::Agreement;
use crate::counts::start;
use crate::stored::number_at;

// A kind of sample, with the buffers that its cases are lent.
pub(crate) trait Sample {
    // The agreement of a sample with the case that stands behind it.
    ghost one_of: { List ℕ → Agreement → Agreement };

    // What the buffers hold makes no difference.
    fn one(&mut self, sample: &[u8], t: Agreement) -> Agreement
        ensures { result ≡ one_of sample.now t };
}

// The agreement of a whole sample.
#[tactic(auto, using(crate::proofs::Times::times_steps), unfolding(crate::specs::Sample::replayed))]
pub(crate) fn replay<S: Sample>(kind: &mut S, sample: &[u8]) -> Agreement
    ensures { result ≡ replayed (S.one_of sample.now) sample.now }
{
    let cases = number_at(sample, 0);
    let mut t = start(cases.next);
    for _ in 0..cases.value {
        t = kind.one(sample, t);
    }
    t
}
