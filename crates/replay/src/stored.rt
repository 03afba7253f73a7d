// Reading a stored sample: specs/Sample.antt says what its numbers and bytes are. A sample and a place in it are taken
// apart, as the definitions do: what was read keeps the place behind it, and a cursor would be taken apart for each.
ghost use Rattle.std.specs.Prelude.{◌≡◌, length, drop};
ghost use Rattle.replay.specs.Sample.{shift, number_at, numbers_at, after_numbers, after_part};
ghost use Rattle.replay.specs.PrintCase.{bytes_of};
ghost use Rattle.datatype.specs.Tree.{part};

use crate::Number;

// A number with one more digit behind it.
fn shifted(value: u32, digit: u8) -> u32
    ensures { result ≡ shift value digit }
{
    value.saturating_mul(10).saturating_add(u32::from(digit))
}

// The number at a place.
#[tactic(auto, using(crate::proofs::Reading::number_steps), unfolding(crate::specs::Sample::number_at))]
pub(crate) fn number_at(sample: &[u8], at: usize) -> Number
    ensures { result ≡ number_at sample.now at }
{
    let mut value: u32 = 0;
    for i in at..sample.len() {
        let b = sample[i];
        if b < b'0' {
            return Number { value, next: i + 1 };
        }
        value = shifted(value, b - b'0');
    }
    Number {
        value,
        next: at.max(sample.len()),
    }
}

// The bytes from a place on.
pub(crate) fn rest_at(sample: &[u8], at: usize) -> &[u8]
    ensures { result.now ≡ drop at sample.now }
{
    sample.get(at..).unwrap_or(&[])
}

// So many bytes at a place: as `datatype`'s, which is private, and takes places of 32 bits.
pub(crate) fn part_at(sample: &[u8], at: usize, size: u32) -> &[u8]
    ensures { result.now ≡ part sample.now at size }
{
    rest_at(sample, at).get(..size as usize).unwrap_or(&[])
}

// The bytes that such a number stands before: the value is their number, the next place is theirs.
pub(crate) fn bytes_of(sample: &[u8], n: Number) -> &[u8]
    ensures { result.now ≡ bytes_of sample.now n }
{
    part_at(sample, n.next, n.value)
}

// The place behind so many bytes and the byte that ends them.
pub(crate) fn after_part(sample: &[u8], at: usize, size: u32) -> usize
    ensures { result ≡ after_part sample.now at size }
{
    at.saturating_add(size as usize + 1).min(sample.len())
}

// Fills words with the numbers from a place on: the place behind them.
#[tactic(auto, using(crate::proofs::Reading::numbers_steps))]
pub(crate) fn words_at(sample: &[u8], at: usize, out: &mut [u32]) -> usize
    ensures place { result ≡ after_numbers sample.now (length out.old) at }
    ensures words { out.new ≡ numbers_at sample.now (length out.old) at }
{
    let mut next = at;
    for word in out.iter_mut() {
        let n = number_at(sample, next);
        *word = n.value;
        next = n.next;
    }
    next
}
