// Sums of the bytes that a text spells. They wrap, so they take no memory.
ghost use Rattle.std.specs.Prelude.{◌≡◌, ◌%◌, ◌^◌};
ghost use Rattle.nvm_base.specs.Data.{item_of, pair_of, pairs_of, runs_of};
ghost use Rattle.workload.specs.Summary.{told, wrapped};

use nvm_base::read_number;

// The sum of the bytes that a reply tells.
pub(crate) fn told(reply: &[u8]) -> u64
    ensures { result ≡ told reply.now % 2 ^ 64 }
{
    match reply.strip_prefix(b"data ") {
        Some(text) => total_of(text).unwrap_or(0),
        None => 0,
    }
}

// The sum of the bytes that DATA spells, None where the text is no DATA.
fn total_of(text: &[u8]) -> Option<u64>
    ensures { result ≡ wrapped (runs_of text.now) }
{
    let mut total: u64 = 0;
    for item in text.split(|c| *c == b',') {
        total = total.wrapping_add(item_total(item)?);
    }
    Some(total)
}

fn item_total(item: &[u8]) -> Option<u64>
    ensures { result ≡ wrapped (item_of item.now) }
{
    match item {
        [] => None,
        [high, low, b'*', number @ ..] => {
            let byte = byte_of(*high, *low)?;
            match read_number(number) {
                None | Some(0) => None,
                Some(count) => Some(byte.wrapping_mul(count)),
            }
        }
        pairs => pairs_total(pairs),
    }
}

fn pairs_total(pairs: &[u8]) -> Option<u64>
    ensures { result ≡ wrapped (pairs_of pairs.now) }
{
    let mut rest = pairs;
    let mut total: u64 = 0;
    while let [high, low, more @ ..] = rest {
        total = total.wrapping_add(byte_of(*high, *low)?);
        rest = more;
    }
    rest.is_empty().then_some(total)
}

// The byte of two hexadecimal digits.
fn byte_of(high: u8, low: u8) -> Option<u64>
    ensures { result ≡ pair_of high low }
{
    let high = (high as char).to_digit(16)?;
    let low = (low as char).to_digit(16)?;
    Some(u64::from(16 * high + low))
}
