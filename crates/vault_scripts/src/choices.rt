//! The choices of a row: `{old/new}` stands for one of these words, `{1-12}` for one of these numbers.

use crate::text::Text;

/// Adds a row as its run of this number has it, with one choice at each such place, and says how many runs it has in all.
pub(crate) fn put_chosen(row: &str, run: u64, out: &mut Text) -> Option<u64> {
    let (mut left, mut runs) = (run, 1u64);
    for part in row.split('{') {
        match part.split_once('}') {
            Some((choices, behind)) => {
                let count = put_choice(choices, left, out)?;
                out.put(behind);
                left = left.checked_div(count)?;
                runs = runs.checked_mul(count)?;
            }
            None => out.put(part),
        }
    }
    Some(runs)
}

/// Adds the choice of this number, modulo the number of choices, and says how many there are.
fn put_choice(choices: &str, number: u64, out: &mut Text) -> Option<u64> {
    match range_of(choices) {
        Some((low, high)) => {
            let count = high.checked_sub(low)?.checked_add(1)?;
            out.put_value(&low.checked_add(number.checked_rem(count)?)?, "");
            Some(count)
        }
        None => {
            let count = choices.split('/').count();
            let number = number.checked_rem(count as u64)?;
            out.put(choices.split('/').nth(number as usize)?);
            Some(count as u64)
        }
    }
}

/// The numbers of `LOW-HIGH`.
fn range_of(choices: &str) -> Option<(u64, u64)> {
    let (low, high) = choices.split_once('-')?;
    Some((low.parse::<u64>().ok()?, high.parse::<u64>().ok()?))
}
