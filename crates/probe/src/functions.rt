// The functions by number.
use crate::answer::{Answer, Refusal};
use crate::{masks, scalars, vectors};

// The answer to a line of these fields: the function's number, and its arguments.
pub(crate) fn answer_to(fields: &[u32]) -> Answer {
    let (&number, words) = fields.split_first().ok_or(Refusal::Malformed)?;
    match number {
        0..=29 => scalars::answer(number, words),
        30..=39 => masks::answer(number, words),
        _ => vectors::answer(number, words),
    }
}
