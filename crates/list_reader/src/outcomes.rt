// Compares the port's answers with those of a record.
use crate::same;
use doubles::{Refusal, double};

// Whether a call refused as the record says.
pub fn same_refusal(refusal: Refusal, number: u64, place: u64) -> bool {
    refusal.number() as u64 == number && refusal.place as u64 == place
}

// Whether a call answered a number, the refusal's number and place being 0, or refused, the answer then being +0.
pub fn same_number(answer: Result<f64, Refusal>, number: u64, place: u64, r: u64) -> bool {
    match answer {
        Err(refusal) => same_refusal(refusal, number, place) && r == 0,
        Ok(x) => number == 0 && place == 0 && same(x, double(r)),
    }
}
