//! Calls of a part as data, which are made one after the other.

/// A call of a part.
pub trait Call<P> {
    /// Makes the call, and returns the part's answer.
    fn ask(self, part: &mut P) -> Told;
}

/// The answer of a part: nothing, numbers, or a refusal. `Unasked` is for a call that may not be made.
#[derive(Clone, Copy, PartialEq, Debug)]
pub enum Told {
    Unasked,
    Nothing,
    Done,
    Whether(bool),
    Number(u32),
    Length(usize),
    /// A value that the call returns.
    Back(u32),
    /// An object that the call destroys.
    Gone { birth: u32, size: u64 },
    Full,
    NoMemory,
}

impl Told {
    /// Returns the answer of a call that returns a number or none.
    pub fn of(number: Option<u32>) -> Told {
        match number {
            Some(number) => Told::Number(number),
            None => Told::Nothing,
        }
    }
}

/// Makes the call, and makes it again if memory was refused. The later calls show that the refusal changed nothing.
fn answer<P, C: Call<P> + Copy>(part: &mut P, call: C) -> Told {
    let told = call.ask(part);
    if told == Told::NoMemory {
        return call.ask(part);
    }
    told
}

/// An answer that is not the expected one, with the place of its call in a table.
#[derive(Clone, Copy, PartialEq, Debug)]
pub struct Difference {
    /// The place of the call, from 0.
    pub place: usize,
    /// The answer.
    pub told: Told,
    /// The expected answer.
    pub expected: Told,
}

/// Makes each call, and returns the first answer that differs from the expected one.
pub fn check<P, C: Call<P> + Copy>(part: &mut P, cases: &[(C, Told)]) -> Option<Difference> {
    for (place, (call, expected)) in cases.iter().enumerate() {
        let told = answer(part, *call);
        if told != *expected {
            return Some(Difference {
                place,
                told,
                expected: *expected,
            });
        }
    }
    None
}

/// Makes each call on both, and returns the first answer of the part that differs from that of the plain one.
pub fn compare<P, Q, C: Call<P> + Call<Q> + Copy>(
    part: &mut P,
    plain: &mut Q,
    calls: &[C],
) -> Option<Difference> {
    for (place, call) in calls.iter().enumerate() {
        let told = Call::<P>::ask(*call, part);
        let expected = Call::<Q>::ask(*call, plain);
        if told != expected {
            return Some(Difference {
                place,
                told,
                expected,
            });
        }
    }
    None
}
