// What a call answered, as numbers.
use refusal::Refusal;

// Refusals stand in the tables by their numbers, as the rules and the output of the programs have them.
/// The number, subject and height of a refusal.
pub fn numbers(refusal: &Refusal) -> [u8; 3] {
    let answer = refusal.answer();
    [answer.number, answer.subject, answer.height]
}

/// The same, each 0 where a call was taken.
pub fn numbers_of<T: Drop>(answer: Result<T, Refusal>) -> [u8; 3] {
    match answer {
        Ok(_) => [0, 0, 0],
        Err(refusal) => numbers(&refusal),
    }
}

/// 0 where a call was taken, else the number of its refusal.
pub fn number_of<T: Drop>(answer: Result<T, Refusal>) -> u8 {
    let [number, _, _] = numbers_of(answer);
    number
}
