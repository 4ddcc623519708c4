// What the parts tell in the same words.
use refusal::Refusal;
use std::io;

/// A part of the walk that ends early, by what was sent back.
pub fn stopped(rt: &HostRuntime, what: &str, refusal: &Refusal) -> io::Result<()> {
    // the number first, and then the words
    let number = refusal.answer().number;
    println!(rt; "The {what} was sent back, with refusal {number}: {refusal}.")
}
