// What one layer makes of the load below it.
ghost use Rattle.std.specs.Prelude.{◌≡◌, ℕ, ◌≤◌};
ghost use Rattle.refusal.specs.declared.Refusal.TheVariants.{SegmentNumber, QuarterHour};
ghost use Rattle.book.specs.Answers.{load_answer};
ghost use Rattle.book.specs.Grossing.{Gross, Fault, refusal_of};
ghost use Rattle.losses.specs.Adjusting.{Small, adjusted, higher, grossed_up};

use refusal::Refusal;

/// What a layer applies to a cell: nothing, so that a load passes as it is; a factor that it lacks;
/// or a factor in millionths.
#[derive(Clone, Copy)]
pub enum Loss {
    Unchanged,
    Missing,
    Factor(u32),
}

/// One layer up. A height stops at 255.
fn higher_than(height: u8) -> u8
    ensures { result ≡ higher height }
{
    height.saturating_add(1)
}

/// A fault of the book below, one layer up. What is no fault stays as it is.
fn one_up(refusal: Refusal) -> Refusal
    ensures faults { (s h : ℕ) (f : Fault) → refusal ≡ refusal_of s f h → result ≡ refusal_of s f (higher h) }
    ensures segment { refusal ≡ SegmentNumber → result ≡ SegmentNumber }
    ensures quarter_hour { refusal ≡ QuarterHour → result ≡ QuarterHour }
{
    match refusal {
        Refusal::NoReading { segment, height } => Refusal::NoReading {
            segment,
            height: higher_than(height),
        },
        Refusal::NoFactor { segment, height } => Refusal::NoFactor {
            segment,
            height: higher_than(height),
        },
        Refusal::LoadTooLarge { segment, height } => Refusal::LoadTooLarge {
            segment,
            height: higher_than(height),
        },
        other => other,
    }
}

/// A load of any size with its losses, to the nearest Wh.
#[tactic(auto, unfolding(crate::specs::Adjusting::grossed_up))]
fn with_losses(factor: u32, load: u32) -> u64
    requires factor { factor ≤ 500000 }
    ensures { result ≡ grossed_up factor load }
{
    let millionths = u64::from(load) * (1_000_000 + u64::from(factor));
    (millionths + 500_000) / 1_000_000
}

/// The layer's answer for a segment, by an answer below that holds a load of any size: what is past
/// the limit of a load book stays past it under any factor.
// That a factor is small is asked for here: with a limit in its type, what `given` and `loss_by_code`
// say of a table would need a proof of it in every clause.
pub(crate) fn adjust(below: Result<u32, Refusal>, loss: Loss, segment: u8) -> Result<u32, Refusal>
    requires { Small loss }
    ensures { (q : ℕ) (g : Gross) → below ≡ load_answer segment q g → result ≡ load_answer segment q (adjusted loss g) }
{
    let load = below.map_err(one_up)?;
    match loss {
        Loss::Unchanged => Ok(load),
        Loss::Missing => Err(Refusal::NoFactor { segment, height: 0 }),
        Loss::Factor(factor) => {
            let load = with_losses(factor, load);
            if load > 4_000_000 {
                Err(Refusal::LoadTooLarge { segment, height: 0 })
            } else {
                Ok(load as u32)
            }
        }
    }
}
