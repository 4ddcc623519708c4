// What a line asks for, by its form alone.
use crate::field::Field;
use crate::line::Line;
use crate::number::{to_u8, to_u32};
use crate::place::{Place, Subject};
use arrayvec::ArrayVec;
use profile::ProfiledReading;
use roll::Row;
use run::{Call, Entry, Question};

/// The most records that a slip book can be made over.
const MOST_SLIPS: u64 = 6_400;

/// Room for one weight more than the longest day has.
const WEIGHTS: usize = 101;

#[derive(Clone, Copy)]
pub enum Order {
    Day {
        quarter_hours: u8,
    },
    Segment {
        number: u8,
        row: Row,
    },
    Site {
        number: u8,
    },
    Grid,
    Slips {
        records: usize,
    },
    Distribution,
    Transmission,
    DistributionFactor {
        layer: usize,
        letter: u8,
        quarter_hour: u8,
        factor: u32,
    },
    TransmissionFactor {
        layer: usize,
        quarter_hour: u8,
        factor: u32,
    },
    Codes {
        layer: usize,
    },
    Open,
    /// On an opened day, with the weights of the line.
    Profile {
        segment: u8,
        reading: ProfiledReading,
    },
    /// On an opened day: its text is longer than an answer.
    Statement {
        quarter_hour: u8,
    },
    /// Any other call on an opened day.
    Call(Call<'static>),
}

/// An order, and what its line names.
#[derive(Clone, Copy)]
pub struct Request {
    pub order: Order,
    subject: Option<Subject>,
    quarter_hour: Option<u64>,
}

impl Request {
    /// An order whose line names nothing.
    fn new(order: Order) -> Request {
        Request {
            order,
            subject: None,
            quarter_hour: None,
        }
    }

    // Two constructors of one line, for the two kinds of call.
    fn entry(entry: Entry<'static>) -> Request {
        Request::new(Order::Call(Call::Entry(entry)))
    }

    fn question(question: Question) -> Request {
        Request::new(Order::Call(Call::Question(question)))
    }

    fn of(self, subject: Subject) -> Request {
        Request {
            subject: Some(subject),
            ..self
        }
    }

    fn at(self, quarter_hour: u64) -> Request {
        Request {
            quarter_hour: Some(quarter_hour),
            ..self
        }
    }

    /// What the line is about, on a day that has clock times or not.
    pub fn place(&self, has_clock: bool) -> Place {
        Place::new(self.subject, self.quarter_hour, has_clock)
    }
}

/// The whole numbers that the fields are, if there are so many.
fn wholes<const N: usize>(fields: &[Field]) -> Option<[u64; N]> {
    if fields.len() != N {
        return None;
    }
    let mut numbers = [0; N];
    for (number, field) in numbers.iter_mut().zip(fields) {
        *number = field.whole()?;
    }
    Some(numbers)
}

/// A line that is its word alone.
fn alone(fields: &[Field], order: Order) -> Option<Request> {
    fields.is_empty().then_some(Request::new(order))
}

fn day(fields: &[Field]) -> Option<Request> {
    let [quarter_hours] = wholes::<1>(fields)?;
    Some(Request::new(Order::Day {
        quarter_hours: to_u8(quarter_hours),
    }))
}

fn segment(fields: &[Field]) -> Option<Request> {
    let [number, qse, point, code, meter, noie] = fields else {
        return None;
    };
    let number = number.whole()?;
    let row = Row {
        qse: to_u8(qse.whole()?),
        point: to_u8(point.whole()?),
        code: code.character()?,
        meter: to_u8(meter.whole()?),
        noie: to_u8(noie.whole()?),
    };
    let order = Order::Segment {
        number: to_u8(number),
        row,
    };
    Some(Request::new(order).of(Subject::Segment(number)))
}

fn site(fields: &[Field]) -> Option<Request> {
    let [number] = wholes::<1>(fields)?;
    let order = Order::Site {
        number: to_u8(number),
    };
    Some(Request::new(order).of(Subject::Site(number)))
}

fn slips(fields: &[Field]) -> Option<Request> {
    let [records] = wholes::<1>(fields)?;
    if records > MOST_SLIPS {
        return None;
    }
    Some(Request::new(Order::Slips {
        records: records as usize,
    }))
}

/// With a code a factor is meant for a distribution layer, without one for transmission.
fn factor(fields: &[Field]) -> Option<Request> {
    match fields {
        [layer, letter, quarter_hour, factor] => {
            distribution_factor(layer, letter, quarter_hour, factor)
        }
        _ => transmission_factor(fields),
    }
}

fn distribution_factor(
    layer: &Field,
    letter: &Field,
    quarter_hour: &Field,
    factor: &Field,
) -> Option<Request> {
    let layer = layer.whole()?;
    let quarter_hour = quarter_hour.whole()?;
    let order = Order::DistributionFactor {
        layer: usize::from(to_u8(layer)),
        letter: letter.character()?,
        quarter_hour: to_u8(quarter_hour),
        factor: to_u32(factor.whole()?),
    };
    Some(
        Request::new(order)
            .of(Subject::Layer(layer))
            .at(quarter_hour),
    )
}

fn transmission_factor(fields: &[Field]) -> Option<Request> {
    let [layer, quarter_hour, factor] = wholes::<3>(fields)?;
    let order = Order::TransmissionFactor {
        layer: usize::from(to_u8(layer)),
        quarter_hour: to_u8(quarter_hour),
        factor: to_u32(factor),
    };
    Some(
        Request::new(order)
            .of(Subject::Layer(layer))
            .at(quarter_hour),
    )
}

fn codes(fields: &[Field]) -> Option<Request> {
    let [layer] = wholes::<1>(fields)?;
    let order = Order::Codes {
        layer: usize::from(to_u8(layer)),
    };
    Some(Request::new(order).of(Subject::Layer(layer)))
}

fn post(fields: &[Field]) -> Option<Request> {
    let [segment, quarter_hour, reading] = wholes::<3>(fields)?;
    let post = Entry::Post {
        segment: to_u8(segment),
        quarter_hour: to_u8(quarter_hour),
        reading: to_u32(reading),
    };
    Some(
        Request::entry(post)
            .of(Subject::Segment(segment))
            .at(quarter_hour),
    )
}

/// The weights of a profile, as many as there is room for: a list that does not hold them all is
/// longer than any day.
pub fn weights(line: &Line) -> ArrayVec<u32, WEIGHTS> {
    let mut weights = ArrayVec::new();
    for weight in line
        .fields()
        .iter()
        .skip(4)
        .filter_map(Field::whole)
        .map(to_u32)
    {
        let _ = weights.try_push(weight);
    }
    weights
}

fn profile(line: &Line) -> Option<Request> {
    let [segment, energy, profile_total, profile_before, weights @ ..] = line.fields() else {
        return None;
    };
    if line.has_stray() || weights.iter().any(|weight| weight.whole().is_none()) {
        return None;
    }
    let segment = segment.whole()?;
    let reading = ProfiledReading {
        energy: to_u32(energy.whole()?),
        profile_total: to_u32(profile_total.whole()?),
        profile_before: to_u32(profile_before.whole()?),
    };
    let order = Order::Profile {
        segment: to_u8(segment),
        reading,
    };
    Some(Request::new(order).of(Subject::Segment(segment)))
}

fn withdraw(fields: &[Field]) -> Option<Request> {
    let [segment, quarter_hour] = wholes::<2>(fields)?;
    let withdraw = Entry::Withdraw {
        segment: to_u8(segment),
        quarter_hour: to_u8(quarter_hour),
    };
    Some(
        Request::entry(withdraw)
            .of(Subject::Segment(segment))
            .at(quarter_hour),
    )
}

fn figure(fields: &[Field]) -> Option<Request> {
    let [site, quarter_hour, wh] = fields else {
        return None;
    };
    let site = site.whole()?;
    let quarter_hour = quarter_hour.whole()?;
    let figure = Entry::Figure {
        site: to_u8(site),
        quarter_hour: to_u8(quarter_hour),
        wh: wh.figure()?,
    };
    Some(
        Request::entry(figure)
            .of(Subject::Site(site))
            .at(quarter_hour),
    )
}

// It reads as a withdrawal does, and makes another entry of another subject.
fn strike(fields: &[Field]) -> Option<Request> {
    let [site, quarter_hour] = wholes::<2>(fields)?;
    let strike = Entry::Strike {
        site: to_u8(site),
        quarter_hour: to_u8(quarter_hour),
    };
    Some(
        Request::entry(strike)
            .of(Subject::Site(site))
            .at(quarter_hour),
    )
}

fn rtaml(fields: &[Field]) -> Option<Request> {
    let [qse, point, quarter_hour] = wholes::<3>(fields)?;
    let rtaml = Question::Rtaml {
        quarter_hour: to_u8(quarter_hour),
        qse: to_u8(qse),
        point: to_u8(point),
    };
    Some(
        Request::question(rtaml)
            .of(Subject::Pair { qse, point })
            .at(quarter_hour),
    )
}

/// A question that names a quarter hour and nothing else.
fn about<F: FnOnce(u8) -> Question>(fields: &[Field], question: F) -> Option<Request>
    requires { F.IsAlwaysCallable question }
{
    let [quarter_hour] = wholes::<1>(fields)?;
    let question = question(to_u8(quarter_hour));
    Some(Request::question(question).at(quarter_hour))
}

fn statement(fields: &[Field]) -> Option<Request> {
    let [quarter_hour] = wholes::<1>(fields)?;
    let order = Order::Statement {
        quarter_hour: to_u8(quarter_hour),
    };
    Some(Request::new(order).at(quarter_hour))
}

/// A line of a draft.
fn on_draft(line: &Line) -> Option<Request> {
    let fields = line.fields();
    match line.word() {
        b"day" => day(fields),
        b"segment" => segment(fields),
        b"site" => site(fields),
        b"grid" => alone(fields, Order::Grid),
        b"slips" => slips(fields),
        b"distribution" => alone(fields, Order::Distribution),
        b"transmission" => alone(fields, Order::Transmission),
        b"factor" => factor(fields),
        b"codes" => codes(fields),
        b"open" => alone(fields, Order::Open),
        _ => None,
    }
}

/// A line of an opened day.
fn on_day(line: &Line) -> Option<Request> {
    let fields = line.fields();
    match line.word() {
        b"post" => post(fields),
        b"profile" => profile(line),
        b"withdraw" => withdraw(fields),
        b"figure" => figure(fields),
        b"strike" => strike(fields),
        b"seal" => alone(fields, Order::Call(Call::Seal)),
        b"reopen" => alone(fields, Order::Call(Call::Reopen)),
        b"loads" => about(
            fields,
            |quarter_hour| Question::AdjustedLoads { quarter_hour },
        ),
        b"rtaml" => rtaml(fields),
        b"ufe" => about(
            fields,
            |quarter_hour| Question::GenerationAndUfe { quarter_hour },
        ),
        b"shares" => about(fields, |quarter_hour| Question::Shares { quarter_hour }),
        b"statement" => statement(fields),
        _ => None,
    }
}

/// What a line asks for, or nothing where it is not understood.
pub fn read(line: &Line) -> Option<Request> {
    on_day(line).or_else(|| on_draft(line))
}
