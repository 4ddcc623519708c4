// The calls of a lively day: what is misread, mistyped and put right.
use profile::ProfiledReading;
use run::{Call, Entry, Question};

/// How many calls there are.
pub const CALLS: usize = 41;

/// A month's reading, of which this day has one part in 30.
const MONTH: ProfiledReading = ProfiledReading {
    energy: 288_000,
    profile_total: 3_000,
    profile_before: 1_200,
};

pub fn post<'a>(segment: u8, quarter_hour: u8, reading: u32) -> Call<'a> {
    Call::Entry(Entry::Post {
        segment,
        quarter_hour,
        reading,
    })
}

/// A part of the month's reading.
fn profiled<'a>(segment: u8, weights: &'a [u32]) -> Call<'a> {
    Call::Entry(Entry::PostProfiled {
        segment,
        reading: MONTH,
        weights,
    })
}

pub fn withdraw<'a>(segment: u8, quarter_hour: u8) -> Call<'a> {
    Call::Entry(Entry::Withdraw {
        segment,
        quarter_hour,
    })
}

pub fn figure<'a>(site: u8, quarter_hour: u8, wh: i32) -> Call<'a> {
    Call::Entry(Entry::Figure {
        site,
        quarter_hour,
        wh,
    })
}

fn strike<'a>(site: u8, quarter_hour: u8) -> Call<'a> {
    Call::Entry(Entry::Strike { site, quarter_hour })
}

pub fn loads<'a>(quarter_hour: u8) -> Call<'a> {
    Call::Question(Question::AdjustedLoads { quarter_hour })
}

fn rtaml<'a>(quarter_hour: u8, qse: u8, point: u8) -> Call<'a> {
    Call::Question(Question::Rtaml {
        quarter_hour,
        qse,
        point,
    })
}

pub fn ufe<'a>(quarter_hour: u8) -> Call<'a> {
    Call::Question(Question::GenerationAndUfe { quarter_hour })
}

pub fn shares<'a>(quarter_hour: u8) -> Call<'a> {
    Call::Question(Question::Shares { quarter_hour })
}

/// All about the last quarter hour of a day with one weight for each.
pub fn of_the_day(last: u8, weights: &[u32]) -> [Call; CALLS] {
    let past = last.saturating_add(1);
    [
        post(0, last, 1_000),
        post(0, last, 10_100_000),
        post(0, last, 1_010),
        post(64, last, 1_000),
        post(0, past, 1_000),
        post(5, last, 1_000),
        post(1, last, 2_000),
        withdraw(1, last),
        withdraw(1, last),
        ufe(last),
        post(1, last, 2_050),
        post(2, 0, 300),
        profiled(2, weights),
        profiled(2, &[1, 1, 1]),
        post(2, last, 3_000),
        post(1, 1, 5),
        ufe(last),
        figure(0, last, 6_800),
        figure(0, last, 10_000_001),
        figure(16, last, 100),
        figure(3, last, 100),
        strike(1, last),
        figure(1, last, -30),
        strike(1, last),
        loads(last),
        figure(1, last, -300),
        ufe(last),
        loads(last),
        rtaml(last, 1, 0),
        rtaml(last, 1, 1),
        rtaml(last, 16, 0),
        shares(last),
        ufe(past),
        Call::Seal,
        post(0, last, 900),
        shares(last),
        Call::Reopen,
        post(0, last, 900),
        Call::Seal,
        Call::Reopen,
        shares(last),
    ]
}
