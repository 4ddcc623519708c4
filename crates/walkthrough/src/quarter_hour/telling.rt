// The balance of the quarter hour in words.
use crate::figures::Signed;
use crate::quarter_hour::work::{READINGS, SENT_OUT, Settled, TAKEN_IN};
use crate::shared::NOON;
use clock::clock_time;
use std::io;

pub fn quarter_hour(rt: &HostRuntime, settled: &Settled) -> io::Result<()> {
    roll(rt)?;
    entries(rt)?;
    loads(rt, settled)?;
    ufe(rt, settled)?;
    adjusted(rt, settled)?;
    rtaml(rt, settled)?;
    shares(rt, settled)
}

fn roll(rt: &HostRuntime) -> io::Result<()> {
    println!(rt; "The balance of a quarter hour")?;
    println!(rt; "")?;
    println!(rt; "Four segments are on the roll:")?;
    println!(rt; "- 0, a household on a load profile, code A, of QSE 1 at settlement point 0;")?;
    println!(rt;
        "- 1, a workshop with an interval meter, code B, of QSE 2 at settlement point 0;"
    )?;
    println!(rt; "- 2, a mill at transmission voltage, code T, of QSE 1 at settlement point 1;")?;
    println!(rt;
        "- 3, a town with wires of its own (NOIE), code T, of QSE 3 at settlement point 1."
    )?;
    println!(rt; "")
}

fn entries(rt: &HostRuntime) -> io::Result<()> {
    let time = clock_time(u64::from(NOON));
    println!(rt; "What was entered for {time}:")?;
    energy(rt, "the household", READINGS.household)?;
    energy(rt, "the workshop", READINGS.workshop)?;
    energy(rt, "the mill", READINGS.mill)?;
    energy(rt, "the town", READINGS.town)?;
    energy(rt, "sent out by generation site 0", SENT_OUT)?;
    energy(rt, "taken in by generation site 1", TAKEN_IN)?;
    println!(rt; "")
}

fn loads(rt: &HostRuntime, settled: &Settled) -> io::Result<()> {
    println!(rt; "With the losses, distribution 50,000 for code A and 25,000 for code B, and")?;
    println!(rt; "transmission 20,000 over that, the loads are:")?;
    energy(rt, "the household", settled.loads.household)?;
    energy(rt, "the workshop", settled.loads.workshop)?;
    energy(rt, "the mill", settled.loads.mill)?;
    energy(rt, "the town", settled.loads.town)?;
    println!(rt; "")
}

fn ufe(rt: &HostRuntime, settled: &Settled) -> io::Result<()> {
    println!(rt; "More was generated than these loads take. The rest is unaccounted for (UFE):")?;
    energy(rt, "generated in all", settled.energy.generation)?;
    energy(rt, "unaccounted for", settled.energy.ufe)?;
    println!(rt; "")
}

fn adjusted(rt: &HostRuntime, settled: &Settled) -> io::Result<()> {
    println!(rt;
        "A watt-hour on a load profile carries ten parts of it, one from an interval meter"
    )?;
    println!(rt;
        "five, at transmission voltage one, and a NOIE carries none. The adjusted loads,"
    )?;
    println!(rt; "which add up to what was generated:")?;
    energy(rt, "the household", settled.adjusted[0])?;
    energy(rt, "the workshop", settled.adjusted[1])?;
    energy(rt, "the mill", settled.adjusted[2])?;
    energy(rt, "the town", settled.adjusted[3])?;
    println!(rt; "")
}

fn rtaml(rt: &HostRuntime, settled: &Settled) -> io::Result<()> {
    println!(rt; "Real-time adjusted metered load (RTAML) by QSE and settlement point:")?;
    energy(rt, "QSE 1 at settlement point 0", settled.rtaml.one_at_0)?;
    energy(rt, "QSE 1 at settlement point 1", settled.rtaml.one_at_1)?;
    energy(rt, "QSE 2 at settlement point 0", settled.rtaml.two_at_0)?;
    energy(rt, "QSE 3 at settlement point 1", settled.rtaml.three_at_1)?;
    println!(rt; "")
}

fn shares(rt: &HostRuntime, settled: &Settled) -> io::Result<()> {
    println!(rt; "Load ratio shares, in billionths, which add up to 1,000,000,000:")?;
    share(rt, 1, settled.shares[1])?;
    share(rt, 2, settled.shares[2])?;
    share(rt, 3, settled.shares[3])
}

fn share(rt: &HostRuntime, qse: u8, share: i64) -> io::Result<()> {
    let billionths = Signed(share);
    println!(rt; "- QSE {qse}: {billionths}.")
}

fn energy(rt: &HostRuntime, what: &str, wh: impl Into<i64>) -> io::Result<()> {
    let amount = Signed(wh.into());
    println!(rt; "- {what}: {amount} Wh.")
}
