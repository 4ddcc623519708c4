// The balance of one quarter hour, from the readings and the generation figures to the load ratio
// shares.
mod telling;
mod work;

use crate::telling::stopped;
use std::io;
use work::work_out;

// Each part ends so, over what it worked out itself.
pub fn show(rt: &HostRuntime) -> io::Result<()> {
    match work_out() {
        Ok(settled) => telling::quarter_hour(rt, &settled),
        Err(refusal) => stopped(rt, "quarter hour", &refusal),
    }
}
