// Readings going up through a pile of loss adjustments, and what each layer makes of them.
mod telling;
mod work;

use crate::telling::stopped;
use std::io;
use work::work_out;

// Each part ends so, over what it worked out itself.
pub fn show(rt: &HostRuntime) -> io::Result<()> {
    match work_out() {
        Ok(climbs) => telling::pile(rt, &climbs),
        Err(refusal) => stopped(rt, "pile", &refusal),
    }
}
