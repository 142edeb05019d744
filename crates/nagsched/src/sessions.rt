//! Tests of facts that no clause states and the built program doesn't show: which device a job says has failed,
//! the one flush of a run, and the statuses of arguments. `.ci/program/devices.py` runs the built program over devices
//! that fail, and looks at the order of its reads and writes.

mod devices;
mod faults;
mod sessions;

use std::alloc::Global;
use std::test::Fail;

/// One host `h` with 3 attempts, which is checked first at the scheduler's start.
const HOST: &str =
    "{\"options\":{\"host_inter_check_delay_method\":\"n\"},\"hosts\":[{\"name\":\"h\",\"max_check_attempts\":3}]}";

/// The setup with one host, and these lines after it.
fn with_host(alloc: Global, lines: &str) -> Result<String, Fail> {
    Ok(format!(in alloc; "{HOST}\n{lines}")?)
}
