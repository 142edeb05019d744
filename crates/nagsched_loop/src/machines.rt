//! The machine room: its setups, its clock, and the reports of its machines.

use check_states::Code;

/// The gateway, the storage that is connected through it, and two services on each, as one line. All checks
/// are due at 0, then every 4 hours, and every half hour while a problem is soft. The backup isn't checked
/// while the disks have a hard problem.
pub(crate) const MACHINE_ROOM: &str =
    r#"{"options":{"host_inter_check_delay_method":"n","service_inter_check_delay_method":"n","low_service_flap_threshold":5,"high_service_flap_threshold":20},"hosts":[{"name":"gateway","max_check_attempts":3,"check_interval":240,"retry_interval":30},{"name":"storage","parents":["gateway"],"max_check_attempts":3,"check_interval":240,"retry_interval":30}],"services":[{"host":"gateway","description":"ping","max_check_attempts":3,"check_interval":240,"retry_interval":30},{"host":"gateway","description":"rack","max_check_attempts":3,"check_interval":240,"retry_interval":30},{"host":"storage","description":"backup","max_check_attempts":3,"check_interval":240,"retry_interval":30},{"host":"storage","description":"disks","max_check_attempts":3,"check_interval":240,"retry_interval":30}],"service_dependencies":[{"dependent":"storage;backup","master":"storage;disks","criteria":"c,u"}]}"#;

/// The same room after a change: only two services are checked at a time, the rack is no longer
/// checked, and the tapes are new.
pub(crate) const CHANGED_ROOM: &str =
    r#"{"options":{"host_inter_check_delay_method":"n","service_inter_check_delay_method":"n","low_service_flap_threshold":5,"high_service_flap_threshold":20,"max_concurrent_checks":2},"hosts":[{"name":"gateway","max_check_attempts":3,"check_interval":240,"retry_interval":30},{"name":"storage","parents":["gateway"],"max_check_attempts":3,"check_interval":240,"retry_interval":30}],"services":[{"host":"gateway","description":"ping","max_check_attempts":3,"check_interval":240,"retry_interval":30},{"host":"storage","description":"backup","max_check_attempts":3,"check_interval":240,"retry_interval":30},{"host":"storage","description":"disks","max_check_attempts":3,"check_interval":240,"retry_interval":30},{"host":"storage","description":"tapes","max_check_attempts":3,"check_interval":240,"retry_interval":30}],"service_dependencies":[{"dependent":"storage;backup","master":"storage;disks","criteria":"c,u"}]}"#;

/// The number of objects of each setup.
pub(crate) const OBJECTS: usize = 6;

/// The number of the gateway: hosts by name, then services by host and description.
pub(crate) const GATEWAY: u32 = 0;

/// In milliseconds: the time that the fastest machine takes to answer, an hour and a day.
pub(crate) const ANSWER: u64 = 5_500;

pub(crate) const HOUR: u64 = 3_600_000;

const DAY: u64 = 86_400_000;

/// The start of the day with this number, in milliseconds; the first day is 0.
pub(crate) fn morning(day: u32) -> u64 {
    u64::from(day) * DAY
}

/// The noon of the day after this moment.
pub(crate) fn next_noon(now: u64) -> u64 {
    (now / DAY)
        .saturating_mul(DAY)
        .saturating_add(DAY + 12 * HOUR)
}

/// The report of a machine at a moment. Each machine repeats a cycle of 31 hours: 5 hours critical, 2 hours
/// with a warning, an hour with unknown state, and 23 hours in order. The cycle of each machine begins 7
/// hours before that of the machine with the number below.
pub(crate) fn code_at(object: u32, now: u64) -> Code {
    let ahead = u64::from(object) * 7;
    match (now / HOUR).wrapping_add(ahead) % 31 {
        0..5 => Code::Critical,
        5..7 => Code::Warning,
        7 => Code::Unknown,
        _ => Code::Ok,
    }
}
