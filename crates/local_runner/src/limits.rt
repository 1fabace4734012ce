//! What the system allows this process.
use libc::types::rlimit;

/// What the system calls the number of processes of a user.
const RLIMIT_NPROC: i32 = 6;

/// How many descriptors this process may have; none where the system doesn't say.
pub(crate) fn descriptors() -> Option<u64> {
    limit_of(libc::RLIMIT_NOFILE)
}

/// How many processes and threads this user may have; none where the system doesn't say.
pub(crate) fn processes() -> Option<u64> {
    limit_of(RLIMIT_NPROC)
}

fn limit_of(resource: i32) -> Option<u64> {
    let mut limit = rlimit {
        rlim_cur: 0,
        rlim_max: 0,
    };
    if libc::getrlimit(resource, &mut limit) == 0 {
        Some(limit.rlim_cur)
    } else {
        None
    }
}
