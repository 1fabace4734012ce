//! The standard descriptors of this process.
/// Opens `/dev/null` in the place of each of the descriptors 0 to 2 that is closed, so that nothing else is opened there: what is written to
/// standard error would go into a pipe of some program. It is opened the wrong way round: reads of 0, and writes to 1 and 2, fail as they
/// would without it.
pub fn occupy_standard() {
    occupy(0, libc::O_WRONLY);
    occupy(1, libc::O_RDONLY);
    occupy(2, libc::O_RDONLY);
}

/// Occupies a number, where those below it are taken: the system gives the lowest one that is free.
fn occupy(number: i32, flags: i32) {
    if is_open(number) {
        return;
    }
    let opened = os::open_with(b"/dev/null", flags, 0);
    // Where no copy could be made the number may have been open: then another one was given.
    if opened >= 0 && opened != number {
        libc::close(opened);
    }
}

fn is_open(number: i32) -> bool {
    let copy = os::duplicate(number);
    if copy < 0 {
        return false;
    }
    libc::close(copy);
    true
}
