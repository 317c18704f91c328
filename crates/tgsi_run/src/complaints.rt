// What is wrong, on standard error. No contract can say what is written.

// `inputs: 128 of 250000 words used`, where that is not all.
pub fn unused_line(rt: &HostRuntime, title: &str, used: u64, given: u64) {
    if used < given {
        let _ = eprintln!(rt; "{title}: {used} of {given} words used");
    }
}
