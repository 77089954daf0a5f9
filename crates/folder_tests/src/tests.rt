//! What no run of the built program shows of a folder: what stands where a call of its store fails, pulls that are handed
//! their bytes (`pulls`), scans of what has changed meanwhile or can't be recorded (`scans`), and that what none of these
//! calls finds memory (`memory`).
mod made;
mod memory;
mod pulls;
mod scans;
mod stories;
