//! The versions of the script format. The reader of scripts finds the version in a header, and frames, engine and
//! session begin in it, but none of these depends on another for it: so it is below all of them.
#![tactic(auto)]

mod version;

pub use version::Version;
