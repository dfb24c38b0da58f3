//! What C calls. `include/qbf.h` has these calls for C.

mod formulas;
mod framing;
pub(crate) mod making;
mod running;
mod scopes;
mod solving;
mod verdicts;
