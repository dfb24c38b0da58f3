//! An engine made and freed.
ghost use Rattle.std.specs.Prelude.{◌≡◌, ◌≢◌, true, false, MatchOption};
ghost use Rattle.engine.specs.State.{engine_of, new_engine};
ghost use Rattle.qbf_c.specs.Codes.{accepted, bad_version, no_memory, version_for};
ghost use Rattle.qbf_c.specs.Made.{Makes};

use crate::code::{ACCEPTED, BAD_VERSION, NO_MEMORY};
use crate::handle::Handle;
use engine::Engine;
use std::alloc::Global;
use versions::Version;

/// Makes an engine of no scopes and no clauses in the handle, of version 1, and frees what this held. Where there is no
/// memory the handle is as it was.
#[unsafe(no_mangle)]
pub extern "C" fn qbf_new(alloc: Global, qbf: &mut Handle) -> u32
    ensures made { Makes new_engine (qbf.new ≡ qbf.old) qbf.new.live qbf.new.engine result }
{
    qbf_new_version(alloc, qbf, 1)
}

/// The same of a version, 1 to 3.
#[unsafe(no_mangle)]
pub extern "C" fn qbf_new_version(alloc: Global, qbf: &mut Handle, version: u32) -> u32
    ensures made { MatchOption (version_for version) ((result ≡ bad_version) × (qbf.new ≡ qbf.old))
        (λ v. Makes (engine_of v) (qbf.new ≡ qbf.old) qbf.new.live qbf.new.engine result) }
{
    let Some(version) = version_of(version) else {
        return BAD_VERSION;
    };
    match Engine::with_version(alloc, version) {
        Ok(engine) => hold(alloc, qbf, engine),
        Err(_) => NO_MEMORY,
    }
}

// The version of a number.
fn version_of(number: u32) -> Option<Version>
    ensures { result ≡ version_for number }
{
    match number {
        1 => Some(Version::One),
        2 => Some(Version::Two),
        3 => Some(Version::Three),
        _ => None,
    }
}

// Puts an engine into the handle, and frees what this held.
pub(crate) fn hold(alloc: Global, qbf: &mut Handle, engine: Engine) -> u32
    ensures { Makes engine (qbf.new ≡ qbf.old) qbf.new.live qbf.new.engine result }
{
    match Box::new(alloc, engine) {
        Ok(engine) => {
            *qbf = Handle::of(engine);
            ACCEPTED
        }
        Err(_) => NO_MEMORY,
    }
}

/// Frees the engine, if there is one.
#[unsafe(no_mangle)]
pub extern "C" fn qbf_free(alloc: Global, qbf: &mut Handle)
    ensures { qbf.new.live ≡ false }
{
    *qbf = Handle::empty(alloc);
}
