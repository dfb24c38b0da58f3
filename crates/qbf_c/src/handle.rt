//! The handle that C holds: an engine on the heap, or nothing.
ghost use Rattle.std.specs.Prelude.{◌≡◌, true, false, MatchOption};
ghost use Rattle.engine.specs.State.{EngineState};
ghost use Rattle.qbf_c.specs.Owned.{engine_coded, handle_owns};

use box_parts::Parts;
use engine::Engine;
use std::alloc::Global;
use std::marker::Model;

/// A handle of an engine: its address, and whether there is one. All zero it has none.
#[repr(C)]
pub struct Handle {
    at: *mut u8,
    alloc: Global,
    live: bool,
    pub ghost engine: { EngineState } by { engine_coded },
}

impl Model for Handle {
    ghost also_owns = { λ h. handle_owns h.alloc h.live h.at h.engine };
}

impl Handle {
    // A handle of nothing.
    pub(crate) fn empty(alloc: Global) -> Self
        ensures { result.live ≡ false }
    {
        Self {
            at: std::ptr::null_mut(),
            alloc,
            live: false,
        }
    }

    // A handle of what the parts hold.
    fn of_parts(parts: Parts<Engine, Global>) -> Self
        ensures { (result.live ≡ true) × (result.engine ≡ parts.value) }
    {
        let Parts { ptr, alloc } = parts;
        Self {
            at: ptr as *mut u8,
            alloc,
            live: true,
        }
    }

    // The parts of what it holds, if it does.
    fn into_parts(self) -> Option<Parts<Engine, Global>>
        ensures { MatchOption result (self.live ≡ false) (λ b. (self.live ≡ true) × (b.value ≡ self.engine)) }
    {
        let Self { at, alloc, live } = self;
        if live {
            Some(Parts {
                ptr: at as *mut Engine,
                alloc,
            })
        } else {
            None
        }
    }

    // A handle of this engine.
    pub(crate) fn of(engine: Box<Engine>) -> Self
        ensures { (result.live ≡ true) × (result.engine ≡ engine.value) }
    {
        Self::of_parts(Parts::from_box(engine))
    }

    // The engine of this handle, if there is one.
    pub(crate) fn into_option(self) -> Option<Box<Engine>>
        ensures { MatchOption result (self.live ≡ false) (λ b. (self.live ≡ true) × (b.value ≡ self.engine)) }
    {
        match self.into_parts() {
            Some(parts) => Some(parts.into_box()),
            None => None,
        }
    }
}

impl Drop for Handle {
    fn drop(self) {
        drop(self.into_option());
    }
}

unsafe impl Send for Handle {}

// The engine out of the handle.
pub(crate) fn taken(alloc: Global, qbf: &mut Handle) -> Option<Box<Engine>>
    ensures engine { MatchOption result (qbf.old.live ≡ false)
        (λ b. (qbf.old.live ≡ true) × (b.value ≡ qbf.old.engine)) }
    ensures empty { qbf.new.live ≡ false }
{
    std::mem::replace(qbf, Handle::empty(alloc)).into_option()
}
