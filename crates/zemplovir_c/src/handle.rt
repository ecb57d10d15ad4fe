//! What C holds of a host.
ghost use Rattle.std.specs.Prelude.{◌≡◌, Option, None, Some};
ghost use Rattle.std.specs.Option.{MatchOption};
ghost use Rattle.c_calls.specs.Host.{StackValue};

use crate::loose::Loose;
use c_calls::Host;
use std::alloc::Global;
use std::marker::Model;
use std::mem;
use std::ptr::null_mut;

/// A host in its box, or none: C sees a struct of one pointer, null for none. A contract sees what is inside.
#[repr(C)]
pub struct Handle {
    at: *mut u8,
    alloc: Global,
    pub ghost inside: { Option StackValue },
}

impl Model for Handle {
    ghost use Rattle.zemplovir_c.specs.BoxAtPointer.{held};
    ghost use Rattle.c_calls.specs.contracts.host.Host.{the_row};

    ghost also_owns = { λ h. held the_row h.alloc h.at h.inside };
}

impl Handle {
    /// No host.
    fn empty(alloc: Global) -> Handle
        ensures { result.inside ≡ None }
    {
        Handle {
            at: null_mut(),
            alloc,
        }
    }

    /// The host of this box.
    fn full(host: Loose<Host, Global>) -> Handle
        ensures { result.inside ≡ Some host.value }
    {
        let Loose { at, alloc } = host;
        Handle {
            at: at as *mut u8,
            alloc,
        }
    }

    /// The box again, if there is one.
    fn into_loose(self) -> Option<Loose<Host, Global>>
        ensures { MatchOption result (self.inside ≡ None) (λ host. self.inside ≡ Some host.value) }
    {
        let Handle { at, alloc } = self;
        if at.is_null() {
            None
        } else {
            Some(Loose {
                at: at as *mut Host,
                alloc,
            })
        }
    }

    /// Takes the host out.
    pub fn take(&mut self, alloc: Global) -> Option<Box<Host>>
        ensures taken { MatchOption result (self.old.inside ≡ None) (λ host. self.old.inside ≡ Some host.value) }
        ensures left { self.new.inside ≡ None }
    {
        match mem::replace(self, Handle::empty(alloc)).into_loose() {
            Some(host) => Some(host.into_box()),
            None => None,
        }
    }

    /// Puts a host in. One that is there is freed.
    pub fn put(&mut self, host: Box<Host>)
        ensures { self.new.inside ≡ Some host.value }
    {
        *self = Handle::full(Loose::of(host));
    }
}

impl Drop for Handle {
    fn drop(self) {
        if let Some(host) = self.into_loose() {
            let _ = host.into_box();
        }
    }
}
