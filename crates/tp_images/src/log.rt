//! The deeds of images, held beside them in no bytes.
ghost use Rattle.std.specs.Prelude.{◌≡◌, List};
ghost use Rattle.std.specs.Borrow.{ftrue};
ghost use Rattle.tp_images.specs.Deeds.{Deed};

use std::marker::{Model, PhantomData};

/// How deeds are read off a value.
pub(crate) trait Tells<X> {
    ghost deeds: { X → List Deed };
}

/// The deeds, newest first. It has no bytes, and its calls do nothing when they run.
#[derive(Drop)]
pub(crate) struct DeedLog {
    marker: PhantomData<()>,
    pub ghost deeds: { List Deed },
}

impl Model for DeedLog {
    ghost also_owns = { λ _. ftrue };
}

// It owns nothing.
unsafe impl Send for DeedLog {}

unsafe impl Sync for DeedLog {}

impl DeedLog {
    pub(crate) fn of<X, M: Tells<X>>(x: &X) -> DeedLog
        ensures { result.deeds ≡ M.deeds x.now }
    {
        let _ = x;
        DeedLog {
            marker: PhantomData,
        }
    }
}
