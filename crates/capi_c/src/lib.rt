// What C links: opposite, next and previous on the bytes of a record and the code of a dart, each as the library answers it.
#![tactic(auto)]

ghost use Rattle.std.specs.Prelude.{◌≡◌};
ghost use Rattle.model.specs.Darts.{opposite, next, previous};
ghost use Rattle.capi.specs.Codes.{asked};

// The dart that leaves the entered pixel through the same crossing.
#[unsafe(no_mangle)]
pub extern "C" fn plate_opposite(bytes: &[u8], dart: u32) -> i32
    ensures { result ≡ asked opposite bytes.now dart }
{
    capi::plate_opposite(bytes, dart)
}

// The dart that leaves the entered pixel by the crossing before the entered one in its group.
#[unsafe(no_mangle)]
pub extern "C" fn plate_next(bytes: &[u8], dart: u32) -> i32
    ensures { result ≡ asked next bytes.now dart }
{
    capi::plate_next(bytes, dart)
}

// The dart whose next this one is.
#[unsafe(no_mangle)]
pub extern "C" fn plate_previous(bytes: &[u8], dart: u32) -> i32
    ensures { result ≡ asked previous bytes.now dart }
{
    capi::plate_previous(bytes, dart)
}
