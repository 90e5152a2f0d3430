// The archive that C links: each call that include/sonerwal.h declares, exported under its name. An export calls the function of the crate sonerwal
// and promises what that promises. Each stands twice, since a crate is a library or an archive, and a test, a claim or another crate can stand on the library alone.
#![tactic(auto)]

ghost use Rattle.std.specs.Prelude.{◌≡◌};
ghost use Rattle.sonerwal.specs.Face as face;

mod frames;
mod link;
mod ports;
mod replies;
mod transfers;
mod writes;

// Of the archive; the header has its own.
#[unsafe(no_mangle)]
pub extern "C" fn sonerwal_version() -> u32
    ensures { result ≡ face.version }
{
    sonerwal::sonerwal_version()
}
