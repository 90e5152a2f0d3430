// What C calls, as include/sonerwal.h declares it, with a module for each machine: numbers, byte slices and plain structs, and 0, a refusal's
// number or what happened as the answer. No enum and no bool crosses, since C can lend any byte.
#![tactic(auto)]

ghost use Rattle.std.specs.Prelude.{◌≡◌};
ghost use Rattle.sonerwal.specs.Face as face;

pub mod frames;
pub mod link;
pub mod ports;
pub mod replies;
pub mod transfers;
pub mod writes;

// Of the archive; the header has its own.
#[unsafe(no_mangle)]
pub extern "C" fn sonerwal_version() -> u32
    ensures { result ≡ face.version }
{
    400
}
