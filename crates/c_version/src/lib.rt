// The version of the C library. include/purmagheli.h has the same number.
#![tactic(auto)]

ghost use Rattle.std.specs.Prelude.{◌≡◌};
ghost use Rattle.c_version.specs.Version.{version};

// It rises with every change that a program in C can see.
pub const VERSION: u64 = 2;

// The version of the archive: a program compares it with PURMAGHELI_VERSION of the header that it was compiled with.
pub fn purmagheli_version() -> u64
    ensures { result ≡ version }
{
    VERSION
}
