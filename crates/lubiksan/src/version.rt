// The version of the archive, to be held against LUBIKSAN_VERSION of the header.
ghost use Rattle.std.specs.Prelude.{◌≡◌};
ghost use Rattle.lubiksan.specs.Exported.{version};

// 10,000 for the first number, 100 for the second, 1 for the third.
const VERSION: u32 = 500;

#[unsafe(no_mangle)]
pub extern "C" fn lubiksan_version() -> u32
    ensures { result ≡ version }
{
    VERSION
}
